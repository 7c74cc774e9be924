ghost use Rattle.line_meetings.specs.IndexedParts.{matching_indexes};
ghost use Rattle.line_meetings.specs.Outlines.{HaveOutline};
ghost use Rattle.line_meetings.specs.Queries.{query_bounds};
ghost use Rattle.std.specs.List.{flat_map};
ghost use Rattle.std.specs.Prelude.{◌≡◌, ◌++◌, IfOk, OnOk};

use crate::bounds::Bounds;
use crate::group::Group;
use crate::indexed_part::IndexedPart;
use crate::outline::Outline;
use crate::query::Query;
use design_model::Memory;
use std::alloc::Global;
use std::marker::Model;

/// The number of parts in a group.
const GROUP: usize = 16;

/// The number of parts in a region.
const REGION: usize = 256;

/// Groups that follow each other, and what is known of their parts.
#[derive(Drop)]
pub struct Region {
    outline: Outline,
    groups: Vec<Group>,
}

impl Model for Region {
    ghost use Rattle.line_meetings.specs.Outlines.{HaveOutline};
    ghost use Rattle.line_meetings.specs.declared.indexed_part.IndexedPart.{IndexedPart};
    ghost use Rattle.std.specs.List.{flat_map};
    ghost use Rattle.std.specs.Prelude.{List};

    ghost Value = { List IndexedPart };

    ghost view = { λ r. flat_map (λ g. g) r.groups.items };

    ghost invariant = { λ r. HaveOutline r.outline (flat_map (λ g. g) r.groups.items) };
}

impl Region {
    /// Returns the region of some parts.
    fn of(alloc: Global, some: &[IndexedPart]) -> Result<Region, Memory>
        ensures { IfOk result (λ region. region ≡ some.now) }
    {
        let outline = Outline::of(some);
        let groups = groups(alloc, some)?;
        Ok(Region { outline, groups })
    }

    /// Returns the outline of the parts.
    fn outline(&self) -> &Outline
        ensures { HaveOutline result.now self.now }
    {
        &self.outline
    }

    /// Adds the indexes of the parts of the region that a question is about. The bounds are those of the question.
    pub fn put_matches(
        &self,
        query: &Query,
        bounds: &Bounds,
        found: &mut Vec<usize>,
    ) -> Result<(), Memory>
        requires { bounds.now ≡ query_bounds query.now }
        ensures { OnOk result (found.new.items
            ≡ found.old.items ++ matching_indexes query.now self.now) }
    {
        if bounds.is_apart(&self.outline().bounds) {
            return Ok(());
        }
        if query.leaves_out(bounds, self.outline()) {
            return Ok(());
        }
        put_matches_in(self.groups.as_slice(), query, bounds, found)
    }
}

/// Returns the groups of some parts.
fn groups(alloc: Global, some: &[IndexedPart]) -> Result<Vec<Group>, Memory>
    ensures { IfOk result (λ groups. flat_map (λ g. g) groups.items ≡ some.now) }
{
    let mut groups = Vec::new(alloc);
    for next in some.chunks(GROUP) {
        groups.push(Group::of(alloc, next)?)?;
    }
    Ok(groups)
}

/// Returns the regions of some parts.
pub fn regions(alloc: Global, some: &[IndexedPart]) -> Result<Vec<Region>, Memory>
    ensures { IfOk result (λ regions. flat_map (λ r. r) regions.items ≡ some.now) }
{
    let mut regions = Vec::new(alloc);
    for next in some.chunks(REGION) {
        regions.push(Region::of(alloc, next)?)?;
    }
    Ok(regions)
}

fn put_matches_in(
    groups: &[Group],
    query: &Query,
    bounds: &Bounds,
    found: &mut Vec<usize>,
) -> Result<(), Memory>
    requires { bounds.now ≡ query_bounds query.now }
    ensures { OnOk result (found.new.items
        ≡ found.old.items ++ matching_indexes query.now (flat_map (λ g. g) groups.now)) }
{
    for group in groups {
        group.put_matches(query, bounds, found)?;
    }
    Ok(())
}
