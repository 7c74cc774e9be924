ghost use Rattle.line_meetings.specs.IndexedParts.{matching_indexes};
ghost use Rattle.line_meetings.specs.Outlines.{HaveOutline};
ghost use Rattle.line_meetings.specs.Queries.{query_bounds};
ghost use Rattle.std.specs.List.{flat_map};
ghost use Rattle.std.specs.Prelude.{◌≡◌, ◌++◌, IfOk, OnOk};

use crate::bounds::Bounds;
use crate::indexed_part::IndexedPart;
use crate::outline::Outline;
use crate::query::Query;
use crate::region::{Region, regions};
use design_model::Memory;
use std::alloc::Global;
use std::marker::Model;

/// The number of parts in an area.
const AREA: usize = 4_096;

/// Regions that follow each other, and what is known of their parts.
#[derive(Drop)]
pub struct Area {
    outline: Outline,
    regions: Vec<Region>,
}

impl Model for Area {
    ghost use Rattle.line_meetings.specs.Outlines.{HaveOutline};
    ghost use Rattle.line_meetings.specs.declared.indexed_part.IndexedPart.{IndexedPart};
    ghost use Rattle.std.specs.List.{flat_map};
    ghost use Rattle.std.specs.Prelude.{List};

    ghost Value = { List IndexedPart };

    ghost view = { λ a. flat_map (λ r. r) a.regions.items };

    ghost invariant = { λ a. HaveOutline a.outline (flat_map (λ r. r) a.regions.items) };
}

impl Area {
    /// Returns the area of some parts.
    fn of(alloc: Global, some: &[IndexedPart]) -> Result<Area, Memory>
        ensures { IfOk result (λ area. area ≡ some.now) }
    {
        let outline = Outline::of(some);
        let regions = regions(alloc, some)?;
        Ok(Area { outline, regions })
    }

    /// Returns the outline of the parts.
    fn outline(&self) -> &Outline
        ensures { HaveOutline result.now self.now }
    {
        &self.outline
    }

    /// Adds the indexes of the parts of the area that a question is about. The bounds are those of the question.
    fn put_matches(
        &self,
        query: &Query,
        bounds: &Bounds,
        found: &mut Vec<usize>,
    ) -> Result<(), Memory>
        requires { bounds.now ≡ query_bounds query.now }
        ensures { OnOk result (found.new.items
            ≡ found.old.items ++ matching_indexes query.now self.now) }
    {
        if bounds.is_apart(&self.outline().bounds) {
            return Ok(());
        }
        if query.leaves_out(bounds, self.outline()) {
            return Ok(());
        }
        put_matches_in(self.regions.as_slice(), query, bounds, found)
    }
}

/// Returns the areas of some parts.
pub fn areas(alloc: Global, some: &[IndexedPart]) -> Result<Vec<Area>, Memory>
    ensures { IfOk result (λ areas. flat_map (λ a. a) areas.items ≡ some.now) }
{
    let mut areas = Vec::new(alloc);
    for next in some.chunks(AREA) {
        areas.push(Area::of(alloc, next)?)?;
    }
    Ok(areas)
}

fn put_matches_in(
    regions: &[Region],
    query: &Query,
    bounds: &Bounds,
    found: &mut Vec<usize>,
) -> Result<(), Memory>
    requires { bounds.now ≡ query_bounds query.now }
    ensures { OnOk result (found.new.items
        ≡ found.old.items ++ matching_indexes query.now (flat_map (λ r. r) regions.now)) }
{
    for region in regions {
        region.put_matches(query, bounds, found)?;
    }
    Ok(())
}

/// Returns the indexes of the parts of areas that a question is about.
pub fn matching(alloc: Global, areas: &[Area], query: &Query) -> Result<Vec<usize>, Memory>
    ensures { IfOk result (λ found. found.items ≡ matching_indexes query.now (flat_map (λ a. a) areas.now)) }
{
    let bounds = query.bounds();
    let mut found = Vec::new(alloc);
    for area in areas {
        area.put_matches(query, &bounds, &mut found)?;
    }
    Ok(found)
}
