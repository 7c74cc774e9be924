ghost use Rattle.line_meetings.specs.IndexedParts.{matching_indexes};
ghost use Rattle.line_meetings.specs.Outlines.{HaveOutline};
ghost use Rattle.line_meetings.specs.Queries.{query_bounds};
ghost use Rattle.std.specs.Prelude.{◌≡◌, ◌++◌, IfOk, OnOk};

use crate::bounds::Bounds;
use crate::indexed_part::IndexedPart;
use crate::outline::Outline;
use crate::query::Query;
use design_model::Memory;
use std::alloc::Global;
use std::marker::Model;

/// Parts that follow each other, and what is known of all.
#[derive(Drop)]
pub struct Group {
    outline: Outline,
    parts: Vec<IndexedPart>,
}

impl Model for Group {
    ghost use Rattle.line_meetings.specs.Outlines.{HaveOutline};
    ghost use Rattle.line_meetings.specs.declared.indexed_part.IndexedPart.{IndexedPart};
    ghost use Rattle.std.specs.Prelude.{List};

    ghost Value = { List IndexedPart };

    ghost view = { λ g. g.parts.items };

    ghost invariant = { λ g. HaveOutline g.outline g.parts.items };
}

impl Group {
    /// Returns the group of some parts.
    pub fn of(alloc: Global, some: &[IndexedPart]) -> Result<Group, Memory>
        ensures { IfOk result (λ group. group ≡ some.now) }
    {
        let outline = Outline::of(some);
        let mut parts = Vec::new(alloc);
        parts.extend_from_slice(some)?;
        Ok(Group { outline, parts })
    }

    /// Returns the outline of the parts.
    fn outline(&self) -> &Outline
        ensures { HaveOutline result.now self.now }
    {
        &self.outline
    }

    /// Adds the indexes of the parts of the group that a question is about. The bounds are those of the question.
    pub fn put_matches(
        &self,
        query: &Query,
        bounds: &Bounds,
        found: &mut Vec<usize>,
    ) -> Result<(), Memory>
        requires { bounds.now ≡ query_bounds query.now }
        ensures { OnOk result (found.new.items
            ≡ found.old.items ++ matching_indexes query.now self.now) }
    {
        if bounds.is_apart(&self.outline().bounds) {
            return Ok(());
        }
        if query.leaves_out(bounds, self.outline()) {
            return Ok(());
        }
        put_matches_among(self.parts.as_slice(), query, bounds, found)
    }
}

fn put_matches_among(
    parts: &[IndexedPart],
    query: &Query,
    bounds: &Bounds,
    found: &mut Vec<usize>,
) -> Result<(), Memory>
    requires { bounds.now ≡ query_bounds query.now }
    ensures { OnOk result (found.new.items ≡ found.old.items ++ matching_indexes query.now parts.now) }
{
    for part in parts {
        if !query.matches(bounds, &part.part) {
            continue;
        }
        found.push(part.index)?;
    }
    Ok(())
}
