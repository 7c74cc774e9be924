ghost use Rattle.line_meetings.specs.IndexedParts.{matching_indexes, parts_at};
ghost use Rattle.line_meetings.specs.Queries.{answers_query};
ghost use Rattle.std.specs.List.{flat_map};
ghost use Rattle.std.specs.Prelude.{◌≡◌, ◌++◌, IfOk, OnOk, drop, filter, take};

use crate::area::{Area, areas, matching};
use crate::part_order::in_near_order;
use crate::query::Query;
use design_model::Memory;
use drawing_review::LineSegment;
use std::alloc::Global;
use std::marker::Model;

/// Parts, and areas of them in which those are found that a question is about.
#[derive(Drop)]
pub struct PartTree {
    parts: Vec<LineSegment>,
    areas: Vec<Area>,
}

impl Model for PartTree {
    ghost use Rattle.drawing_review.specs.declared.segment.LineSegment.{LineSegment};
    ghost use Rattle.line_meetings.specs.IndexedParts.{AreIndexed};
    ghost use Rattle.std.specs.List.{flat_map};
    ghost use Rattle.std.specs.Prelude.{List};

    ghost Value = { List LineSegment };

    ghost view = { λ t. t.parts.items };

    ghost invariant = { λ t. AreIndexed t.parts.items (flat_map (λ a. a) t.areas.items) };
}

impl PartTree {
    /// Returns the tree of some parts.
    pub fn of(alloc: Global, parts: Vec<LineSegment>) -> Result<PartTree, Memory>
        ensures { IfOk result (λ tree. tree ≡ parts.items) }
    {
        let ordered = in_near_order(alloc, parts.as_slice())?;
        let areas = areas(alloc, ordered.as_slice())?;
        Ok(PartTree { parts, areas })
    }

    /// Returns the parts, in their order.
    pub fn parts(&self) -> &[LineSegment]
        ensures { result.now ≡ self.now }
    {
        self.parts.as_slice()
    }

    /// Returns the parts that a question is about, in their order.
    pub fn matches(&self, alloc: Global, query: Query) -> Result<Vec<LineSegment>, Memory>
        ensures { IfOk result (λ found. found.items ≡ filter (answers_query query) self.now) }
    {
        let mut indexes = matching(alloc, self.areas.as_slice(), &query)?;
        indexes.sort_unstable();
        let found = parts_with(alloc, self.parts.as_slice(), indexes.as_slice())?;
        Ok(found)
    }
}

/// Returns the parts with given indexes.
fn parts_with(
    alloc: Global,
    parts: &[LineSegment],
    indexes: &[usize],
) -> Result<Vec<LineSegment>, Memory>
    ensures { IfOk result (λ found. found.items ≡ parts_at parts.now indexes.now) }
{
    let mut found = Vec::new(alloc);
    for index in indexes {
        put_part_at(parts, *index, &mut found)?;
    }
    Ok(found)
}

fn put_part_at(
    parts: &[LineSegment],
    index: usize,
    found: &mut Vec<LineSegment>,
) -> Result<(), Memory>
    ensures { OnOk result (found.new.items ≡ found.old.items ++ take 1 (drop index parts.now)) }
{
    let Some(part) = parts.get(index) else {
        return Ok(());
    };
    found.push(*part)?;
    Ok(())
}
