ghost use Rattle.line_graph.specs.WalkEnds.{has_end_at_spot, is_junction};
ghost use Rattle.line_sections.specs.Spots.{is_same_spot};
ghost use Rattle.line_sections.specs.declared.spot.Spot.{Spot as SpotValue};
ghost use Rattle.std.specs.HashSet.{contains};
ghost use Rattle.std.specs.Prelude.{◌≡◌, ◌||◌, IfOk, OnOk};

use crate::lone_stitches::last_or;
use design_model::Memory;
use line_sections::{Line, Spot};
use std::alloc::Global;
use std::collections::HashSet;

/// Returns the junctions of sections: the spots at their ends.
pub fn junctions(alloc: Global, sections: &[Line]) -> Result<HashSet<Spot>, Memory>
    ensures { IfOk result (λ junctions. contains is_same_spot junctions ≡ is_junction sections.now) }
{
    let mut junctions = HashSet::new(alloc);
    for section in sections {
        put_ends(&mut junctions, section)?;
    }
    Ok(junctions)
}

fn put_ends(junctions: &mut HashSet<Spot>, section: &Line) -> Result<(), Memory>
    ensures { OnOk result ((spot : SpotValue) → contains is_same_spot junctions.new spot
        ≡ (has_end_at_spot spot section.now || contains is_same_spot junctions.old spot)) }
{
    let block = section.block();
    let Some((first, after)) = section.points().split_first() else {
        return Ok(());
    };
    let last = last_or(*first, after);
    junctions.insert(Spot { block, at: *first })?;
    junctions.insert(Spot { block, at: last })?;
    Ok(())
}
