ghost use Rattle.line_graph.specs.FirstLines.{AddsLink, AreLinks, AreLinkedBelow, RecordsFirstLine};
ghost use Rattle.line_sections.specs.Spots.{is_same_spot};
ghost use Rattle.std.specs.HashMap.{get};
ghost use Rattle.std.specs.Prelude.{◌≡◌, ◌<◌, ◌+◌, IfOk, OnOk, length};

use crate::drawing::Drawing;
use crate::drawn_lines::line_ends;
use crate::line_labels::LineLink;
use design_model::Memory;
use line_sections::Spot;
use std::alloc::Global;
use std::collections::HashMap;

/// Returns two links for each line: from the line to the first line at each of its ends.
pub fn links(alloc: Global, d: &Drawing) -> Result<Vec<LineLink>, Memory>
    ensures { IfOk result (λ links. AreLinks d.now links.items) }
{
    let mut firsts = HashMap::new(alloc);
    let mut links = Vec::new(alloc);
    for line in 0..d.line_count() {
        link_line(d, line, &mut firsts, &mut links)?;
    }
    Ok(links)
}

/// Links a line at both of its ends.
fn link_line(
    d: &Drawing,
    line: u32,
    firsts: &mut HashMap<Spot, u32>,
    links: &mut Vec<LineLink>,
) -> Result<(), Memory>
    requires there { line < length d.now.lines }
    requires linking { AreLinkedBelow d.now line (get is_same_spot firsts.old) links.old.items }
    ensures { OnOk result
        (AreLinkedBelow d.now (line + 1) (get is_same_spot firsts.new) links.new.items) }
{
    let block = d.line_block(line);
    let (first, last) = line_ends(d, line);
    add_link(firsts, links, Spot { block, at: first }, line)?;
    add_link(firsts, links, Spot { block, at: last }, line)?;
    Ok(())
}

fn add_link(
    firsts: &mut HashMap<Spot, u32>,
    links: &mut Vec<LineLink>,
    spot: Spot,
    line: u32,
) -> Result<(), Memory>
    ensures { OnOk result (AddsLink spot line (get is_same_spot firsts.old)
        (get is_same_spot firsts.new) links.old.items links.new.items) }
{
    let first = first_line_at(firsts, spot, line)?;
    links.push(LineLink { line, first })?;
    Ok(())
}

/// Returns the first line at a spot. The given line becomes the first where there is none yet.
fn first_line_at(firsts: &mut HashMap<Spot, u32>, spot: Spot, line: u32) -> Result<u32, Memory>
    ensures { IfOk result (RecordsFirstLine spot line (get is_same_spot firsts.old)
        (get is_same_spot firsts.new)) }
{
    match known_line_at(firsts, spot) {
        Some(first) => Ok(first),
        None => {
            firsts.insert(spot, line)?;
            Ok(line)
        }
    }
}

fn known_line_at(firsts: &HashMap<Spot, u32>, spot: Spot) -> Option<u32>
    ensures { result ≡ get is_same_spot firsts.now spot }
{
    firsts.get(&spot).copied()
}
