ghost use Rattle.line_graph.specs.LineLabels.{AreAtMostIndex};
ghost use Rattle.line_graph.specs.NextLines.{AreNextFrom};
ghost use Rattle.line_graph.specs.PieceLabels.{lines_labelled};
ghost use Rattle.std.specs.Prelude.{◌≡◌, ◌<◌, ◌≤◌, IfOk, get_or, length, set};

use design_model::{Memory, Numbers};
use std::alloc::Global;

/// Returns for each line the next line with the same label, or the number of lines where there is none.
pub fn next_lines(alloc: Global, labels: &[u32]) -> Result<Vec<u32>, Memory>
    requires small { length labels.now ≤ 4294967295 }
    requires low { AreAtMostIndex labels.now }
    ensures { IfOk result (λ next. AreNextFrom labels.now 0 next.items) }
{
    let count = labels.len() as u32;
    let mut next = vec![in alloc; count; labels.len()]?;
    let mut at = count;
    while at > 0 {
        at -= 1;
        put_first(&mut next, labels[at as usize], at);
    }
    Ok(next)
}

/// Makes a line the first with its label, so that the one which was first is its next line.
fn put_first(next: &mut Vec<u32>, label: u32, line: u32)
    requires label { label < length next.old.items }
    requires line { line < length next.old.items }
    ensures { next.new.items ≡ set (set next.old.items label line) line (get_or next.old.items label 0) }
{
    let after = next[label as usize];
    next[label as usize] = line;
    next[line as usize] = after;
}

/// Returns the lines with the given label, in increasing order.
pub fn lines_with(
    alloc: Global,
    labels: &[u32],
    next: &[u32],
    label: u32,
) -> Result<Numbers, Memory>
    requires small { length labels.now ≤ 4294967295 }
    requires there { label < length labels.now }
    requires first { get_or labels.now label 0 ≡ label }
    requires next { AreNextFrom labels.now 0 next.now }
    ensures { IfOk result (λ lines. lines ≡ lines_labelled labels.now label) }
{
    let count = labels.len() as u32;
    let mut lines = Numbers::new(alloc);
    let mut line = label;
    while line < count {
        lines.push(line)?;
        line = next[line as usize];
    }
    Ok(lines)
}
