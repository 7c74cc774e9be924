ghost use Rattle.line_graph.specs.PieceGraphs.{degrees_from};
ghost use Rattle.line_graph.specs.PieceLabels.{CountsEnd, CountsEnds};
ghost use Rattle.line_graph.specs.ValidPieces.{ends_below};
ghost use Rattle.line_graph.specs.declared.limits.TheConstants.{MAX_LINES};
ghost use Rattle.std.specs.Prelude.{◌≡◌, ◌<◌, ◌≤◌, ◌+◌, true, ℕ, IfOk, length, get_or};

use crate::edge::Edge;
use design_model::Memory;
use std::alloc::Global;

/// Returns the degree of each junction: the number of line ends there.
pub fn degrees(alloc: Global, edges: &[Edge], junctions: usize) -> Result<Vec<u32>, Memory>
    requires ends { ends_below junctions edges.now ≡ true }
    requires few { length edges.now ≤ MAX_LINES }
    ensures { IfOk result (λ degrees. degrees.items ≡ degrees_from edges.now 0 junctions) }
{
    let mut degrees = vec![in alloc; 0; junctions]?;
    for edge in edges {
        count_ends(&mut degrees, *edge);
    }
    Ok(degrees)
}

/// Counts both ends of a line, which may be at one junction.
fn count_ends(degrees: &mut Vec<u32>, edge: Edge)
    requires a { edge.a < length degrees.old.items }
    requires b { edge.b < length degrees.old.items }
    requires fits { (j : ℕ) → get_or degrees.old.items j 0 + 2 < 4294967296 }
    ensures { CountsEnds edge degrees.old.items degrees.new.items }
{
    count_end(degrees, edge.a);
    count_end(degrees, edge.b);
}

fn count_end(degrees: &mut Vec<u32>, junction: u32)
    requires there { junction < length degrees.old.items }
    requires fits { get_or degrees.old.items junction 0 + 1 < 4294967296 }
    ensures one { CountsEnd junction degrees.old.items degrees.new.items }
    ensures few { (j : ℕ) → get_or degrees.new.items j 0 ≤ get_or degrees.old.items j 0 + 1 }
    ensures sized { length degrees.new.items ≡ length degrees.old.items }
{
    add_one(degrees, junction);
}

fn add_one(degrees: &mut Vec<u32>, junction: u32)
    requires there { junction < length degrees.old.items }
    requires fits { get_or degrees.old.items junction 0 + 1 < 4294967296 }
    ensures { CountsEnd junction degrees.old.items degrees.new.items }
{
    degrees[junction as usize] += 1;
}
