ghost use Rattle.line_graph.specs.PiecesOfDrawings.{graph_of};
ghost use Rattle.line_graph.specs.ValidPieces.{is_below};
ghost use Rattle.std.specs.Prelude.{◌≡◌, ◌∷◌, [], pos, true, IfOk};

use super::cert_parts::compare_walk;
use design_model::{Items, Memory, Point};
use euler_tour::tour;
use line_graph::{Edge, Piece};
use std::alloc::Global;
use std::test::Fail;

fn edge(cost: u32) -> Edge
    ensures { result ≡ record { a = 0; b = 1; cost = cost } }
{
    Edge { a: 0, b: 1, cost }
}

/// Returns three lines from one junction to another.
fn piece(alloc: Global, start: Option<u32>, end: Option<u32>) -> Result<Piece, Memory>
    requires start { is_below 2 start ≡ true }
    requires end { is_below 2 end ≡ true }
    ensures { IfOk result (λ p. graph_of p ≡ record {
      block = 0;
      lines = 0 ∷ 1 ∷ 2 ∷ [];
      junctions = record { x = pos 0; y = pos 0 } ∷ record { x = pos 10; y = pos 0 } ∷ [];
      edges = record { a = 0; b = 1; cost = 1 } ∷ record { a = 0; b = 1; cost = 2 }
          ∷ record { a = 0; b = 1; cost = 5 } ∷ [];
      degrees = 3 ∷ 3 ∷ [];
      start = start;
      end = end;
    }) }
{
    let junctions = [Point { x: 0, y: 0 }, Point { x: 10, y: 0 }];
    Ok(Piece {
        block: 0,
        lines: Items::from_vec(vec![in alloc; 0, 1, 2]?),
        junctions: Items::from_vec(Vec::from_array(alloc, junctions)?),
        edges: Items::from_vec(vec![in alloc; edge(1), edge(2), edge(5)]?),
        degrees: Items::from_vec(vec![in alloc; 3, 3]?),
        start,
        end,
    })
}

#[test]
fn a_closed_walk_begins_with_the_first_line_and_passes_it_again(
    rt: HostRuntime,
) -> Result<(), Fail> {
    let p = piece(rt.alloc(), None, None)?;
    let walk = tour(rt.alloc(), &p, &[1, 0, 0])?;
    let wanted = [(0, false), (0, true), (1, false), (2, true)];
    compare_walk(&rt, walk.as_slice(), &wanted);
    Ok(())
}

#[test]
fn an_open_walk_leads_from_start_to_end(rt: HostRuntime) -> Result<(), Fail> {
    let p = piece(rt.alloc(), Some(1), Some(0))?;
    let walk = tour(rt.alloc(), &p, &[0, 0, 0])?;
    compare_walk(&rt, walk.as_slice(), &[(0, true), (1, false), (2, true)]);
    Ok(())
}
