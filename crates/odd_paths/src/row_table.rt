ghost use Rattle.line_graph.specs.PiecesOfDrawings.{graph_of};
ghost use Rattle.odd_paths.specs.LeastRows.{AreRows, IsPath, cost_at, row_length, terminal_of};
ghost use Rattle.std.specs.Prelude.{◌≡◌, ◌<◌, IfOk, Some, length, map, slice_get};

use crate::walk_back::places;
use design_model::{Memory, Numbers};
use line_graph::Piece;
use std::alloc::Global;
use std::marker::Model;

/// Least costs from some junctions of a piece, its terminals, to each of its junctions, in steps.
#[derive(Drop)]
pub struct Rows {
    terminals: Vec<u32>,
    table: Vec<Vec<u32>>,
}

impl Model for Rows {
    ghost use Rattle.std.specs.Prelude.{map};
    ghost use Rattle.odd_paths.specs.LeastRows.{RowsValue};

    ghost Value = { RowsValue };

    ghost view = { λ r. record {
      terminals = r.terminals.items;
      table = map (λ row. row.items) r.table.items;
    } };
}

impl Rows {
    /// Returns the rows of the given terminals, in the given order.
    pub(crate) fn of_parts(terminals: Vec<u32>, table: Vec<Vec<u32>>) -> Self
        ensures terminals { result.terminals ≡ terminals.items }
        ensures table { result.table ≡ map (λ row. row.items) table.items }
    {
        Rows { terminals, table }
    }

    /// Returns the cost in row `t` at junction `j`, both given by index.
    pub fn least(&self, t: usize, j: u32) -> u32
        requires row { t < length self.now.table }
        requires junction { j < row_length self.now t }
        ensures { result ≡ cost_at self.now t j }
    {
        self.table[t][j as usize]
    }

    /// Returns the number of terminals.
    pub fn len(&self) -> usize
        ensures { result ≡ length self.now.terminals }
    {
        self.terminals.len()
    }

    /// Returns row `t`: the least costs from terminal `t` to the junctions.
    pub fn row(&self, t: usize) -> &[u32]
        requires { t < length self.now.table }
        ensures { slice_get self.now.table t ≡ Some result.now }
    {
        self.table[t].as_slice()
    }

    /// Returns a least walk from terminal `t` to junction `j`: the indexes of its lines in the edges of the
    /// piece, in order. The only error is out of memory.
    pub fn path(&self, alloc: Global, p: &Piece, t: usize, j: u32) -> Result<Numbers, Memory>
        requires rows { AreRows (graph_of p.now) self.now }
        requires row { t < length self.now.terminals }
        requires junction { j < length p.now.junctions }
        ensures { IfOk result (IsPath (graph_of p.now) (terminal_of self.now t) j
            (cost_at self.now t j)) }
    {
        let places = places(alloc, self.row(t), p.edges.as_slice(), self.terminal(t), j)?;
        Ok(Numbers::from_vec(places))
    }

    /// Returns the terminal of row `t`.
    fn terminal(&self, t: usize) -> u32
        requires { t < length self.now.terminals }
        ensures { result ≡ terminal_of self.now t }
    {
        self.terminals[t]
    }
}
