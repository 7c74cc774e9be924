ghost use Rattle.line_graph.specs.declared.limits.TheConstants.{MAX_LINES};
ghost use Rattle.odd_paths.specs.EdgeWalks.{EndsAreBelow, IsGraph};
ghost use Rattle.odd_paths.specs.Lanes.{AddsColumns, AddsRows, AreLeastColumns, HaveStarts, IsCapped, lane_column};
ghost use Rattle.odd_paths.specs.declared.sweeps.TheConstants.{NO_WALK};
ghost use Rattle.std.specs.Prelude.{ℕ, ◌≡◌, ◌≢◌, ◌<◌, ◌≤◌, false, All, IfOk, OnOk, length, replicate, slice_index, slice_set};

use crate::edge_order::order_by;
use crate::lanes::LANES;
use crate::rounds::settle;
use crate::sweeps::NO_WALK;
use design_model::Memory;
use line_graph::Edge;
use std::alloc::Global;

/// Appends the rows of at most sixteen terminals, and returns the order of the edges for the next ones.
pub fn add_rows(
    alloc: Global,
    edges: &[Edge],
    n: usize,
    terminals: &[u32],
    order: Vec<u64>,
    rows: &mut Vec<Vec<u32>>,
) -> Result<Vec<u64>, Memory>
    requires graph { IsGraph edges.now n }
    requires few { length terminals.now ≤ LANES }
    requires there { All (λ t. t < n) terminals.now }
    ensures { OnOk result (AddsRows edges.now n terminals.now rows.old.items rows.new.items) }
{
    let (table, slow) = columns(alloc, edges, n, terminals, order.as_slice())?;
    push_columns(alloc, table.as_slice(), terminals, rows)?;
    let next = next_order(alloc, edges, table.as_slice(), order, slow)?;
    Ok(next)
}

/// Returns the order for the next terminals: a new one by the first column, where the last ones took many
/// rounds.
fn next_order(
    alloc: Global,
    edges: &[Edge],
    table: &[[u32; LANES]],
    order: Vec<u64>,
    slow: bool,
) -> Result<Vec<u64>, Memory>
    requires ends { EndsAreBelow (length table.now) edges.now }
    requires lines { length edges.now ≤ MAX_LINES }
    ensures { slow ≡ false → IfOk result (λ next. next.items ≡ order.items) }
{
    if !slow {
        return Ok(order);
    }
    let row = column(alloc, table, 0)?;
    order_by(alloc, edges, row.as_slice())
}

/// Returns a table with the rows of the terminals as its columns, and whether it took many rounds.
fn columns(
    alloc: Global,
    edges: &[Edge],
    n: usize,
    terminals: &[u32],
    order: &[u64],
) -> Result<(Vec<[u32; LANES]>, bool), Memory>
    requires graph { IsGraph edges.now n }
    requires few { length terminals.now ≤ LANES }
    requires there { All (λ t. t < n) terminals.now }
    ensures columns { IfOk result (λ answer. AreLeastColumns edges.now n terminals.now answer.0.items) }
    ensures size { IfOk result (λ answer. length answer.0.items ≡ n) }
{
    let mut table = blank(alloc, n)?;
    let slow = fill(&mut table, edges, n, terminals, order);
    Ok((table, slow))
}

/// Returns a table in which no walk is known.
fn blank(alloc: Global, n: usize) -> Result<Vec<[u32; LANES]>, Memory>
    ensures { IfOk result (λ table. table.items ≡ replicate n (replicate LANES NO_WALK)) }
{
    let mut table = Vec::with_capacity(alloc, n)?;
    for _lane in 0..n {
        table.push([NO_WALK; LANES])?;
    }
    Ok(table)
}

/// Computes the rows of the terminals as the columns of a table, and returns whether it took many rounds.
fn fill(
    table: &mut [[u32; LANES]],
    edges: &[Edge],
    n: usize,
    terminals: &[u32],
    order: &[u64],
) -> bool
    requires blank { table.old ≡ replicate n (replicate LANES NO_WALK) }
    requires graph { IsGraph edges.now n }
    requires few { length terminals.now ≤ LANES }
    requires there { All (λ t. t < n) terminals.now }
    ensures { AreLeastColumns edges.now n terminals.now table.new }
{
    begin(table, terminals);
    settle(table, edges, order)
}

/// Sets the cost of each terminal to 0 in its column.
fn begin(table: &mut [[u32; LANES]], terminals: &[u32])
    requires few { length terminals.now ≤ LANES }
    requires there { All (λ t. t < length table.old) terminals.now }
    requires capped { IsCapped table.old }
    ensures begun { HaveStarts terminals.now table.old table.new }
    ensures capped { IsCapped table.new }
{
    for i in 0..terminals.len() {
        begin_at(table, terminals[i], i);
    }
}

/// Sets the cost of a terminal to 0 in the column at an index.
fn begin_at(table: &mut [[u32; LANES]], t: u32, i: usize)
    requires lane { i < LANES }
    requires there { t < length table.old }
    requires capped { IsCapped table.old }
    ensures here { lane_column i table.new ≡ slice_set (lane_column i table.old) t 0 }
    ensures others { (k : ℕ) → k ≢ i → lane_column k table.new ≡ lane_column k table.old }
    ensures capped { IsCapped table.new }
{
    reach(&mut table[t as usize], i);
}

/// Sets one number of a lane to 0.
fn reach(lane: &mut [u32; LANES], i: usize)
    requires { i < LANES }
    ensures here { slice_index lane.new i ≡ 0 }
    ensures others { (k : ℕ) → k ≢ i → slice_index lane.new k ≡ slice_index lane.old k }
{
    lane[i] = 0;
}

/// Appends the column of each terminal as a row.
fn push_columns(
    alloc: Global,
    table: &[[u32; LANES]],
    terminals: &[u32],
    rows: &mut Vec<Vec<u32>>,
) -> Result<(), Memory>
    requires { length terminals.now ≤ LANES }
    ensures { OnOk result (AddsColumns table.now terminals.now rows.old.items rows.new.items) }
{
    let mut i = 0;
    let mut rest = terminals;
    while let [_terminal, after @ ..] = rest {
        rows.push(column(alloc, table, i)?)?;
        i += 1;
        rest = after;
    }
    Ok(())
}

/// Returns the column at an index.
fn column(alloc: Global, table: &[[u32; LANES]], i: usize) -> Result<Vec<u32>, Memory>
    requires { i < LANES }
    ensures { IfOk result (λ row. row.items ≡ lane_column i table.now) }
{
    let mut row = Vec::with_capacity(alloc, table.len())?;
    for lane in table {
        row.push(lane[i])?;
    }
    Ok(row)
}
