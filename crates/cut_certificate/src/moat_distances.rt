ghost use Rattle.blossom_match.specs.declared.matching.Moat.{Moat as MoatValue};
ghost use Rattle.cut_certificate.specs.Levels.{lift_input};
ghost use Rattle.cut_certificate.specs.MoatDistances.{AreAllMoatDistances, HasRowsForMoats, HasProgress};
ghost use Rattle.std.specs.Prelude.{◌≡◌, ◌+◌, ◌%◌, ◌<◌, ◌≤◌, All, IfOk, OnOk, length};

use crate::single_moat::distances_of;
use crate::terminal_state::{TerminalState, surround};
use blossom_match::Moat;
use design_model::Memory;
use odd_paths::Rows;
use std::alloc::Global;

/// The states of the terminals, and the distances from the moats that were processed.
#[derive(Drop)]
struct LiftProgress {
    stands: Vec<TerminalState>,
    reaches: Vec<Vec<u32>>,
}

/// Returns the distances of all junctions from each moat, in the order of the moats.
pub fn reaches(
    alloc: Global,
    rows: &Rows,
    moats: &[Moat],
    size: usize,
) -> Result<Vec<Vec<u32>>, Memory>
    requires { HasRowsForMoats rows.now size moats.now }
    ensures { IfOk result (λ all. AreAllMoatDistances (lift_input rows.now size moats.now) all.items) }
{
    let stands = vec![in alloc; TerminalState::Free; rows.len()]?;
    let reaches = blank(alloc, moats.len())?;
    let mut progress = LiftProgress { stands, reaches };
    for half in 0..most_members(moats) / 2 + 1 {
        add_sized(alloc, rows, moats, size, 2 * half + 1, &mut progress)?;
    }
    let LiftProgress { reaches, .. } = progress;
    Ok(reaches)
}

/// Computes the distances from the moats with the given number of members.
fn add_sized(
    alloc: Global,
    rows: &Rows,
    moats: &[Moat],
    size: usize,
    members: usize,
    progress: &mut LiftProgress,
) -> Result<(), Memory>
    requires can { HasRowsForMoats rows.now size moats.now }
    requires odd { members % 2 ≡ 1 }
    requires progress { HasProgress rows.now size moats.now members 0 progress.old }
    ensures { OnOk result (HasProgress rows.now size moats.now (members + 2) 0 progress.new) }
{
    for index in 0..moats.len() {
        add(alloc, rows, moats, size, members, index, progress)?;
    }
    Ok(())
}

/// Computes the distances from a moat, if it has the given number of members.
fn add(
    alloc: Global,
    rows: &Rows,
    moats: &[Moat],
    size: usize,
    members: usize,
    index: usize,
    progress: &mut LiftProgress,
) -> Result<(), Memory>
    requires can { HasRowsForMoats rows.now size moats.now }
    requires there { index < length moats.now }
    requires progress { HasProgress rows.now size moats.now members index progress.old }
    ensures { OnOk result (HasProgress rows.now size moats.now members (index + 1) progress.new) }
{
    let s = &moats[index];
    if s.members.len() != members {
        return Ok(());
    }
    let stands = progress.stands.as_slice();
    let reach = distances_of(
        alloc,
        rows,
        moats,
        s,
        size,
        stands,
        progress.reaches.as_slice(),
    )?;
    progress.reaches[index] = reach;
    surround(&mut progress.stands, s.members.as_slice(), index);
    Ok(())
}

/// Returns a number of empty lists.
fn blank(alloc: Global, count: usize) -> Result<Vec<Vec<u32>>, Memory>
    ensures { IfOk result (λ reaches. length reaches.items ≡ count) }
{
    let mut reaches = Vec::with_capacity(alloc, count)?;
    for _index in 0..count {
        reaches.push(Vec::new(alloc))?;
    }
    Ok(reaches)
}

/// Returns the greatest number of members of a moat.
fn most_members(moats: &[Moat]) -> usize
    ensures { All (λ (m : MoatValue). length m.members ≤ result) moats.now }
{
    let mut most = 0;
    for m in moats {
        most = m.members.len().max(most);
    }
    most
}
