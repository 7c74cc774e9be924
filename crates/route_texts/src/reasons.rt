ghost use Rattle.route_texts.specs.Reasons.{cut_fault_text, piece_fault_text, reason_text, retraced_text, walk_fault_text};
ghost use Rattle.std.specs.Prelude.{◌≡◌, IfOk, string_bytes};

use design_model::Memory;
use odd_cuts::{CutFault, WalkFault};
use route_verdict::Reason;
use std::alloc::Global;

/// Returns the text for a check that failed for that reason.
pub fn describe_reason(alloc: Global, why: Reason) -> Result<String, Memory>
    ensures { IfOk result (λ text. string_bytes text ≡ reason_text why) }
{
    match why {
        Reason::Pieces { found, drawn } => {
            let text = format!(in alloc;
                "no: certificate has {found} pieces, drawing has {drawn}"
            )?;
            Ok(text)
        }
        Reason::Walk { piece, fault } => describe_walk(alloc, piece, fault),
        Reason::Retraced { piece, said, found } => describe_retraced(alloc, piece, said, found),
        Reason::Cuts { piece, fault } => describe_cuts(alloc, piece, fault),
        Reason::Acts { number } => {
            let text = format!(in alloc; "no: act {number} differs")?;
            Ok(text)
        }
    }
}

fn describe_walk(alloc: Global, piece: u32, fault: WalkFault) -> Result<String, Memory>
    ensures { IfOk result (λ text. string_bytes text ≡ piece_fault_text piece (walk_fault_text fault)) }
{
    let what = walk_fault(alloc, fault)?;
    describe_piece(alloc, piece, what.as_str())
}

fn describe_cuts(alloc: Global, piece: u32, fault: CutFault) -> Result<String, Memory>
    ensures { IfOk result (λ text. string_bytes text ≡ piece_fault_text piece (cut_fault_text fault)) }
{
    let what = cut_fault(alloc, fault)?;
    describe_piece(alloc, piece, what.as_str())
}

fn describe_retraced(alloc: Global, piece: u32, said: u32, found: u64) -> Result<String, Memory>
    ensures { IfOk result (λ text. string_bytes text ≡ piece_fault_text piece (retraced_text said found)) }
{
    let what = retraced_costs(alloc, said, found)?;
    describe_piece(alloc, piece, what.as_str())
}

/// Returns a text about a piece, numbered from 1.
fn describe_piece(alloc: Global, piece: u32, what: &str) -> Result<String, Memory>
    ensures { IfOk result (λ text. string_bytes text ≡ piece_fault_text piece what.now) }
{
    Ok(format!(in alloc; "no: piece {piece}: {what}")?)
}

fn retraced_costs(alloc: Global, said: u32, found: u64) -> Result<String, Memory>
    ensures { IfOk result (λ text. string_bytes text ≡ retraced_text said found) }
{
    Ok(format!(in alloc; "retraced {said} said, {found} found")?)
}

fn walk_fault(alloc: Global, fault: WalkFault) -> Result<String, Memory>
    ensures { IfOk result (λ text. string_bytes text ≡ walk_fault_text fault) }
{
    match fault {
        WalkFault::Stranger { pass } => {
            let text = format!(in alloc; "pass {pass} is not a line of the piece")?;
            Ok(text)
        }
        WalkFault::Broken { pass } => {
            let text = format!(in alloc; "pass {pass} does not start where the one before ends")?;
            Ok(text)
        }
        WalkFault::WrongStart => copied(alloc, "walk does not begin at its start"),
        WalkFault::WrongEnd => copied(alloc, "walk does not end at its end"),
        WalkFault::Open => copied(alloc, "walk is not closed"),
        WalkFault::Missing { line } => {
            let text = format!(in alloc; "line {line} is not sewn")?;
            Ok(text)
        }
    }
}

fn copied(alloc: Global, what: &str) -> Result<String, Memory>
    ensures { IfOk result (λ text. string_bytes text ≡ what.now) }
{
    Ok(format!(in alloc; "{what}")?)
}

fn cut_fault(alloc: Global, fault: CutFault) -> Result<String, Memory>
    ensures { IfOk result (λ text. string_bytes text ≡ cut_fault_text fault) }
{
    match fault {
        CutFault::Stranger { cut, junction } => {
            let text = format!(in alloc; "cut {cut} names junction {junction}")?;
            Ok(text)
        }
        CutFault::EvenCut { cut, odd } => {
            let text = format!(in alloc; "cut {cut} holds {odd} odd junctions")?;
            Ok(text)
        }
        CutFault::Overload {
            line,
            load,
            allowed,
        } => {
            let text = format!(in alloc; "line {line} carries {load} halves, allowed {allowed}")?;
            Ok(text)
        }
        CutFault::Total { sum, needed } => {
            let text = format!(in alloc; "cuts give {sum} halves, needed {needed}")?;
            Ok(text)
        }
    }
}
