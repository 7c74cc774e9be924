ghost use Rattle.design_commands.specs.PlaceTexts.{design_place_lines, design_place_text};
ghost use Rattle.std.specs.Prelude.{◌≡◌, ◌++◌, ◌∷◌, [], IfOk, OnOk, codes, decimal, string_bytes};

use design_model::{Bytes, Memory};
use design_review::DesignPlace;
use std::alloc::Global;

/// Appends a line for each place.
pub fn put_places(alloc: Global, text: &mut Bytes, places: &[DesignPlace]) -> Result<(), Memory>
    ensures { OnOk result (text.new ≡ text.old ++ design_place_lines places.now) }
{
    let mut rest = places;
    while let [place, after @ ..] = rest {
        put_place(alloc, text, *place)?;
        rest = after;
    }
    Ok(())
}

fn put_place(alloc: Global, text: &mut Bytes, place: DesignPlace) -> Result<(), Memory>
    ensures { OnOk result (text.new ≡ text.old ++ (design_place_text place ++ 10 ∷ [])) }
{
    let line = describe_place(alloc, place)?;
    text.append(line.as_bytes())?;
    text.append(b"\n")?;
    Ok(())
}

/// Returns the text about a place.
pub fn describe_place(alloc: Global, place: DesignPlace) -> Result<String, Memory>
    ensures { IfOk result (λ text. string_bytes text ≡ design_place_text place) }
{
    match place {
        DesignPlace::NoNeedle => Ok(format!(in alloc; "no needle at all")?),
        DesignPlace::Stitch { command, length } => describe_stitch(alloc, command, length),
        DesignPlace::Float { command, length } => describe_float(alloc, command, length),
        DesignPlace::Hole { command, needles } => describe_hole(alloc, command, needles),
        DesignPlace::UntiedStart { piece } => {
            Ok(format!(in alloc; "piece {piece}: not tied at its start")?)
        }
        DesignPlace::UntiedEnd { piece } => {
            Ok(format!(in alloc; "piece {piece}: not tied at its end")?)
        }
        DesignPlace::EmptyBlock { block } => Ok(format!(in alloc; "block {block}: no needle")?),
        DesignPlace::FrameMove { stop, length } => describe_move(alloc, stop, length),
    }
}

fn describe_stitch(alloc: Global, command: u32, length: u64) -> Result<String, Memory>
    ensures { IfOk result (λ text. string_bytes text
        ≡ codes "command " ++ (decimal command ++ (codes ": stitch of " ++ decimal length))) }
{
    Ok(format!(in alloc; "command {command}: stitch of {length}")?)
}

fn describe_float(alloc: Global, command: u32, length: u64) -> Result<String, Memory>
    ensures { IfOk result (λ text. string_bytes text ≡ codes "command " ++ (decimal command
        ++ (codes ": float of " ++ (decimal length ++ codes " without a trim")))) }
{
    Ok(format!(in alloc; "command {command}: float of {length} without a trim")?)
}

fn describe_hole(alloc: Global, command: u32, needles: usize) -> Result<String, Memory>
    ensures { IfOk result (λ text. string_bytes text ≡ codes "command " ++ (decimal command
        ++ (codes ": " ++ (decimal needles ++ codes " needles in one hole")))) }
{
    Ok(format!(in alloc; "command {command}: {needles} needles in one hole")?)
}

fn describe_move(alloc: Global, stop: u32, length: u64) -> Result<String, Memory>
    ensures { IfOk result (λ text. string_bytes text
        ≡ codes "stop " ++ (decimal stop ++ (codes ": the frame moves by " ++ decimal length))) }
{
    Ok(format!(in alloc; "stop {stop}: the frame moves by {length}")?)
}
