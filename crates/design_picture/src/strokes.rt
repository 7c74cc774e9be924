ghost use Rattle.design_model.specs.Acts.{acts_along, numbered};
ghost use Rattle.design_model.specs.Commands.{is_command_in_range};
ghost use Rattle.design_model.specs.declared.act.NumberedAct.{NumberedAct as NumberedActValue};
ghost use Rattle.design_model.specs.declared.design.TheConstants.{MAX_COMMANDS};
ghost use Rattle.design_picture.specs.Pens.{HasCounted, first_pen, pen_after};
ghost use Rattle.design_picture.specs.Strokes.{block_end, needle_added, needle_stroke, none_passed, pen_along, pen_of, passes_after, sewn_by, stop_stroke, stroke_of_act, strokes_from, strokes_of};
ghost use Rattle.std.specs.List.{list_all};
ghost use Rattle.std.specs.Prelude.{◌≡◌, ◌≤◌, ◌<◌, ◌+◌, ◌^◌, ◌∷◌, ◌++◌, ℕ, List, IfOk, IsTrue, OnOk, length};

use crate::pen::Pen;
use crate::sewn_stitches::SewnStitches;
use design_model::{Act, ActScanner, Command, Design, Items, Memory, Point};
use std::alloc::Global;

/// Where a block ends: at its last needle. Blocks count from 1, and the thread that was sewn is in
/// thousandths of a millimetre.
#[derive(Clone, Copy)]
pub struct BlockEnd {
    pub at: Point,
    pub block: u32,
    pub thread: u8,
    pub needles: u32,
    pub sewn: u128,
}

/// A needle where a piece begins. Pieces count from 1; the first of a block opens it.
#[derive(Clone, Copy)]
pub struct PieceStart {
    pub piece: u32,
    pub opens: bool,
    pub from: Point,
    pub at: Point,
}

/// A stitch, sewn a number of times before, with an arrow or none.
#[derive(Clone, Copy)]
pub struct SewnStitch {
    pub pass: u32,
    pub arrow: bool,
    pub from: Point,
    pub at: Point,
}

/// What a picture shows of an act.
#[derive(Clone, Copy)]
pub enum Stroke {
    /// A needle where a piece begins.
    Begin(PieceStart),
    /// A needle to which a jump carried the thread.
    Float { from: Point, at: Point },
    /// A stitch.
    Sewn(SewnStitch),
    /// A trim at the last needle.
    Trim { at: Point },
    /// A stop, and the thread of the next block.
    Stop { ended: BlockEnd, next: u8 },
}

/// Strokes, in the order of their acts.
pub type Strokes = Items<Stroke>;

/// Adds the strokes of a design, and returns the pen after its last act.
pub fn put_strokes(alloc: Global, strokes: &mut Strokes, design: &Design) -> Result<Pen, Memory>
    ensures strokes { OnOk result (strokes.new ≡ strokes.old ++ strokes_of design.now) }
    ensures pen { IfOk result (λ pen. pen ≡ pen_of design.now) }
    ensures counted { IfOk result (HasCounted MAX_COMMANDS) }
{
    put_along(alloc, strokes, design, design.commands())
}

/// Adds the strokes of commands from the first on, and returns the pen after them.
fn put_along(
    alloc: Global,
    strokes: &mut Strokes,
    design: &Design,
    commands: &[Command],
) -> Result<Pen, Memory>
    requires count { length commands.now ≤ MAX_COMMANDS }
    requires in_range { IsTrue (list_all is_command_in_range commands.now) }
    ensures strokes { OnOk result (strokes.new ≡ strokes.old
        ++ strokes_from design.now first_pen none_passed (acts_along commands.now)) }
    ensures pen { IfOk result (λ pen. pen ≡ pen_along first_pen (acts_along commands.now)) }
    ensures counted { IfOk result (HasCounted MAX_COMMANDS) }
{
    let mut sewn = SewnStitches::with_room(alloc, commands.len())?;
    let mut pen = Pen::new();
    let mut scanner = ActScanner::new();
    for command in commands {
        let Some(act) = scanner.next(*command) else {
            continue;
        };
        put_stroke(strokes, &mut sewn, design, pen, act.act)?;
        pen = pen.after(scanner.number - 1, act.act);
    }
    Ok(pen)
}

/// Adds the stroke of an act.
fn put_stroke(
    strokes: &mut Strokes,
    sewn: &mut SewnStitches,
    design: &Design,
    pen: Pen,
    act: Act,
) -> Result<(), Memory>
    requires pieces { pen.pieces + 1 < 2 ^ 32 }
    requires stops { pen.stops + 1 < 2 ^ 32 }
    ensures { OnOk result ((n : ℕ) (rest : List NumberedActValue) →
        strokes.new ++ strokes_from design.now (pen_after pen act) (sewn_by sewn.new) rest
        ≡ strokes.old ++ strokes_from design.now pen (sewn_by sewn.old) (numbered n act ∷ rest)) }
{
    let shown = shown(sewn, design, pen, act)?;
    strokes.push(shown)?;
    Ok(())
}

/// Returns what a picture shows of an act, and counts its stitch.
fn shown(sewn: &mut SewnStitches, design: &Design, pen: Pen, act: Act) -> Result<Stroke, Memory>
    requires pieces { pen.pieces + 1 < 2 ^ 32 }
    requires stops { pen.stops + 1 < 2 ^ 32 }
    ensures value { IfOk result (λ stroke. stroke
        ≡ stroke_of_act design.now pen (sewn_by sewn.old) act) }
    ensures sewn { OnOk result (sewn_by sewn.new ≡ passes_after pen (sewn_by sewn.old) act) }
{
    match act {
        Act::Needle { at, float } => needle(sewn, pen, float, at),
        Act::Trim => Ok(Stroke::Trim { at: pen.place }),
        Act::Stop => Ok(stop(design, pen)),
    }
}

fn needle(sewn: &mut SewnStitches, pen: Pen, float: bool, at: Point) -> Result<Stroke, Memory>
    requires pieces { pen.pieces + 1 < 2 ^ 32 }
    ensures value { IfOk result (λ stroke. stroke
        ≡ needle_stroke pen (sewn_by sewn.old) float at) }
    ensures sewn { OnOk result (sewn_by sewn.new ≡ needle_added pen (sewn_by sewn.old) float at) }
{
    let from = pen.place;
    if pen.loose {
        return Ok(Stroke::Begin(PieceStart {
            piece: pen.pieces + 1,
            opens: pen.needles == 0,
            from,
            at,
        }));
    }
    if float {
        return Ok(Stroke::Float { from, at });
    }
    let stitch = sewn.stitch(pen, at)?;
    Ok(Stroke::Sewn(stitch))
}

fn stop(design: &Design, pen: Pen) -> Stroke
    requires { pen.stops + 1 < 2 ^ 32 }
    ensures { result ≡ stop_stroke design.now pen }
{
    Stroke::Stop {
        ended: ended(design, pen),
        next: design.thread(pen.stops + 1),
    }
}

/// Returns the end of the block that a pen is in.
pub(crate) fn ended(design: &Design, pen: Pen) -> BlockEnd
    requires { pen.stops + 1 < 2 ^ 32 }
    ensures { result ≡ block_end design.now pen }
{
    BlockEnd {
        at: pen.place,
        block: pen.stops + 1,
        thread: design.thread(pen.stops),
        needles: pen.needles,
        sewn: pen.sewn,
    }
}
