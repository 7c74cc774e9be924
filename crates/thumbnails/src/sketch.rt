ghost use Rattle.design_model.specs.Acts.{acts_along};
ghost use Rattle.design_model.specs.Commands.{is_command_in_range};
ghost use Rattle.design_model.specs.declared.design.TheConstants.{MAX_COMMANDS};
ghost use Rattle.std.specs.List.{list_all};
ghost use Rattle.std.specs.Prelude.{◌≡◌, ◌++◌, ◌≤◌, ◌<◌, ◌^◌, IfOk, IsTrue, OnOk, length};
ghost use Rattle.thumbnails.specs.LitPoints.{no_points};
ghost use Rattle.thumbnails.specs.Sketches.{block_ended, bytes_of_sketch, drawn_thumbnails_of, line_start, nothing_sketched, sketch_by, sketched_after, sketched_along, with_needle};

use crate::lit_points::{LitPoints, ThumbPoint};
use crate::packing::put_thumbnail;
use crate::scaling::{View, point_in, view_in};
use design_model::{Act, ActScanner, Bytes, Command, Design, Memory, extent};
use std::alloc::Global;

/// What is drawn so far: the points of the design and of the block, the last needle, whether the thread is loose, and the
/// bytes of the blocks that are done.
#[derive(Drop)]
pub struct Sketch {
    pub whole: LitPoints,
    pub block: LitPoints,
    pub place: ThumbPoint,
    pub loose: bool,
    pub done: Bytes,
}

/// Returns the thumbnails of a design in bytes: of the entire design, then of each block.
pub fn drawn_thumbnails(alloc: Global, design: &Design) -> Result<Bytes, Memory>
    ensures { IfOk result (λ bytes. bytes ≡ drawn_thumbnails_of design.now) }
{
    let sketch = sketch_along(alloc, view_in(extent(design)), design.commands())?;
    bytes_in(alloc, &sketch)
}

/// Returns the bytes of what is drawn.
fn bytes_in(alloc: Global, sketch: &Sketch) -> Result<Bytes, Memory>
    ensures { IfOk result (λ bytes. bytes ≡ bytes_of_sketch (sketch_by sketch.now)) }
{
    let mut bytes = Bytes::new(alloc);
    put_thumbnail(&mut bytes, &sketch.whole)?;
    bytes.append(sketch.done.as_slice())?;
    put_thumbnail(&mut bytes, &sketch.block)?;
    Ok(bytes)
}

/// Draws commands from the first on.
fn sketch_along(alloc: Global, view: View, commands: &[Command]) -> Result<Sketch, Memory>
    requires some { 1 ≤ view.full }
    requires left { view.left < 2 ^ 32 }
    requires above { view.above < 2 ^ 32 }
    requires count { length commands.now ≤ MAX_COMMANDS }
    requires in_range { IsTrue (list_all is_command_in_range commands.now) }
    ensures { IfOk result (λ sketch. sketch_by sketch
        ≡ sketched_along view nothing_sketched (acts_along commands.now)) }
{
    let mut sketch = Sketch::new(alloc)?;
    let mut scanner = ActScanner::new();
    for command in commands {
        let Some(act) = scanner.next(*command) else {
            continue;
        };
        sketch.draw(alloc, view, act.act)?;
    }
    Ok(sketch)
}

impl Sketch {
    fn new(alloc: Global) -> Result<Sketch, Memory>
        ensures { IfOk result (λ sketch. sketch_by sketch ≡ nothing_sketched) }
    {
        Ok(Sketch {
            whole: LitPoints::new(alloc)?,
            block: LitPoints::new(alloc)?,
            place: ThumbPoint { column: 0, row: 0 },
            loose: true,
            done: Bytes::new(alloc),
        })
    }

    /// Draws an act.
    fn draw(&mut self, alloc: Global, view: View, act: Act) -> Result<(), Memory>
        requires some { 1 ≤ view.full }
        requires left { view.left < 2 ^ 32 }
        requires above { view.above < 2 ^ 32 }
        ensures { OnOk result (sketch_by self.new ≡ sketched_after view (sketch_by self.old) act) }
    {
        match act {
            Act::Needle { at, float } => {
                let to = point_in(view, at);
                let from = self.start(float, to);
                self.needle(from, to);
                Ok(())
            }
            Act::Trim => {
                self.loose = true;
                Ok(())
            }
            Act::Stop => self.stop(alloc),
        }
    }

    fn start(&self, float: bool, to: ThumbPoint) -> ThumbPoint
        ensures { result ≡ line_start (sketch_by self.now) float to }
    {
        if self.loose || float {
            return to;
        }
        self.place
    }

    fn needle(&mut self, from: ThumbPoint, to: ThumbPoint)
        ensures { sketch_by self.new ≡ with_needle (sketch_by self.old) from to }
    {
        self.whole.light_line(from, to);
        self.block.light_line(from, to);
        self.place = to;
        self.loose = false;
    }

    /// Ends a block.
    fn stop(&mut self, alloc: Global) -> Result<(), Memory>
        ensures { OnOk result (sketch_by self.new ≡ block_ended (sketch_by self.old)) }
    {
        put_thumbnail(&mut self.done, &self.block)?;
        self.block = LitPoints::new(alloc)?;
        self.loose = true;
        Ok(())
    }
}
