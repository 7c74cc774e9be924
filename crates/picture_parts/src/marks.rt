ghost use Rattle.picture_parts.specs.Marks.{mark_template, mark_text, shape_at};
ghost use Rattle.std.specs.Prelude.{◌≡◌, ◌++◌, OnOk};

use crate::parts::{Part, put};
use design_model::{Bytes, Memory, Point};

/// A mark of a picture.
#[derive(Clone, Copy)]
pub enum Mark {
    /// The triangle left of the first needle of a block.
    Start,
    /// The square right of the last needle of a block.
    End,
    /// The bars of a stop, right of the square.
    Stop,
    /// The cross of a trim, below the last needle.
    Trim,
    /// The dot of an even junction.
    Even,
    /// The dot of an odd junction, which is larger and of another colour.
    Odd,
    /// The ring of a loose end.
    Loose,
}

/// Appends a mark at a point.
#[tactic(auto, unfolding(crate::specs::Marks::mark_text))]
pub fn put_mark(text: &mut Bytes, mark: Mark, at: Point) -> Result<(), Memory>
    ensures { OnOk result (text.new ≡ text.old ++ mark_text mark at) }
{
    put_shape(text, template_of(mark), at)
}

#[tactic(auto, unfolding(crate::specs::Marks::shape_at))]
fn put_shape(text: &mut Bytes, template: &[u8], at: Point) -> Result<(), Memory>
    ensures { OnOk result (text.new ≡ text.old ++ shape_at template.now at) }
{
    put(text, template, &[Part::At(at)])
}

fn template_of(mark: Mark) -> &'static [u8]
    ensures { result.now ≡ mark_template mark }
{
    match mark {
        Mark::Start => b"<path class='start' d='M@m-23,-9l18,9l-18,9z'/>\n",
        Mark::End => b"<path class='end' d='M@m6,-7h14v14h-14z'/>\n",
        Mark::Stop => b"<path class='stop' d='M@m25,-7h4v14h-4zm8,0h4v14h-4z'/>\n",
        Mark::Trim => b"<path class='trim' d='M@m-6,8l12,12m-12,0l12,-12'/>\n",
        Mark::Even => b"<path fill='#222' d='M@m-5,0a5,5,0,1,0,10,0a5,5,0,1,0,-10,0'/>\n",
        Mark::Odd =>
            b"<path fill='#ffd400' stroke='#222' stroke-width='2' d='M@m-9,0a9,9,0,1,0,18,0a9,9,0,1,0,-18,0'/>\n",
        Mark::Loose =>
            b"<path fill='none' stroke='#d00' stroke-width='3' d='M@m-15,0a15,15,0,1,0,30,0a15,15,0,1,0,-30,0'/>\n",
    }
}
