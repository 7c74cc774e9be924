ghost use Rattle.design_model.specs.ActKinds.{needle_point as the_needle_point};
ghost use Rattle.design_model.specs.declared.act.Act.TheVariants as act;
ghost use Rattle.std.specs.Prelude.{◌≡◌, Some};
ghost use Rattle.stitch_trace.specs.Links.{move_to_act};

use crate::links::Link;
use design_model::{Act, NumberedAct, Point};

/// The move of the needle from one act of a design to the next.
#[derive(Clone, Copy)]
pub enum NeedleMove {
    /// The needle goes down where it went down before.
    Stay,
    /// Nothing is sewn from there: the thread was loose or carried over, or the act is no needle act.
    Gap,
    /// A link is sewn. The number is that of the command of its second needle point, from 1.
    Sewn { number: u32, link: Link },
}

/// Returns the move of the needle to an act, from the needle point of the act before, if there is one.
pub fn move_to(before: Option<Point>, a: NumberedAct) -> NeedleMove
    ensures { result ≡ move_to_act before a.number a.act }
{
    let Some(from) = before else {
        return NeedleMove::Gap;
    };
    match a.act {
        Act::Needle { at, float } => move_between(from, at, float, a.number),
        Act::Trim | Act::Stop => NeedleMove::Gap,
    }
}

fn move_between(from: Point, to: Point, float: bool, number: u32) -> NeedleMove
    ensures { result ≡ move_to_act (Some from) number (act.Needle to float) }
{
    if from == to {
        return NeedleMove::Stay;
    }
    if float {
        return NeedleMove::Gap;
    }
    NeedleMove::Sewn {
        number,
        link: Link { from, to },
    }
}

/// Returns the needle point of an act, if it is a needle act.
pub fn needle_point(a: NumberedAct) -> Option<Point>
    ensures { result ≡ the_needle_point a }
{
    match a.act {
        Act::Needle { at, .. } => Some(at),
        Act::Trim | Act::Stop => None,
    }
}
