ghost use Rattle.design_model.specs.Acts.{acts_without_numbers};
ghost use Rattle.design_rewrites.specs.WrittenActs.{AreActsInRange};
ghost use Rattle.std.specs.Prelude.{◌≡◌};
ghost use Rattle.step_splitter.specs.Chains.{IsNeedlePoint};
ghost use Rattle.design_rewrites.specs.Threads.{is_thread_end, next_needle};

use design_model::{Act, NumberedAct, Point};

/// Returns the needle point that follows, if the next act is a needle act; else `p`.
pub fn next_needle(p: Point, later: &[NumberedAct]) -> Point
    requires p { IsNeedlePoint p }
    requires later { AreActsInRange later.now }
    ensures value { result ≡ next_needle p (acts_without_numbers later.now) }
    ensures in_range { IsNeedlePoint result }
{
    match later {
        [next, ..] => next.act.place_after(p),
        [] => p,
    }
}

/// Returns whether the thread ends before the acts.
pub fn is_thread_end(later: &[NumberedAct]) -> bool
    ensures { result ≡ is_thread_end (acts_without_numbers later.now) }
{
    match later {
        [next, ..] => next.act.is_loose_after(),
        [] => true,
    }
}
