ghost use Rattle.sewing_edits.specs.TieTheorems.{AllEndsAreTied, BareForgetsTie, BareKeepsOrder, PointsGetFewNeedles, TiesAreNearEnds, TiesKeepOrder, TiesLengthenNoStitch, TyingTwiceIsOnce};

/// Theorem: to tie a design again changes nothing.
pub fn tying_twice_is_once()
    ensures { TyingTwiceIsOnce }
{}

/// Theorem: to take ties away gives the same before and after tying.
pub fn bare_forgets_tie()
    ensures { BareForgetsTie }
{}

/// Theorem: a tied design has all ends of its threads tied.
pub fn all_ends_are_tied()
    ensures { AllEndsAreTied }
{}

/// Theorem: no point gets more than four needles by the ties of a thread.
pub fn points_get_few_needles()
    ensures { PointsGetFewNeedles }
{}

/// Theorem: the needles of ties are near the ends of their thread.
pub fn ties_are_near_ends()
    ensures { TiesAreNearEnds }
{}

/// Theorem: no stitch of a tie is longer than 1.2 mm.
pub fn ties_lengthen_no_stitch()
    ensures { TiesLengthenNoStitch }
{}

/// Theorem: acts in order stay in order when they are tied.
pub fn ties_keep_order()
    ensures { TiesKeepOrder }
{}

/// Theorem: acts in order stay in order when the ties of their threads are taken away.
pub fn bare_keeps_order()
    ensures { BareKeepsOrder }
{}
