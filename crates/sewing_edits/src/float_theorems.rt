ghost use Rattle.sewing_edits.specs.CarriedTrims.{CarryKeepsNeedles, CarryKeepsOrder, CarryLeavesNoNearTrim};
ghost use Rattle.sewing_edits.specs.FloatCuts.{CutKeepsNeedles, CutKeepsOrder, CutLeavesNoLongFloat};

/// Theorem: no float that is longer than the limit is left.
pub fn cut_leaves_no_long_float()
    ensures { CutLeavesNoLongFloat }
{}

/// Theorem: the needle points stay, in order, when long floats are cut.
pub fn cut_keeps_needles()
    ensures { CutKeepsNeedles }
{}

/// Theorem: acts in order stay in order when their long floats are cut.
pub fn cut_keeps_order()
    ensures { CutKeepsOrder }
{}

/// Theorem: no trim between needles within the limit is left.
pub fn carry_leaves_no_near_trim()
    ensures { CarryLeavesNoNearTrim }
{}

/// Theorem: the needle points stay, in order, when short trims are carried over.
pub fn carry_keeps_needles()
    ensures { CarryKeepsNeedles }
{}

/// Theorem: acts in order stay in order when their short trims are carried over.
pub fn carry_keeps_order()
    ensures { CarryKeepsOrder }
{}
