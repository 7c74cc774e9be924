ghost use Rattle.sewing_edits.specs.Beans.{BeanKeepsOrder, BeanKeepsPoints};
ghost use Rattle.sewing_edits.specs.EmptyBlocks.{NeedledBlocksStay};
ghost use Rattle.sewing_edits.specs.Merges.{MergeKeepsEnds, MergeKeepsOrder, MergeLeavesNoShortStitch};
ghost use Rattle.sewing_edits.specs.Scales.{ScalesToNearest};

/// Theorem: no stitch or float that is kept is shorter than the limit but the last of a thread.
pub fn merge_leaves_no_short_stitch()
    ensures { MergeLeavesNoShortStitch }
{}

/// Theorem: the ends of threads, the trims and the stops stay, in order.
pub fn merge_keeps_ends()
    ensures { MergeKeepsEnds }
{}

/// Theorem: acts in order stay in order when near needles are left out.
pub fn merge_keeps_order()
    ensures { MergeKeepsOrder }
{}

/// Theorem: the needle goes through the same points of the cloth when stitches are sewn there and back.
pub fn bean_keeps_points()
    ensures { BeanKeepsPoints }
{}

/// Theorem: acts in order stay in order when their stitches are sewn there and back.
pub fn bean_keeps_order()
    ensures { BeanKeepsOrder }
{}

/// Theorem: each coordinate is scaled to the nearest, and keeps its sign.
pub fn scales_to_nearest()
    ensures { ScalesToNearest }
{}

/// Theorem: exactly the blocks that have a needle stay, if there is one.
pub fn needled_blocks_stay()
    ensures { NeedledBlocksStay }
{}
