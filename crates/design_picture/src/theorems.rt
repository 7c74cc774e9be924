ghost use Rattle.design_picture.specs.ShownActs.{StrokesShowActs};

/// The strokes of a design show its acts: each needle, trim and stop once, and in order.
pub fn strokes_show_acts()
    ensures { StrokesShowActs }
{}
