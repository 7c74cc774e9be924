ghost use Rattle.edit_laws.specs.CostLaws.{MirrorKeepsCosts, TurnKeepsCosts};

/// Theorem: a turn keeps the pieces of a drawing, the costs of its lines and walks, and its packings.
pub fn turns_keep_costs()
    ensures { TurnKeepsCosts }
{}

/// Theorem: a mirroring keeps the pieces of a drawing, the costs of its lines and walks, and its packings.
pub fn mirrorings_keep_costs()
    ensures { MirrorKeepsCosts }
{}
