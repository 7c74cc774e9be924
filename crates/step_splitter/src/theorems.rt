ghost use Rattle.step_splitter.specs.Chains.{SplitPointsLead};

/// Theorem: the ends of a segment's steps lead from its start to its end, by steps within the longest step.
pub fn split_points_lead()
    ensures { SplitPointsLead }
{}
