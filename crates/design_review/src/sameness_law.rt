ghost use Rattle.design_review.specs.Sameness.{NoDifferenceIsSameness};

/// States that two designs have no difference of acts exactly where their acts are the same.
pub fn no_difference_is_sameness()
    ensures { NoDifferenceIsSameness }
{}
