ghost use Rattle.design_rewrites.specs.OrderedActs.{ActsOfCommandsStay, DesignActsAreInOrder};

/// Theorem: the acts of a design are in order.
pub fn design_acts_are_in_order()
    ensures { DesignActsAreInOrder }
{}

/// Theorem: the commands of acts in order have these acts.
pub fn acts_of_commands_stay()
    ensures { ActsOfCommandsStay }
{}
