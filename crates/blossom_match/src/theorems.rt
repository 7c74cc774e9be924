ghost use Rattle.blossom_match.specs.LeastMatchings.{NoneCostsLess};

/// No perfect matching costs less than one whose moats use up twice its cost. Each moat holds an odd number
/// of places, so some pair crosses it.
pub fn none_costs_less()
    ensures { NoneCostsLess }
{}
