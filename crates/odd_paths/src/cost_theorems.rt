ghost use Rattle.odd_paths.specs.CostTheorems.{LeastCostsAreDistances};

/// The least costs between the junctions of a piece are a metric.
pub fn least_costs_are_distances()
    ensures { LeastCostsAreDistances }
{}
