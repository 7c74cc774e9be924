ghost use Rattle.odd_cuts.specs.FaultTheorems.{CutFaultsAreExact, WalkFaultsAreExact};

/// A walk over a piece has no fault exactly where it fits the piece.
pub fn walk_faults_are_exact()
    ensures { WalkFaultsAreExact }
{}

/// Cuts of a piece have no fault exactly where they are a packing with the needed total weight.
pub fn cut_faults_are_exact()
    ensures { CutFaultsAreExact }
{}
