ghost use Rattle.route_verdict.specs.VerdictTheorems.{CorrectRoutesAreAccepted, YesIsLeastRedwork};

use line_graph::{fitting_walks_are_sewable, fitting_walks_are_threads, pieces_are_valid};
use odd_cuts::{
    cut_faults_are_exact, packings_are_over_lines, packings_bound_walks, packings_prove_least,
    walk_faults_are_exact,
};

/// Theorem: a correct route over the pieces of a drawing is judged yes.
pub fn correct_routes_are_accepted()
    ensures { CorrectRoutesAreAccepted }
{
    walk_faults_are_exact();
    cut_faults_are_exact();
    packings_bound_walks();
    packings_prove_least();
    pieces_are_valid();
}

/// Theorem: a design and certificates are judged yes exactly where they are least redwork.
pub fn yes_is_least_redwork()
    ensures { YesIsLeastRedwork }
{
    fitting_walks_are_threads();
    fitting_walks_are_sewable();
    packings_are_over_lines();
    pieces_are_valid();
    correct_routes_are_accepted();
}
