//! Theorems about edited drawings: what a certificate of a drawing shows of the edited one.
#![tactic(auto)]

mod cost_laws;
mod move_laws;
mod shift_laws;

pub use cost_laws::{mirrorings_keep_costs, turns_keep_costs};
pub use move_laws::moves_are_exact;
pub use shift_laws::{shifts_keep_least_redwork, shifts_keep_yes, shifts_move_needles};
