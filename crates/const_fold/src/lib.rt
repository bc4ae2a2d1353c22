//! Constant folding of the bodies that run: an operator whose operands are literals becomes the literal of its result.
//!
//! Folding goes from the inside out, and changes expressions alone: statements keep their numbers, the choices of a CASE their labels, and
//! each name its place. An operator that traps, as `1 / 0` does, stays as it is. So does one that reads a variable anywhere in its
//! operands, be its result known without it: the variable's side may trap, as in `0 * (1 / x)`.
//!
//! Layer vm_: it must not know alarms, files or threads.
#![tactic(auto)]

mod fold;
mod laws;
mod literals;

pub use fold::fold_body;
pub use laws::{
    folded_body_costs_at_most, folded_body_does_same, folded_body_keeps_rules,
    folded_body_weighs_at_most, folded_constants_are_literals, folded_names_stay,
};
