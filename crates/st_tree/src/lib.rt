//! The syntax tree of a body of Structured Text, over any type of variable, and its meaning.
//!
//! The parser's tree has names as variables, the tree that runs has numbers of cells. Contracts speak of a tree's plain form,
//! on which its meaning is defined: `view_expr` and `view_body` take a tree to it.
//! In contracts, a tree over `Text` is one over lists of bytes.
//!
//! Layer st_: it must not know cells, code, alarms or files.
#![tactic(auto)]

mod constants;
mod controls;
mod copy;
mod kinds;
mod labels;
mod laws;
mod map;
mod operators;
mod pass;
mod rules;
mod tree;

pub use constants::constant;
pub use controls::{Span, count_turns, span_of};
pub use copy::{Duplicate, copy_body, copy_expr, copy_labels};
pub use kinds::{
    binary_kind, binary_result, is_bit, resolved_binary, resolved_unary, unary_kind, unary_result,
};
pub use labels::labels_fit;
pub use laws::{
    constant_of_is_value_of, control_values_count_to_bound, control_values_stay_in_range,
    kind_of_expr_is_kind_in, operators_stay_in_range, renamed_body_does_same, run_stays_in_range,
    value_stays_in_range,
};
pub use operators::{eval_binary, eval_unary};
pub use pass::{Pass, map_body, map_expr};
pub use rules::{Rule, every};
pub use tree::{Argument, Binary, Branch, Choice, Expr, Label, Literal, Stmt, Unary};
