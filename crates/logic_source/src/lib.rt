//! The logic of a plant by names: its globals, its programs and its block types, with the instances that each declares, and what they do.
//!
//! A routine is a program or a block type that a source declares. Its instances are of standard blocks (IEC 61131-3) or of block types,
//! which are known by number. What a routine does is defined in worlds: a value at the path of each variable, and at the path of each
//! standard block the list of its calls. Nothing here runs a routine.
//!
//! Layer logic_: it must not know instructions, alarms, files or threads.
#![tactic(auto)]

mod laws;
mod logic;
mod pous;
mod units;

pub use laws::{
    answered_by_rule, assigned_global_stays_in_range, block_type_begins, block_type_has_clocks,
    block_type_has_values, block_type_runs, call_taken, calls_of_number, carried_world_is_in_range,
    clock_stands, clocks_stand_once, global_is_in_range, instance_clocks_stand, instance_found,
    instance_values_stand, kinds_stand_at_all_values, member_stands, named_element_stands,
    named_value_stands, opening_world_is_in_range, order_is_of_source, program_clocks_stand,
    program_stays_in_range, program_values_stand, typed_names_are_distinct, typed_types_are_there,
    value_of_number, value_written, values_stand_once,
};
pub use logic::{BlockRef, Instance, Local, Logic, Routine, Row, Variable, row_cells};
pub use st_typing::{Mistyped, TypeFault, Typed, check, for_turns};
pub use units::logic_of;
