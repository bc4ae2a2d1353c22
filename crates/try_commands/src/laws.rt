//! The laws as functions: each does nothing when it is called.

use alarm_machine::{
    code_changes_are_reported, codes_print_differently, new_condition_in_service_needs_ack,
    no_unsuppressed_scan_acknowledges, repeated_scan_changes_nothing,
};
use logic_cells::called_clock;
use logic_frames::{
    fitting_names_are_known, frames_agree, frames_begin, frames_have_paths, frames_have_standards,
    instances_have_numbers, typed_names_are_known, variables_have_numbers,
};
use logic_limits::block_type_counts;
use logic_source::{
    answered_by_rule, block_type_begins, block_type_has_clocks, block_type_has_values,
    block_type_runs, call_taken, calls_of_number, clock_stands, clocks_stand_once,
    instance_clocks_stand, instance_found, instance_values_stand, kinds_stand_at_all_values,
    member_stands, named_value_stands, order_is_of_source, program_clocks_stand,
    program_values_stand, typed_names_are_distinct, typed_types_are_there, value_of_number,
    value_written, values_stand_once,
};
use logic_walk::{frame_runs_its_body, seats_lie_apart};
use plant_config::{accepted_or_refused, one_plant, one_refusal};
use serve_runs::{out_text_is_one, requests_end};
use st_blocks::{one_nesting_fault, sound_or_not};
use st_lexer::{one_answer, one_cut, some_answer, word_spelling};
use st_parser::one_unit;
use st_sources::spelled_or_stopped;
use st_tree::{constant_of_is_value_of, control_values_count_to_bound, kind_of_expr_is_kind_in};
use st_typing::{one_type_fault, typed_or_not};
use vm_logic::{
    as_many_cells, assigned_global_stays_in_range, cell_of_global, each_found, found_global,
    global_is_in_range, opening_world_is_in_range, program_stays_in_range, sound_source_is_small,
    written_cell,
};

fn laws_of_alarms() {
    code_changes_are_reported();
    codes_print_differently();
    new_condition_in_service_needs_ack();
    no_unsuppressed_scan_acknowledges();
    repeated_scan_changes_nothing();
}

fn laws_of_sources() {
    one_answer();
    one_cut();
    some_answer();
    word_spelling();
    one_unit();
    kind_of_expr_is_kind_in();
    constant_of_is_value_of::<usize>();
    control_values_count_to_bound();
}

fn laws_of_plants() {
    spelled_or_stopped();
    st_sources::one_answer();
    sound_or_not();
    one_nesting_fault();
    typed_or_not();
    one_type_fault();
    one_plant();
    one_refusal();
    accepted_or_refused();
    requests_end();
    out_text_is_one();
}

fn laws_of_runs() {
    as_many_cells();
    cell_of_global();
    written_cell();
    found_global();
    each_found();
    sound_source_is_small();
    opening_world_is_in_range();
    program_stays_in_range();
    assigned_global_stays_in_range();
    global_is_in_range();
}

fn laws_of_logic() {
    answered_by_rule::<usize>();
    order_is_of_source();
    values_stand_once();
    clocks_stand_once();
    typed_names_are_distinct();
    typed_types_are_there();
    block_type_runs();
    block_type_begins();
    block_type_has_values();
    block_type_has_clocks();
    program_values_stand();
    instance_values_stand();
    program_clocks_stand();
    instance_clocks_stand();
    named_value_stands();
    value_of_number();
    value_written();
    calls_of_number();
    call_taken();
    member_stands();
    clock_stands();
    instance_found();
    kinds_stand_at_all_values();
    logic_source::opening_world_is_in_range();
    logic_source::program_stays_in_range();
    logic_source::assigned_global_stays_in_range();
    logic_source::global_is_in_range();
}

fn laws_of_frames() {
    block_type_counts();
    called_clock();
    frame_runs_its_body();
    seats_lie_apart();
    frames_agree();
    frames_begin();
    frames_have_paths();
    frames_have_standards();
    typed_names_are_known();
    fitting_names_are_known::<usize>();
    variables_have_numbers();
    instances_have_numbers();
}

/// Calls each law.
pub fn call_laws() {
    laws_of_alarms();
    laws_of_sources();
    laws_of_plants();
    laws_of_runs();
    laws_of_logic();
    laws_of_frames();
}
