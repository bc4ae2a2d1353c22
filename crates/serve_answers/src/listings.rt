//! The lines of the list of alarms and of the journal.

ghost use Rattle.std.specs.Prelude.{◌≡◌, ◌++◌, ◌<◌, ◌≤◌, length, OnOk, IfOk};
ghost use Rattle.std.specs.List.{flat_map};
ghost use Rattle.alarm_bank.specs.Counted.{Counted};
ghost use Rattle.engine.specs.Engines.{state_of};
ghost use Rattle.engine.specs.Journal.{journal_of};
ghost use Rattle.serve_answers.specs.Listings.{state_lines_of, code_lines, priority_lines, area_lines, HasListed, HasRow};

use alarm_bank::Summary;
use alarm_machine::Code;
use engine::{Engine, Plant};
use serve_lines::{push_count, push_row, push_state};
use std::alloc::{AllocError, Global};

/// Appends the STATE line of an alarm, none where it is normal, and returns how many lines that is.
#[tactic(auto, unfolding(crate::specs::Listings::state_lines_of))]
pub(crate) fn push_shown(text: &mut Vec<u8>, engine: &Engine, alarm: u32) -> Result<u64, AllocError>
    requires { alarm < length (state_of engine.now).plant.alarms }
    ensures listed { IfOk result (λ n. HasListed text.old.items text.new.items n
        (state_lines_of (state_of engine.now) alarm)) }
    ensures few { IfOk result (λ n. n ≤ 1) }
{
    let plant = engine.plant();
    let code = engine.state(alarm).code();
    if code.rank() == Code::Norm.rank() {
        return Ok(0);
    }
    push_state(text, plant.tag(alarm), code, plant.priority(alarm))?;
    Ok(1)
}

/// Appends the COUNT line of an area, a priority and a code, none where the count is 0, and returns how many lines that is.
#[tactic(auto, unfolding(crate::specs::Listings::code_lines))]
fn push_code(
    text: &mut Vec<u8>,
    plant: &Plant,
    summary: &Summary,
    area: u32,
    priority: u32,
    code: Code,
) -> Result<u64, AllocError>
    requires { area < length plant.now.areas }
    ensures listed { IfOk result (λ n. HasListed text.old.items text.new.items n
        (code_lines plant.now summary.now area priority code)) }
    ensures few { IfOk result (λ n. n ≤ 1) }
{
    let count = summary.count(area, priority, code);
    if count == 0 {
        return Ok(0);
    }
    push_count(text, plant.area(area), priority, code, count)?;
    Ok(1)
}

/// Appends the COUNT lines of an area and a priority for these codes, and returns how many there are.
#[tactic(auto, using(crate::proofs::ListingLaws::listed_none, crate::proofs::ListingLaws::listed_take))]
fn push_codes(
    text: &mut Vec<u8>,
    plant: &Plant,
    summary: &Summary,
    area: u32,
    priority: u32,
    codes: &[Code],
) -> Result<u64, AllocError>
    requires area { area < length plant.now.areas }
    requires few { length codes.now ≤ 9 }
    ensures listed { IfOk result (λ n. HasListed text.old.items text.new.items n
        (flat_map (code_lines plant.now summary.now area priority) codes.now)) }
    ensures few { IfOk result (λ n. n ≤ 9) }
{
    let mut lines: u64 = 0;
    for code in codes {
        lines += push_code(text, plant, summary, area, priority, *code)?;
    }
    Ok(lines)
}

/// Appends the COUNT lines of an area and a priority, and returns how many there are.
#[tactic(auto, unfolding(crate::specs::Listings::priority_lines))]
fn push_priority(
    text: &mut Vec<u8>,
    plant: &Plant,
    summary: &Summary,
    area: u32,
    priority: u32,
) -> Result<u64, AllocError>
    requires { area < length plant.now.areas }
    ensures listed { IfOk result (λ n. HasListed text.old.items text.new.items n
        (priority_lines plant.now summary.now area priority)) }
    ensures few { IfOk result (λ n. n ≤ 9) }
{
    let codes = [
        Code::Norm,
        Code::Unack,
        Code::Acked,
        Code::Rtnun,
        Code::Latun,
        Code::Latak,
        Code::Shelved,
        Code::Suppr,
        Code::Oos,
    ];
    push_codes(text, plant, summary, area, priority, &codes)
}

/// Appends the COUNT lines of an area for these priorities, and returns how many there are.
#[tactic(auto, using(crate::proofs::ListingLaws::listed_none, crate::proofs::ListingLaws::listed_take))]
fn push_priorities(
    text: &mut Vec<u8>,
    plant: &Plant,
    summary: &Summary,
    area: u32,
    priorities: &[u32],
) -> Result<u64, AllocError>
    requires area { area < length plant.now.areas }
    requires few { length priorities.now ≤ 4 }
    ensures listed { IfOk result (λ n. HasListed text.old.items text.new.items n
        (flat_map (priority_lines plant.now summary.now area) priorities.now)) }
    ensures few { IfOk result (λ n. n ≤ 36) }
{
    let mut lines: u64 = 0;
    for priority in priorities {
        lines += push_priority(text, plant, summary, area, *priority)?;
    }
    Ok(lines)
}

/// Appends the COUNT lines of an area, and returns how many there are.
#[tactic(auto, unfolding(crate::specs::Listings::area_lines))]
pub(crate) fn push_area(
    text: &mut Vec<u8>,
    plant: &Plant,
    summary: &Summary,
    area: u32,
) -> Result<u64, AllocError>
    requires { area < length plant.now.areas }
    ensures listed { IfOk result (λ n. HasListed text.old.items text.new.items n
        (area_lines plant.now summary.now area)) }
    ensures few { IfOk result (λ n. n ≤ 36) }
{
    push_priorities(text, plant, summary, area, &[1, 2, 3, 4])
}

/// How many rows the journal has.
pub(crate) fn row_total(engine: &Engine) -> u64
    ensures { result ≡ length (journal_of engine.now.plant engine.now.history) }
{
    engine.journal().len()
}

/// Appends the line of the journal's row of a number, from 1.
#[tactic(auto, using(crate::proofs::ListingLaws::row_there))]
pub(crate) fn push_numbered(
    alloc: Global,
    text: &mut Vec<u8>,
    engine: &Engine,
    number: u64,
) -> Result<(), AllocError>
    requires first { 1 ≤ number }
    requires last { number ≤ length (journal_of engine.now.plant engine.now.history) }
    ensures { OnOk result
        (HasRow engine.now.plant engine.now.history number text.old.items text.new.items) }
{
    let line = engine.line(alloc, number)?;
    push_row(text, line.as_str())
}
