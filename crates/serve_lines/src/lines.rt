ghost use Rattle.std.specs.Prelude.{◌≡◌, ◌≤◌, ◌++◌, ℕ, OnOk, OnErr, length, map, take, ◌∷◌, [], codes, decimal};
ghost use Rattle.serve_lines.specs.Lines.{line_of, fault_line, alarm_line, out_line, done_line, reply_line, refused_line, reloaded_line, state_line, count_line, row_line, end_line};

use crate::faults::{place_path, place_stop};
use crate::outputs::place_out;
use crate::placing::{is_short, open_line, place_change, place_done};
use alarm_machine::{Change, Code, OrderFault};
use itoa::Buffer;
use plant_types::{Trap, Value};
use std::alloc::AllocError;

/// Appends the name and the fields of a line, each after a space, and LF. Where memory is refused a part of them may be appended.
// Inlined into each kind of line, so that the compiler knows how many fields there are and unrolls the loop.
#[inline(always)]
fn add_words(out: &mut Vec<u8>, name: &str, fields: &[&str]) -> Result<(), AllocError>
    ensures ok { OnOk result
        (out.new.items ≡ out.old.items ++ line_of name.now (map (λ f. f.now) fields.now)) }
    ensures err { OnErr result (take (length out.old.items) out.new.items ≡ out.old.items) }
{
    out.extend_from_slice(name.as_bytes())?;
    for field in fields {
        out.push(b' ')?;
        out.extend_from_slice(field.as_bytes())?;
    }
    out.push(b'\n')?;
    Ok(())
}

/// Appends a line: its name, each field after a space, LF. Where memory is refused the text is unchanged.
#[inline(always)]
fn push_line(out: &mut Vec<u8>, name: &str, fields: &[&str]) -> Result<(), AllocError>
    ensures ok { OnOk result
        (out.new.items ≡ out.old.items ++ line_of name.now (map (λ f. f.now) fields.now)) }
    ensures err { OnErr result (out.new.items ≡ out.old.items) }
{
    let start = out.len();
    match add_words(out, name, fields) {
        Ok(()) => Ok(()),
        Err(error) => {
            out.truncate(start);
            Err(error)
        }
    }
}

/// Appends the line of this name with one field.
fn push_one(out: &mut Vec<u8>, name: &str, field: &str) -> Result<(), AllocError>
    ensures ok { OnOk result (out.new.items ≡ out.old.items ++ line_of name.now (field.now ∷ [])) }
    ensures err { OnErr result (out.new.items ≡ out.old.items) }
{
    push_line(out, name, &[field])
}

/// Appends the line of this name with three fields.
fn push_three<'a>(
    out: &mut Vec<u8>,
    name: &str,
    first: &'a str,
    second: &'a str,
    third: &'a str,
) -> Result<(), AllocError>
    ensures ok { OnOk result
        (out.new.items ≡ out.old.items ++ line_of name.now (first.now ∷ second.now ∷ third.now ∷ [])) }
    ensures err { OnErr result (out.new.items ≡ out.old.items) }
{
    push_line(out, name, &[first, second, third])
}

/// Appends the line of this name with four fields.
fn push_four<'a>(
    out: &mut Vec<u8>,
    name: &str,
    first: &'a str,
    second: &'a str,
    third: &'a str,
    fourth: &'a str,
) -> Result<(), AllocError>
    ensures ok { OnOk result
        (out.new.items
        ≡ out.old.items ++ line_of name.now (first.now ∷ second.now ∷ third.now ∷ fourth.now ∷ [])) }
    ensures err { OnErr result (out.new.items ≡ out.old.items) }
{
    push_line(out, name, &[first, second, third, fourth])
}

/// Appends a FAULT line field by field. Where memory is refused the text is unchanged.
#[tactic(auto, unfolding(crate::specs::Lines::fault_line))]
fn push_long_fault(
    out: &mut Vec<u8>,
    moment: &str,
    path: &str,
    statement: u32,
    trap: Trap,
) -> Result<(), AllocError>
    ensures ok { (t : ℕ) → moment.now ≡ decimal t
        → OnOk result (out.new.items ≡ out.old.items ++ fault_line t path.now statement trap) }
    ensures err { OnErr result (out.new.items ≡ out.old.items) }
{
    let mut number = Buffer::new();
    let statement = number.format(statement);
    push_four(out, "FAULT", moment, path, statement, trap.text())
}

/// Appends `FAULT MOMENT PATH STATEMENT KIND`: a program stopped at this statement of the body with this path. The moment is given by its
/// digits. Where memory is refused the text is unchanged.
#[tactic(auto, unfolding(crate::specs::Lines::fault_line))]
pub fn push_fault(
    out: &mut Vec<u8>,
    moment: &str,
    path: &str,
    statement: u32,
    trap: Trap,
) -> Result<(), AllocError>
    ensures ok { (t : ℕ) → moment.now ≡ decimal t
        → OnOk result (out.new.items ≡ out.old.items ++ fault_line t path.now statement trap) }
    ensures err { OnErr result (out.new.items ≡ out.old.items) }
{
    let (digits, letters) = (moment.as_bytes(), path.as_bytes());
    if !is_short(digits, letters) {
        return push_long_fault(out, moment, path, statement, trap);
    }
    let start = out.len();
    open_line(out)?;
    let named = place_path(out.as_mut_slice(), start, digits, letters);
    let end = place_stop(out.as_mut_slice(), named, statement, trap);
    out.truncate(end);
    Ok(())
}

/// Appends `ALARM MOMENT TAG FROM TO`: this alarm's code changed. The moment is given by its digits. Where memory is refused the text is
/// unchanged.
#[tactic(auto, unfolding(crate::specs::Lines::alarm_line))]
pub fn push_alarm(
    out: &mut Vec<u8>,
    moment: &str,
    tag: &str,
    change: Change,
) -> Result<(), AllocError>
    ensures ok { (t : ℕ) → moment.now ≡ decimal t
        → OnOk result (out.new.items ≡ out.old.items ++ alarm_line t tag.now change) }
    ensures err { OnErr result (out.new.items ≡ out.old.items) }
{
    let (from, to) = (change.from(), change.to());
    let (digits, letters) = (moment.as_bytes(), tag.as_bytes());
    if !is_short(digits, letters) {
        return push_four(out, "ALARM", moment, tag, from.text(), to.text());
    }
    let start = out.len();
    open_line(out)?;
    let end = place_change(out.as_mut_slice(), start, digits, letters, from, to);
    out.truncate(end);
    Ok(())
}

/// Appends an OUT line field by field. Where memory is refused the text is unchanged.
#[tactic(auto, unfolding(crate::specs::Lines::out_line))]
fn push_long_out(
    out: &mut Vec<u8>,
    moment: &str,
    name: &str,
    value: Value,
) -> Result<(), AllocError>
    ensures ok { (t : ℕ) → moment.now ≡ decimal t
        → OnOk result (out.new.items ≡ out.old.items ++ out_line t name.now value) }
    ensures err { OnErr result (out.new.items ≡ out.old.items) }
{
    let mut shown = Buffer::new();
    match value {
        Value::Bool(true) => push_three(out, "OUT", moment, name, "TRUE"),
        Value::Bool(false) => push_three(out, "OUT", moment, name, "FALSE"),
        Value::Dint(number) => push_three(out, "OUT", moment, name, shown.format(number)),
        Value::Time(number) => push_three(out, "OUT", moment, name, shown.format(number)),
    }
}

/// Appends `OUT MOMENT NAME VALUE`: this output's value changed. The moment is given by its digits. Where memory is refused the text is
/// unchanged.
#[inline(never)]
#[tactic(auto, unfolding(crate::specs::Lines::out_line))]
pub fn push_out(out: &mut Vec<u8>, moment: &str, name: &str, value: Value) -> Result<(), AllocError>
    ensures ok { (t : ℕ) → moment.now ≡ decimal t
        → OnOk result (out.new.items ≡ out.old.items ++ out_line t name.now value) }
    ensures err { OnErr result (out.new.items ≡ out.old.items) }
{
    let (digits, letters) = (moment.as_bytes(), name.as_bytes());
    if !is_short(digits, letters) {
        return push_long_out(out, moment, name, value);
    }
    let start = out.len();
    open_line(out)?;
    let end = place_out(out.as_mut_slice(), start, digits, letters, value);
    out.truncate(end);
    Ok(())
}

/// Appends `DONE MOMENT LINES`: the end of a scan's answer, with the number of lines before it. The moment is given by its digits. Where memory
/// is refused the text is unchanged.
#[tactic(auto, unfolding(crate::specs::Lines::done_line))]
pub fn push_done(out: &mut Vec<u8>, moment: &str, lines: u64) -> Result<(), AllocError>
    ensures ok { (t : ℕ) → moment.now ≡ decimal t
        → OnOk result (out.new.items ≡ out.old.items ++ done_line t lines) }
    ensures err { OnErr result (out.new.items ≡ out.old.items) }
{
    let mut count = Buffer::new();
    let lines = count.format(lines);
    let (digits, counted) = (moment.as_bytes(), lines.as_bytes());
    if !is_short(digits, counted) {
        return push_line(out, "DONE", &[moment, lines]);
    }
    let start = out.len();
    open_line(out)?;
    let end = place_done(out.as_mut_slice(), start, digits, counted);
    out.truncate(end);
    Ok(())
}

/// The line with the reply to an order, as `REPLY OK`.
#[tactic(auto, unfolding(crate::specs::Lines::reply_line))]
fn reply_line(refused: Option<OrderFault>) -> &'static [u8]
    ensures { result.now ≡ reply_line refused }
{
    match refused {
        None => b"REPLY OK\n",
        Some(OrderFault::UnknownTarget) => b"REPLY O1\n",
        Some(OrderFault::NotYourArea) => b"REPLY O2\n",
        Some(OrderFault::WrongState) => b"REPLY O3\n",
        Some(OrderFault::ShelveTime) => b"REPLY O4\n",
        Some(OrderFault::NotFaulted) => b"REPLY O5\n",
        Some(OrderFault::OldPlant) => b"REPLY O6\n",
    }
}

/// Appends `REPLY OK`, or `REPLY` and the number of the order's refusal. Where memory is refused the text is unchanged.
pub fn push_reply(out: &mut Vec<u8>, refused: Option<OrderFault>) -> Result<(), AllocError>
    ensures ok { OnOk result (out.new.items ≡ out.old.items ++ reply_line refused) }
    ensures err { OnErr result (out.new.items ≡ out.old.items) }
{
    out.extend_from_slice(reply_line(refused))
}

/// Appends `REFUSED` and the number of the refusal of a line or an event. Where memory is refused the text is unchanged.
#[tactic(auto, unfolding(crate::specs::Lines::refused_line))]
pub fn push_refused(out: &mut Vec<u8>, number: &str) -> Result<(), AllocError>
    ensures ok { OnOk result (out.new.items ≡ out.old.items ++ refused_line number.now) }
    ensures err { OnErr result (out.new.items ≡ out.old.items) }
{
    push_one(out, "REFUSED", number)
}

/// Appends `STATE TAG CODE PRIORITY`: an alarm that isn't normal. Where memory is refused the text is unchanged.
#[tactic(auto, unfolding(crate::specs::Lines::state_line))]
pub fn push_state(out: &mut Vec<u8>, tag: &str, code: Code, priority: u32) -> Result<(), AllocError>
    ensures ok { OnOk result (out.new.items ≡ out.old.items ++ state_line tag.now code priority) }
    ensures err { OnErr result (out.new.items ≡ out.old.items) }
{
    let mut digits = Buffer::new();
    push_three(out, "STATE", tag, code.text(), digits.format(priority))
}

/// Appends `COUNT AREA PRIORITY CODE N`: how many alarms of this area and this priority have this code. Where memory is refused the text is
/// unchanged.
#[tactic(auto, unfolding(crate::specs::Lines::count_line))]
pub fn push_count(
    out: &mut Vec<u8>,
    area: &str,
    priority: u32,
    code: Code,
    count: u32,
) -> Result<(), AllocError>
    ensures ok { OnOk result (out.new.items ≡ out.old.items ++ count_line area.now priority code count) }
    ensures err { OnErr result (out.new.items ≡ out.old.items) }
{
    let mut digits = Buffer::new();
    let priority = digits.format(priority);
    let mut number = Buffer::new();
    push_four(
        out,
        "COUNT",
        area,
        priority,
        code.text(),
        number.format(count),
    )
}

/// Appends `RELOADED KEPT k NEW n`: how many alarms of a new plant keep their states, and how many are new. Where memory is refused the text is unchanged.
#[tactic(auto, unfolding(crate::specs::Lines::reloaded_line))]
pub fn push_reloaded(out: &mut Vec<u8>, kept: u32, fresh: u32) -> Result<(), AllocError>
    ensures ok { OnOk result (out.new.items ≡ out.old.items ++ reloaded_line kept fresh) }
    ensures err { OnErr result (out.new.items ≡ out.old.items) }
{
    let mut digits = Buffer::new();
    let kept = digits.format(kept);
    let mut number = Buffer::new();
    push_four(out, "RELOADED", "KEPT", kept, "NEW", number.format(fresh))
}

/// Appends a row of the journal, of which this is the text, and LF. Where memory is refused the text is unchanged.
pub fn push_row(out: &mut Vec<u8>, text: &str) -> Result<(), AllocError>
    ensures ok { OnOk result (out.new.items ≡ out.old.items ++ row_line text.now) }
    ensures err { OnErr result (out.new.items ≡ out.old.items) }
{
    push_line(out, text, &[])
}

/// Appends `END LINES`: the end of a list or a journal, with the number of lines before it. Where memory is refused the text is unchanged.
#[tactic(auto, unfolding(crate::specs::Lines::end_line))]
pub fn push_end(out: &mut Vec<u8>, lines: u64) -> Result<(), AllocError>
    ensures ok { OnOk result (out.new.items ≡ out.old.items ++ end_line lines) }
    ensures err { OnErr result (out.new.items ≡ out.old.items) }
{
    let mut digits = Buffer::new();
    push_one(out, "END", digits.format(lines))
}
