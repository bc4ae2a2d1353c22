//! How the entry of an event is laid by.

ghost use Rattle.std.specs.Prelude.{◌≡◌, [], ◌∷◌, ◌++◌, map, slice_set, IfOk, MatchResult};
ghost use Rattle.alarm_bank.specs.declared.event.BankEvent.TheVariants.{Scan};
ghost use Rattle.alarm_bank.specs.Moves.{put_all};
ghost use Rattle.engine.specs.Event.TheVariants.{Order, Reload};
ghost use Rattle.engine.specs.Engines.{Fits, FitsOrder, state_of};
ghost use Rattle.engine.specs.Lawful.{IsTaken};
ghost use Rattle.console_boards.specs.Readers.{published, log_kept};
ghost use Rattle.console_recorder.specs.Entries.{board_reply};
ghost use Rattle.console_recorder.specs.Showing.{HasHistory};

use alarm_bank::BankEvent;
use alarm_machine::Alarm;
use console_boards::{AnsweredOrder, BoardEntry, BoardWriter, OrderOutcome};
use engine::{Engine, Plant, Prepared, PreparedOrder, Reply, news_of};
use plant_types::Items;
use std::alloc::{AllocError, Global};

/// The condition and the suppression of each alarm.
fn flags_of(alloc: Global, alarms: &[Alarm]) -> Result<(Vec<bool>, Vec<bool>), AllocError>
    ensures conditions { IfOk result (λ flags. flags.0.items ≡ map (λ a. a.condition) alarms.now) }
    ensures suppressions { IfOk result (λ flags. flags.1.items ≡ map (λ a. a.suppressed) alarms.now) }
{
    let mut conds = Vec::with_capacity(alloc, alarms.len())?;
    let mut sups = Vec::with_capacity(alloc, alarms.len())?;
    for alarm in alarms {
        conds.push(alarm.condition())?;
        sups.push(alarm.suppressed())?;
    }
    Ok((conds, sups))
}

/// Puts a flag in the place of the one of a number. A number that isn't there changes nothing.
fn put_flag(flags: &mut Vec<bool>, number: u32, flag: bool)
    ensures { flags.new.items ≡ slice_set flags.old.items number flag }
{
    let at = number as usize;
    if at < flags.len() {
        flags[at] = flag;
    }
}

/// What a scan gives to alarms of which it moves some: the condition and the suppression that each has then.
fn given(
    alloc: Global,
    alarms: &[Alarm],
    moved: &[(u32, Alarm)],
    moment: u64,
) -> Result<BankEvent, AllocError>
    ensures { IfOk result (λ event. event
        ≡ Scan moment (map (λ a. a.condition) (put_all alarms.now moved.now))
        (map (λ a. a.suppressed) (put_all alarms.now moved.now))) }
{
    let (mut conds, mut sups) = flags_of(alloc, alarms)?;
    for (number, alarm) in moved {
        put_flag(&mut conds, *number, alarm.condition());
        put_flag(&mut sups, *number, alarm.suppressed());
    }
    Ok(BankEvent::Scan {
        moment,
        conds: Items::from_vec(conds),
        sups: Items::from_vec(sups),
    })
}

fn board_reply(reply: Reply) -> OrderOutcome
    ensures { result ≡ board_reply reply }
{
    match reply {
        Reply::Done(change) => Ok(change),
        Reply::Refused(fault) => Err(fault),
    }
}

/// Lays the entry by of a scan that was made ready. Fails if memory was refused, or where the board takes no entry more; then nothing is laid by.
pub fn lay_scan(
    alloc: Global,
    board: &mut BoardWriter,
    engine: &Engine,
    prepared: &Prepared,
) -> Result<(), AllocError>
    requires has { HasHistory engine.now.plant engine.now.history board.old }
    requires fits { Fits engine.now prepared.now }
    ensures same { (published board.new ≡ published board.old)
        × (log_kept board.new ≡ log_kept board.old) }
    ensures laid { MatchResult result
        (λ _. HasHistory engine.now.plant (engine.now.history ++ prepared.now.event ∷ []) board.new)
        (λ _. HasHistory engine.now.plant engine.now.history board.new) }
{
    engine.leaves_alarms(prepared);
    let scan = &*prepared.scan;
    let moved = scan.effect.listed.moves.moved.as_slice();
    let given = given(alloc, engine.alarms(), moved, scan.report.moment)?;
    board.lay(BoardEntry::Scan(given))
}

/// Lays the entry by of an order that was made ready. Fails if memory was refused, or where the board takes no entry more; then nothing is laid by.
pub fn lay_order(
    board: &mut BoardWriter,
    engine: &Engine,
    prepared: &PreparedOrder,
) -> Result<(), AllocError>
    requires has { HasHistory engine.now.plant engine.now.history board.old }
    requires fits { FitsOrder engine.now prepared.now }
    ensures same { (published board.new ≡ published board.old)
        × (log_kept board.new ≡ log_kept board.old) }
    ensures laid { MatchResult result
        (λ _. HasHistory engine.now.plant
        (engine.now.history ++ Order prepared.now.console prepared.now.order ∷ []) board.new)
        (λ _. HasHistory engine.now.plant engine.now.history board.new) }
{
    let answer = AnsweredOrder {
        order: prepared.order,
        reply: board_reply(prepared.reply),
    };
    board.lay(BoardEntry::Order(prepared.console, answer))
}

/// Lays the entry by of a reload that the engine would take. Fails if memory was refused, or where the board takes no entry more; then nothing is laid by.
pub fn lay_reload(
    alloc: Global,
    board: &mut BoardWriter,
    engine: &Engine,
    new: &Plant,
) -> Result<(), AllocError>
    requires has { HasHistory engine.now.plant engine.now.history board.old }
    requires taken { IsTaken (state_of engine.now) (Reload new.now) }
    ensures same { (published board.new ≡ published board.old)
        × (log_kept board.new ≡ log_kept board.old) }
    ensures laid { MatchResult result
        (λ _. HasHistory engine.now.plant (engine.now.history ++ Reload new.now ∷ []) board.new)
        (λ _. HasHistory engine.now.plant engine.now.history board.new) }
{
    let news = news_of(alloc, engine.plant(), new)?;
    board.lay(BoardEntry::Reload(Items::from_vec(news)))
}
