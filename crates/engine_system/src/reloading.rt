//! What a reload makes of what is kept of a system.

ghost use Rattle.std.specs.Prelude.{◌≡◌, ◌<◌, IfOk, length};
ghost use Rattle.alarm_bank.specs.Reloads.{bank_reloaded};
ghost use Rattle.alarm_delays.specs.Delays.{delays_reloaded};
ghost use Rattle.engine_history.specs.Plants.{IsPlant};
ghost use Rattle.engine_system.specs.Reloads.{kept_numbers, news_of};
ghost use Rattle.engine_system.specs.States.{bank_in};
ghost use Rattle.engine_system.specs.Steps.{IsReady, IsReadyReload};
ghost use Rattle.engine_system.specs.System.{delays_of};

use crate::event::MOST_EVENTS;
use crate::reloads::{fresh_count, kept_count, kept_of, news_of};
use crate::state::{State, state_with};
use crate::steps::delays_of;
use alarm_bank::{Bank, NewAlarm};
use alarm_delays::Delays;
use engine_history::Plant;
use level_scans::carry;
use std::alloc::{AllocError, Global};

/// A reload that was made ready: what it leaves of a state, and what it tells of the alarms.
#[derive(Drop)]
pub struct ReadyReload {
    /// What is kept after it.
    pub state: State,
    /// How many alarms go on.
    pub kept: u32,
    /// How many begin anew.
    pub fresh: u32,
}

impl ReadyReload {
    /// What is kept after it, how many alarms go on, and how many begin anew.
    pub fn into_parts(self) -> (State, u32, u32)
        ensures state { result.0 ≡ self.state }
        ensures kept { result.1 ≡ self.kept }
        ensures fresh { result.2 ≡ self.fresh }
    {
        let ReadyReload { state, kept, fresh } = self;
        (state, kept, fresh)
    }
}

/// The alarms of a new plant after those of a state.
fn bank_after(
    alloc: Global,
    plant: &Plant,
    state: &State,
    new: &Plant,
    news: &[NewAlarm],
) -> Result<Bank, AllocError>
    requires each { length state.now.alarms ≡ length plant.now.alarms }
    requires plant { IsPlant new.now }
    requires news { news.now ≡ news_of plant.now new.now }
    ensures { IfOk result (λ bank. bank ≡ bank_reloaded news.now (bank_in state.now)) }
{
    state.bank.reloaded(alloc, new.areas(), news)
}

/// The delays of a new plant's alarms after those of a state.
fn delays_after(
    alloc: Global,
    plant: &Plant,
    state: &State,
    new: &Plant,
    kept: &[Option<u32>],
) -> Result<Delays, AllocError>
    requires { kept.now ≡ kept_numbers plant.now new.now }
    ensures { IfOk result (λ delays. delays
        ≡ delays_reloaded (delays_of new.now.alarms) kept.now state.now.delays) }
{
    let delays = delays_of(alloc, new.alarm_rows())?;
    state.delays.reloaded(alloc, delays, kept)
}

/// Makes ready what a reload of a new plant leaves of a state. The scan after it asks all alarms. The state stays as it is.
pub fn ready_reload(
    alloc: Global,
    plant: &Plant,
    state: &State,
    new: &Plant,
) -> Result<ReadyReload, AllocError>
    requires ready { IsReady plant.now state.now }
    requires room { state.now.reloads < MOST_EVENTS }
    ensures { IfOk result (IsReadyReload plant.now new.now state.now) }
{
    let logic = new.logic();
    let news = news_of(alloc, plant, new)?;
    let kept = kept_of(alloc, news.as_slice())?;
    let bank = bank_after(alloc, plant, state, new, news.as_slice())?;
    let delays = delays_after(alloc, plant, state, new, kept.as_slice())?;
    let cells = carry(alloc, plant.logic(), &state.cells, logic)?;
    let reloads = state.reloads + 1;
    let state = state_with(alloc, new, cells, bank, delays, reloads)?;
    Ok(ReadyReload {
        state,
        kept: kept_count(kept.as_slice()) as u32,
        fresh: fresh_count(kept.as_slice()) as u32,
    })
}
