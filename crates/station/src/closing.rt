//! What is left once a station is closed.

ghost use Rattle.std.specs.Prelude.{◌≡◌, ◌≢◌, ℕ, [], ◌∷◌, length, All, IfSome, IfNone};
ghost use mathlib.Core.List.{IsPrefix};
ghost use Rattle.station.specs.Lanes.{left_in, left_answers_in, is_within, numbers_in, links_in, HasNoTwin, IsOfLog, IsEndIn, IsLinkEndIn};
ghost use Rattle.station.specs.Closings.{EndedOne, AreEnded};

use console_boards::BoardEntry;
use console_link::{Answer, FinishedRings, Lane};
use console_log::Mark;
use console_recorder::{Engine, Order, Reply};
use std::marker::Model;

/// A station that was closed: its engine, its crew, and the orders and answers that were left of the consoles that had ended.
pub struct Closing<C> {
    pub(crate) engine: Engine,
    pub(crate) crew: C,
    pub(crate) lanes: Vec<Lane<Order, Reply>>,
}

impl<C: Drop> Drop for Closing<C> {
    fn drop(self) {
        let Closing {
            engine: _,
            crew: _,
            lanes: _,
        } = self;
    }
}

impl<C> Model for Closing<C> {
    ghost use Rattle.station.specs.Stations.{PlainClosing, closing_code};

    ghost Value = { PlainClosing C };

    ghost coded = { closing_code C.code };

    ghost view = { λ s. record { engine = s.engine; crew = s.crew; lanes = s.lanes.items } };
}

/// Joins the rings of a console that has ended with the lane of its number.
fn end_lane(lanes: &mut [Lane<Order, Reply>], console: FinishedRings<Order, Reply>)
    requires { IsLinkEndIn lanes.old console }
    ensures { EndedOne console lanes.old lanes.new }
{
    let Some((lane, others)) = lanes.split_first_mut() else {
        return;
    };
    if lane.number() == console.number() {
        lane.end(console);
    } else {
        end_lane(others, console);
    }
}

/// Joins the rings of consoles that have ended, each with the lane of its number, and takes in what their marks say.
pub(crate) fn end_lanes(
    lanes: &mut [Lane<Order, Reply>],
    mark: &mut Mark<BoardEntry>,
    mut finished: Vec<console_operator::Finished<Order, Reply>>,
)
    requires once { HasNoTwin (numbers_in lanes.old) }
    requires ends { All (IsEndIn lanes.old) finished.items }
    requires marked { All (IsOfLog mark.old.log) lanes.old }
    ensures lanes { AreEnded (links_in finished.items) lanes.old lanes.new }
    ensures own { IsPrefix mark.old.entries mark.new.entries }
    ensures theirs { All (λ f. IsPrefix f.mark.entries mark.new.entries) finished.items }
{
    while let Some(console) = finished.pop() {
        mark.learn(&console.mark);
        end_lane(lanes, console.link);
    }
}

/// Takes the next order that was left of the console of a number.
fn next_left_in(lanes: &mut [Lane<Order, Reply>], console: u32) -> Option<Order>
    ensures some { IfSome result (λ o. left_in console lanes.old ≡ o ∷ left_in console lanes.new) }
    ensures none { IfNone result ((left_in console lanes.old ≡ []) × (left_in console lanes.new ≡ [])) }
    ensures others { (n : ℕ) → n ≢ console → left_in n lanes.new ≡ left_in n lanes.old }
    ensures answers { (n : ℕ) → left_answers_in n lanes.new ≡ left_answers_in n lanes.old }
    ensures within { (n : ℕ) (events : ℕ) → is_within n events lanes.new ≡ is_within n events lanes.old }
{
    let (lane, others) = lanes.split_first_mut()?;
    if lane.number() == console {
        lane.next_left()
    } else {
        next_left_in(others, console)
    }
}

/// Takes the next answer that was left of the console of a number.
fn next_left_answer_in(
    lanes: &mut [Lane<Order, Reply>],
    console: u32,
) -> Option<Answer<Order, Reply>>
    ensures some { IfSome result (λ a. left_answers_in console lanes.old
        ≡ a ∷ left_answers_in console lanes.new) }
    ensures none { IfNone result
        ((left_answers_in console lanes.old ≡ []) × (left_answers_in console lanes.new ≡ [])) }
    ensures others { (n : ℕ) → n ≢ console
        → left_answers_in n lanes.new ≡ left_answers_in n lanes.old }
    ensures orders { (n : ℕ) → left_in n lanes.new ≡ left_in n lanes.old }
    ensures within { (n : ℕ) (events : ℕ) → is_within n events lanes.new ≡ is_within n events lanes.old }
{
    let (lane, others) = lanes.split_first_mut()?;
    if lane.number() == console {
        lane.next_left_answer()
    } else {
        next_left_answer_in(others, console)
    }
}

/// Whether the console of a number has ended, and saw at most so many events.
fn is_within(lanes: &[Lane<Order, Reply>], console: u32, events: u64) -> bool
    ensures { result ≡ is_within console events lanes.now }
{
    let Some((lane, others)) = lanes.split_first() else {
        return false;
    };
    if lane.number() != console {
        return is_within(others, console, events);
    }
    match lane.seen() {
        Some(seen) => seen <= events,
        None => false,
    }
}

impl<C: Drop> Closing<C> {
    /// The engine.
    pub fn engine(&self) -> &Engine
        ensures { result.now ≡ self.now.engine }
    {
        &self.engine
    }

    /// Takes the next order that was left of the console of a number; `None` where none is, or where that console's end wasn't handed in.
    pub fn next_left(&mut self, console: u32) -> Option<Order>
        ensures some { IfSome result (λ o. left_in console self.old.lanes
            ≡ o ∷ left_in console self.new.lanes) }
        ensures none { IfNone result
            ((left_in console self.old.lanes ≡ []) × (left_in console self.new.lanes ≡ [])) }
        ensures others { (n : ℕ) → n ≢ console → left_in n self.new.lanes ≡ left_in n self.old.lanes }
        ensures answers { (n : ℕ)
            → left_answers_in n self.new.lanes ≡ left_answers_in n self.old.lanes }
        ensures engine { self.new.engine ≡ self.old.engine }
        ensures crew { self.new.crew ≡ self.old.crew }
        ensures within { (n : ℕ) (events : ℕ)
            → is_within n events self.new.lanes ≡ is_within n events self.old.lanes }
    {
        next_left_in(self.lanes.as_mut_slice(), console)
    }

    /// Takes the next answer that was left in its ring, given and not taken, of the console of a number; `None` where none is, or where that console's end
    /// wasn't handed in. What it answers is in the history.
    pub fn next_left_answer(&mut self, console: u32) -> Option<Answer<Order, Reply>>
        ensures some { IfSome result (λ a. left_answers_in console self.old.lanes
            ≡ a ∷ left_answers_in console self.new.lanes) }
        ensures none { IfNone result ((left_answers_in console self.old.lanes ≡ [])
            × (left_answers_in console self.new.lanes ≡ [])) }
        ensures others { (n : ℕ) → n ≢ console
            → left_answers_in n self.new.lanes ≡ left_answers_in n self.old.lanes }
        ensures orders { (n : ℕ) → left_in n self.new.lanes ≡ left_in n self.old.lanes }
        ensures engine { self.new.engine ≡ self.old.engine }
        ensures crew { self.new.crew ≡ self.old.crew }
        ensures within { (n : ℕ) (events : ℕ)
            → is_within n events self.new.lanes ≡ is_within n events self.old.lanes }
    {
        next_left_answer_in(self.lanes.as_mut_slice(), console)
    }

    /// Whether the console of a number saw no more events on the board than the history has; `false` where that console's end wasn't handed in. Where
    /// it is `true`, `Station::close` says that what the console saw is a beginning of the history's entries.
    pub fn within(&self, console: u32) -> bool
        ensures { result ≡ is_within console (length self.now.engine.history) self.now.lanes }
    {
        is_within(self.lanes.as_slice(), console, self.engine.events())
    }

    /// Gives the crew back.
    pub fn into_crew(self) -> C
        ensures { result ≡ self.crew }
    {
        let Closing {
            engine,
            crew,
            lanes,
        } = self;
        drop(engine);
        drop(lanes);
        crew
    }
}
