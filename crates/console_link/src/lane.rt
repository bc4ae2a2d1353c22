//! The owner's ends of a console's rings.
ghost use Rattle.std.specs.Prelude.{◌≡◌, [], IfOk};
ghost use Rattle.console_link.specs.Seats.{submitted, taken, known_room, orders_taken, answers_given, answer_room, IsConsoleOf, IsOpen};

use crate::answer::Answer;
use crate::console::{ConsoleRings, FinishedRings};
use console_log::{LogName, Mark};
use rtrb::{Consumer, Producer, RingBuffer};
use std::alloc::{AllocError, Global};

/// The owner's ends of a console's rings.
#[derive(Drop)]
pub struct Lane<O, R> {
    pub(crate) number: u32,
    pub(crate) orders: Consumer<O>,
    pub(crate) answers: Producer<Answer<O, R>>,
    /// What is left of its console, once it has ended: then all that it submitted, and all that it didn't take, is known.
    pub(crate) ended: Option<FinishedRings<O, R>>,
    /// In which log what its console sees is marked.
    pub(crate) log: LogName,
}

/// A console of a number and the owner's ends, with two empty rings of 64 places each. What the console sees is marked in the log of this mark.
pub fn open<O: Drop, R: Drop, E>(
    alloc: Global,
    number: u32,
    mark: &Mark<E>,
) -> Result<(ConsoleRings<O, R>, Lane<O, R>), AllocError>
    ensures pair { IfOk result (λ r. IsConsoleOf r.0 r.1) }
    ensures console { IfOk result (λ r. (r.0.number ≡ number) × (submitted r.0 ≡ []) × (taken r.0 ≡ [])
        × (known_room r.0 ≡ 64) × (r.0.log ≡ mark.now.log)) }
    ensures lane { IfOk result (λ r. (r.1.number ≡ number) × (orders_taken r.1 ≡ [])
        × (answers_given r.1 ≡ []) × (answer_room r.1 ≡ 64) × IsOpen r.1 × (r.1.log ≡ mark.now.log)) }
{
    let (submits, orders) = RingBuffer::new(alloc, 64)?;
    let (answers, takes) = RingBuffer::new(alloc, 64)?;
    let console = ConsoleRings {
        number,
        orders: submits,
        answers: takes,
        answered: 0,
        log: mark.name(),
    };
    let lane = Lane {
        number,
        orders,
        answers,
        ended: None,
        log: mark.name(),
    };
    Ok((console, lane))
}

impl<O: Copy + Drop, R: Copy + Drop> Lane<O, R> {
    ghost use Rattle.std.specs.Prelude.{◌≡◌, ◌<◌, ◌≤◌, [], ◌∷◌, ◌++◌, length, Some, IfSome, IfNone, ◌⊎◌, List};
    ghost use mathlib.Core.List.{IsPrefix};
    ghost use Rattle.console_link.specs.Seats.{orders_taken, orders_known, answers_given, answer_room, SameLane, LaneLooked, IsEndOf, all_submitted, all_taken, left_of, left_answers_of, seen_by};
    ghost use Rattle.console_link.specs.declared.answer.Answer.{Answer};

    /// The number of its console.
    pub fn number(&self) -> u32
        ensures { result ≡ self.now.number }
    {
        self.number
    }

    /// The order that waits first, where one is known to wait and a place for its answer is free. It stays in its ring.
    pub fn waiting(&mut self) -> Option<O>
        ensures looked { LaneLooked self.old self.new }
        ensures ended { self.new.ended ≡ self.old.ended }
        ensures seen { seen_by self.new ≡ seen_by self.old }
        ensures some { IfSome result (λ o. IsPrefix (o ∷ []) (orders_known self.new)
            × (0 < answer_room self.new)) }
        ensures none { IfNone result ((orders_known self.new ≡ []) ⊎ (answer_room self.new ≡ 0)) }
    {
        if self.answers.is_full() || self.orders.is_empty() {
            return None;
        }
        Some(*self.orders.peek_known())
    }

    /// Takes the order that waits first, and gives its answer, with this reply.
    pub fn take(&mut self, reply: R) -> Answer<O, R>
        requires order { 0 < length (orders_known self.old) }
        requires place { 0 < answer_room self.old }
        ensures lane { SameLane self.old self.new }
        ensures ended { self.new.ended ≡ self.old.ended }
        ensures seen { seen_by self.new ≡ seen_by self.old }
        ensures order { (orders_taken self.new ≡ orders_taken self.old ++ result.order ∷ [])
            × (orders_known self.old ≡ result.order ∷ orders_known self.new) }
        ensures answer { (answers_given self.new ≡ answers_given self.old ++ result ∷ [])
            × (result.reply ≡ reply) }
    {
        let order = self.orders.pop_known();
        let answer = Answer { order, reply };
        self.answers.push_reserved(answer);
        answer
    }

    /// Joins the ends of both rings, once the console has ended: the orders that were taken, followed by those that are left, are all that it
    /// submitted, each once and in order; and the answers that it took, followed by those that are left, are all that were given.
    pub fn end(&mut self, mut console: FinishedRings<O, R>)
        requires { IsEndOf console self.old }
        ensures lane { SameLane self.old self.new }
        ensures same { (orders_taken self.new ≡ orders_taken self.old)
            × (answers_given self.new ≡ answers_given self.old) }
        ensures orders { orders_taken self.new ++ left_of self.new ≡ all_submitted console }
        ensures answers { all_taken console ++ left_answers_of self.new ≡ answers_given self.new }
        ensures seen { seen_by self.new ≡ Some console.seen }
    {
        self.orders.slots_after(&mut console.orders);
        console.answers.slots_beside(&mut self.answers);
        self.ended = Some(console);
    }

    /// How many events its console saw that has ended; `None` where it hasn't.
    pub fn seen(&self) -> Option<u64>
        ensures { result ≡ seen_by self.now }
    {
        Some(self.ended.as_ref()?.seen)
    }

    /// Takes the next order that was left when the console ended; `None` where none is, or where it hasn't ended.
    pub fn next_left(&mut self) -> Option<O>
        ensures number { self.new.number ≡ self.old.number }
        ensures seen { seen_by self.new ≡ seen_by self.old }
        ensures answers { left_answers_of self.new ≡ left_answers_of self.old }
        ensures some { IfSome result (λ o. left_of self.old ≡ o ∷ left_of self.new) }
        ensures none { IfNone result ((left_of self.old ≡ []) × (left_of self.new ≡ [])) }
    {
        if self.ended.is_none() || self.orders.cached_slots() == 0 {
            return None;
        }
        Some(self.orders.pop_known())
    }

    /// Takes the next answer that was left when the console ended; `None` where none is, or where it hasn't ended.
    pub fn next_left_answer(&mut self) -> Option<Answer<O, R>>
        ensures number { self.new.number ≡ self.old.number }
        ensures seen { seen_by self.new ≡ seen_by self.old }
        ensures orders { left_of self.new ≡ left_of self.old }
        ensures some { IfSome result (λ a. left_answers_of self.old ≡ a ∷ left_answers_of self.new) }
        ensures none { IfNone result ((left_answers_of self.old ≡ [])
            × (left_answers_of self.new ≡ [])) }
    {
        let console = self.ended.as_mut()?;
        if console.answers.cached_slots() == 0 {
            return None;
        }
        Some(console.answers.pop_known())
    }
}
