//! The post of a console: what it orders, and what it keeps.

ghost use Rattle.alarm_machine.specs.declared.states.AlarmState.{AlarmState};

use crate::notes::Note;
use station::{AlarmState, Answer, Order, OrderFault, Plant, Reply, Verb};
use std::alloc::{AllocError, Global};
use std::mem::swap;

/// How many orders a console's drill has.
pub const DRILL: usize = 100;

/// How many of them are answered before the plant changes.
const HALF: usize = 50;

/// How many orders are under way when it changes.
const UNDER_WAY: usize = 10;

/// For how long a drill shelves an alarm, in milliseconds, where it isn't unshelved before.
const SHELF: u64 = 60_000;

/// What a console has of an alarm.
#[derive(Clone, Copy, Drop)]
pub struct Lamp {
    /// Whether the alarm's area is one of the console's.
    pub is_own: bool,
    /// Whether an order of the console for it is under way.
    pub is_away: bool,
    /// Its state on the board that the console saw last.
    pub state: AlarmState,
}

/// The plant that a station begins with, and the one that takes its place.
#[derive(Drop)]
pub struct Plants<'p> {
    pub first: &'p Plant,
    pub second: &'p Plant,
}

/// What a console has: a lamp for each alarm, and a note for each answer that it took.
#[derive(Drop)]
pub struct Post {
    /// The console's number.
    pub number: u32,
    pub lamps: Vec<Lamp>,
    /// The lamps of the other plant: that which is to come, and later that which was.
    others: Vec<Lamp>,
    pub notes: Vec<Note>,
    /// How often the plant had been replaced by what the console saw last: its orders are for that plant.
    pub plant: u32,
    /// How many orders of the drill were submitted, also those that are given again.
    drilled: usize,
    /// How many of them were refused since they were for an older plant.
    outdated: usize,
    /// How many were submitted before it saw that the plant had changed.
    awaited: usize,
    /// How many of the notes say what the board showed after them.
    looked: usize,
    /// Whether memory was refused for a note.
    pub is_short: bool,
}

/// Whether an order was refused since it was for an older plant.
pub fn is_outdated(refused: Option<OrderFault>) -> bool {
    match refused {
        Some(OrderFault::OldPlant) => true,
        _ => false,
    }
}

/// Whether an area is one of those of the console of a number.
fn has_area(plant: &Plant, number: u32, area: u32) -> bool {
    for console in plant.consoles() {
        if console.number == number {
            return console.areas.as_slice().contains(&(area as usize));
        }
    }
    false
}

/// The lamps of the console of a number, for the alarms of a plant.
fn lamps_of(alloc: Global, plant: &Plant, number: u32) -> Result<Vec<Lamp>, AllocError> {
    let mut lamps = Vec::new(alloc);
    for row in plant.alarm_rows() {
        lamps.push(Lamp {
            is_own: has_area(plant, number, row.area),
            is_away: false,
            state: AlarmState::Norm,
        })?;
    }
    Ok(lamps)
}

impl Post {
    /// The post of the console of a number.
    pub fn new(alloc: Global, plants: &Plants<'_>, number: u32) -> Result<Post, AllocError> {
        let lamps = lamps_of(alloc, plants.first, number)?;
        let others = lamps_of(alloc, plants.second, number)?;
        Ok(Post {
            number,
            lamps,
            others,
            notes: Vec::new(alloc),
            plant: 0,
            drilled: 0,
            outdated: 0,
            awaited: 0,
            looked: 0,
            is_short: false,
        })
    }

    /// The number of its own alarm at a place, counted from 0.
    fn own_alarm(&self, place: usize) -> Option<u32> {
        let mut before = place;
        let mut number = 0u32;
        for lamp in &self.lamps {
            if lamp.is_own {
                if before == 0 {
                    return Some(number);
                }
                before -= 1;
            }
            number = number.saturating_add(1);
        }
        None
    }

    /// How many of the alarms are its own.
    fn own_alarms(&self) -> usize {
        let mut count = 0usize;
        for lamp in &self.lamps {
            if lamp.is_own {
                count = count.saturating_add(1);
            }
        }
        count
    }

    /// The place in the drill of the next order: those that were for an older plant are given again.
    fn next_place(&self) -> usize {
        self.drilled.saturating_sub(self.outdated)
    }

    /// At which place in the drill it has to wait: in the middle for the owner, then for the plant that comes, and then for the answers of all orders that
    /// were for the one that was. These come in the order of the orders, so those that are refused since the plant is older are the last of them.
    fn halt(&self, is_held: bool) -> usize {
        if self.plant > 0 {
            if self.notes.len() < self.awaited {
                return 0;
            }
            DRILL
        } else if is_held {
            HALF + UNDER_WAY
        } else {
            HALF
        }
    }

    /// The next order of the drill, if it may go on: its own alarms are shelved and unshelved, one after another.
    pub fn drill_order(&self, is_held: bool) -> Option<Order> {
        let next = self.next_place();
        if next >= self.halt(is_held) {
            return None;
        }
        let verb = if next % 2 == 0 {
            Verb::Shelve(SHELF)
        } else {
            Verb::Unshelve
        };
        let place = (next / 2).checked_rem(self.own_alarms()).unwrap_or(0);
        Some(Order {
            verb,
            target: self.own_alarm(place),
            plant: self.plant,
        })
    }

    /// An order of the drill was submitted.
    pub fn add_drilled(&mut self) {
        self.drilled = self.drilled.saturating_add(1);
    }

    /// Whether the first half of the drill is answered.
    pub fn is_halved(&self) -> bool {
        self.notes.len() >= HALF
    }

    /// Whether orders are under way for a plant that is to change.
    pub fn is_waiting(&self) -> bool {
        self.plant == 0 && self.drilled >= HALF + UNDER_WAY
    }

    /// Whether all orders of the drill are answered, and those that were given again too.
    pub fn is_drilled(&self) -> bool {
        self.notes.len() >= DRILL.saturating_add(self.outdated)
    }

    /// The board shows so many reloads. Where that is one more, the lamps are those of the plant that came, for which nothing is under way yet.
    pub fn follow(&mut self, reloads: u32) {
        if reloads != self.plant {
            swap(&mut self.lamps, &mut self.others);
            self.awaited = self.drilled;
            self.plant = reloads;
        }
    }

    /// What is to be ordered of the alarm of a number by the board that was seen last: nothing where an order for it is under way.
    pub fn duty(&self, alarm: u32) -> Option<Verb> {
        let lamp = self.lamps.get(alarm as usize)?;
        if !lamp.is_own || lamp.is_away {
            return None;
        }
        match lamp.state {
            AlarmState::Unack | AlarmState::Rtnun | AlarmState::Latun => Some(Verb::Ack),
            AlarmState::Latak => Some(Verb::Reset),
            _ => None,
        }
    }

    /// An order for the alarm of a number is under way, or no more.
    pub fn set_away(&mut self, alarm: u32, is_away: bool) {
        if let Some(lamp) = self.lamps.get_mut(alarm as usize) {
            lamp.is_away = is_away;
        }
    }

    /// Keeps an answer that the console took.
    pub fn take(&mut self, answer: Answer<Order, Reply>) {
        if answer.order.plant == self.plant {
            if let Some(alarm) = answer.order.target {
                self.set_away(alarm, false);
            }
        }
        let refused = match answer.reply {
            Reply::Done(_) => None,
            Reply::Refused(fault) => Some(fault),
        };
        if is_outdated(refused) && !self.is_drilled() {
            self.outdated = self.outdated.saturating_add(1);
        }
        let note = Note {
            order: answer.order,
            refused,
            seen: 0,
        };
        if self.notes.push(note).is_err() {
            self.is_short = true;
        }
    }

    /// The board that the console saw showed so many events: the first look after each answer that was taken since the last look.
    pub fn look(&mut self, events: u64) {
        let notes = self.notes.len();
        for place in self.looked..notes {
            if let Some(note) = self.notes.get_mut(place) {
                note.seen = events;
            }
        }
        self.looked = notes;
    }
}
