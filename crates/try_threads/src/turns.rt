//! A console's part of a turn.
use console_link::{ConsoleRings, Lane, open};
use console_log::Log;
use std::alloc::{AllocError, Global};

/// A console of a number, and the owner's ends of its rings; where memory is refused they are made once more.
pub fn opened(
    alloc: Global,
    number: u32,
) -> Result<(ConsoleRings<u32, u8>, Lane<u32, u8>), AllocError> {
    let log = Log::<u32>::new();
    match open(alloc, number, &log.mark()) {
        Ok(ends) => Ok(ends),
        Err(_) => open(alloc, number, &log.mark()),
    }
}

/// Takes at most 64 orders, each of which is answered by 7, and tells how many.
pub fn turn(lane: &mut Lane<u32, u8>) -> u32 {
    let mut taken = 0u32;
    for _ in 0..64u32 {
        let Some(_) = lane.waiting() else { break };
        lane.take(7);
        taken = taken.saturating_add(1);
    }
    taken
}

/// Submits the orders from one number on up to another, and tells how many were submitted.
pub fn submit(console: &mut ConsoleRings<u32, u8>, from: u32, until: u32) -> u32 {
    let mut count = 0u32;
    for order in from..until {
        if console.submit(order).is_ok() {
            count = count.saturating_add(1);
        }
    }
    count
}

/// Takes the answers to the orders from one number on up to another, and tells whether they came in this order.
pub fn take(console: &mut ConsoleRings<u32, u8>, from: u32, until: u32) -> bool {
    for order in from..until {
        match console.answer() {
            Some(answer) => {
                if answer.order != order || answer.reply != 7 {
                    return false;
                }
            }
            None => return false,
        }
    }
    true
}
