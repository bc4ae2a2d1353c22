//! How a thread waits for a message.

use crossbeam_channel::Receiver;
use std::hint::spin_loop;
use std::sync::Wait;

/// So often a thread looks for a message before it sleeps: for about as long as it takes to be woken, and more than a scan is away.
const TURNS: u32 = 20_000;

/// The next message, or `None` once none can come any more. A thread that waits stays awake for some turns, since to sleep and to be woken
/// takes longer than most waits.
pub(crate) fn next_of<T: Drop, H: Wait>(rt: &H, from: &Receiver<T>) -> Option<T> {
    for _ in 0..TURNS {
        if let Ok(message) = from.try_recv(rt) {
            return Some(message);
        }
        spin_loop();
    }
    match from.recv(rt) {
        Ok(message) => Some(message),
        Err(_) => None,
    }
}
