//! An operator's console: it submits orders, takes their answers, and looks at the board.
//!
//! A console goes to a thread of its own. It has its ends of two rings, and a reader of the board on which the owner of the engine publishes
//! the alarms. None of its calls waits or takes memory.
//!
//! What it sees of the board goes on from all that it saw before, and has the effect of each order whose answer it took: a board that has
//! fewer orders of this console than it took answers isn't shown.
//!
//! Layer console_: it must not know the bytes of commands.
#![tactic(auto)]

mod console;
mod laws;
mod sight;
mod threads;
mod view;

pub use console::{Console, Finished};
pub use console_link::Answer;
pub use laws::looks_twice;
pub use threads::ends_elsewhere;
pub use view::BoardView;
