//! The limits on what a source holds and does: its slots, the size of its programs together, and the cost of each.
//!
//! The definitions (`specs/Counts.antt`) go by cases on a routine and, for its instances, on their block types. The code counts each block
//! type once, after those that it declares, and stops each count one above its limit: so no number grows past it, and no body is gone
//! through again for a second instance.
//!
//! Worked numbers, which `proofs/CountExamples.antt` shows of the definitions:
//!
//! - `FOR i := 1 TO 10000 DO n := n + 1; END_FOR;` costs 70,002: 2, and in each turn 3 and the assignment's 4. Its size is 9.
//! - 300 turns of `n := n + 1;` inside 1000 turns cost 2,105,002, which is past the limit: the count stops at 2,000,001. Their size is 14.
//! - A block with `n := n + 1; m := n;` costs 6. Two calls without arguments and one that gives an output to a variable cost 22.
//! - A TON or a TOF has 3 slots, an R_TRIG 2, also where it is never called. A block type that no program uses has none.
//!
//! Layer logic_: it must not know instructions, alarms, files or threads.
#![tactic(auto)]

mod counting;
mod fault;
mod instances;
mod judging;
mod laws;
mod measures;
mod stopping;
mod weighing;

pub use fault::LimitFault;
pub use judging::limits;
pub use laws::block_type_counts;
