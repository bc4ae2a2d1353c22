//! Tests of the crates for workers and for consoles in threads, of what no contract says: plans of levels worked out by hand (`level_plan`); that
//! the ends of a console's rings see each other's progress, also in threads of their own (`console_link`; an order is a number here, and so is a
//! reply); that the jobs of a crew are under way at the same time, that what is handed out comes back, and which fault comes when the workers are
//! gone (`crew`, `standing_crew`; the jobs are toys).
//!
//! Rings are opened again where memory was refused, so their tests pass with ample memory and where one allocation fails. The others want ample
//! memory.
//!
//! All of it is for tests alone, so that it is proved once.
//!
//! Layer try_: nothing of the product stands on it.
#![tactic(auto)]

#[cfg(test)]
mod crews;
#[cfg(test)]
mod gates;
#[cfg(test)]
mod gathered;
#[cfg(test)]
mod levels;
#[cfg(test)]
mod rings;
#[cfg(test)]
mod threads;
#[cfg(test)]
mod together;
#[cfg(test)]
mod toy;
#[cfg(test)]
mod turns;
