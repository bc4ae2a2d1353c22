//! Sources, made ready to run by their codes, and to be walked.

use logic_limits::LimitFault;
use st_sources::{SourceFault, units};
use st_typing::{TypeFault, Typed, check};
use std::alloc::Global;
use try_walks::Walker;
use vm_logic::Framed;

/// Why a source isn't run.
#[derive(Clone, Copy, Drop)]
pub enum Unready {
    /// Memory was refused.
    Memory,
    /// It isn't well formed.
    Unfit,
    /// It is past a limit.
    Large,
}

/// A source in both of its forms: ready to run by its codes, and to be walked.
#[derive(Drop)]
pub struct Ready {
    pub framed: Framed,
    pub walker: Walker,
}

/// Why a limit keeps a source from being run.
fn why_not(fault: LimitFault) -> Unready {
    match fault {
        LimitFault::Memory => Unready::Memory,
        _ => Unready::Large,
    }
}

/// The well-formed units of sources, each by its name and its text.
fn typed_of(alloc: Global, sources: &[(&str, &[u8])]) -> Result<Typed, Unready> {
    match units(alloc, sources) {
        Ok(units) => match check(alloc, units) {
            Ok(typed) => Ok(typed),
            Err(mistyped) => match mistyped.fault {
                TypeFault::Memory => Err(Unready::Memory),
                _ => Err(Unready::Unfit),
            },
        },
        Err(SourceFault::Memory) => Err(Unready::Memory),
        Err(_) => Err(Unready::Unfit),
    }
}

/// The logic of a source, to be run by its codes.
fn framed_of(alloc: Global, source: &[u8]) -> Result<Framed, Unready> {
    let typed = typed_of(alloc, &[("p.st", source)])?;
    match Framed::of(alloc, typed) {
        Ok(framed) => Ok(framed),
        Err(fault) => Err(why_not(fault)),
    }
}

/// The logic of a source, in both forms, each of which is made of units of its own. Fails where it can't be run.
pub fn made_ready(alloc: Global, source: &[u8]) -> Result<Ready, Unready> {
    let walker = walker_of_sources(alloc, &[("p.st", source)])?;
    match framed_of(alloc, source) {
        Ok(framed) => Ok(Ready { framed, walker }),
        Err(why) => {
            drop(walker);
            Err(why)
        }
    }
}

/// The logic of sources, each by its name and its text, to be walked. Fails where it can't be run.
pub fn walker_of_sources(alloc: Global, sources: &[(&str, &[u8])]) -> Result<Walker, Unready> {
    let typed = typed_of(alloc, sources)?;
    match Walker::of(alloc, typed) {
        Ok(walker) => Ok(walker),
        Err(fault) => Err(why_not(fault)),
    }
}
