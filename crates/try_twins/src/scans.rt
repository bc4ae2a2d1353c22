//! The scans of a plant, as a server takes them.

ghost use Rattle.std.specs.Prelude.{◌≡◌, ◌<◌, length, IfOk, OnOk, OnErr};
ghost use Rattle.vm_logic.specs.Runs.{HasCells};

use crate::twin::Twin;
use plant_types::{Pair, Region, Value, fitted};
use std::alloc::{AllocError, Global};
use try_walks::Walker;
use vm_logic::{Framed, Walked, sound_source_is_small};

/// The last moment of all.
const LAST_MOMENT: u64 = 4_000_000_000_000;

/// How many events a server takes.
const MOST_EVENTS: u64 = 1_000_000;

/// What became of a scan.
#[derive(Clone, Copy, Drop)]
pub enum Scanned {
    /// It was refused, and changed nothing.
    Refused,
    /// Both ways of each program ended alike, and left the same.
    Alike,
    /// They didn't.
    Apart,
}

/// The programs of a plant beside a server: they run in both ways in each scan that the server takes. Which scans these are is judged here
/// anew.
#[derive(Drop)]
pub struct TwinScans {
    framed: Framed,
    twin: Twin,
    /// Which programs are stopped.
    stopped: Vec<bool>,
    /// The moment of the last scan.
    moment: u64,
    /// How many scans, orders and reloads were taken.
    events: u64,
    ghost cells: { HasCells framed twin.ran },
}

/// The input that a pair names and its new value; `None` if the pair names no input, or if its value doesn't fit.
fn given_input(framed: &Framed, pair: &Pair) -> Option<(usize, i64)> {
    let number = framed.find_global(pair.name.as_str())?;
    let global = framed.globals().get(number)?;
    match global.region {
        Some(Region::Input) => Some((number, fitted(global.kind, pair.given)?.worth())),
        _ => None,
    }
}

/// The inputs that pairs name and their new values; `None` where a server refuses one of the pairs.
fn image_of(
    alloc: Global,
    framed: &Framed,
    pairs: &[Pair],
) -> Result<Option<Vec<(usize, i64)>>, AllocError> {
    let mut image: Vec<(usize, i64)> = Vec::new(alloc);
    for pair in pairs {
        let Some((number, value)) = given_input(framed, pair) else {
            return Ok(None);
        };
        if image.iter().any(|named| named.0 == number) {
            return Ok(None);
        }
        image.push((number, value))?;
    }
    Ok(Some(image))
}

/// Gives inputs their new values.
fn set_inputs(twin: &mut Twin, image: &[(usize, i64)])
    ensures values { length twin.new.ran.values ≡ length twin.old.ran.values }
    ensures clocks { length twin.new.ran.clocks ≡ length twin.old.ran.clocks }
{
    for (number, value) in image {
        twin.set(*number, *value);
    }
}

/// Runs a program in both ways, unless it is stopped. False if they end apart.
fn run_program(
    framed: &Framed,
    twin: &mut Twin,
    stopped: &mut [bool],
    program: u32,
    moment: u64,
) -> Result<bool, AllocError>
    requires there { program < length framed.now.programs }
    requires cells { HasCells framed.now twin.old.ran }
    ensures { HasCells framed.now twin.new.ran }
{
    let Some(is_stopped) = stopped.get_mut(program as usize) else {
        return Ok(true);
    };
    if *is_stopped {
        return Ok(true);
    }
    match twin.run(framed, program, moment)? {
        Some(Walked::Done) => Ok(true),
        Some(Walked::Trapped(_, _)) => {
            *is_stopped = true;
            Ok(true)
        }
        None => Ok(false),
    }
}

/// Runs the programs that aren't stopped, in order. False if both ways of one end apart, or leave something else.
fn run_programs(
    framed: &Framed,
    twin: &mut Twin,
    stopped: &mut [bool],
    moment: u64,
) -> Result<bool, AllocError>
    requires { HasCells framed.now twin.old.ran }
    ensures { HasCells framed.now twin.new.ran }
{
    sound_source_is_small();
    let mut is_alike = true;
    for program in 0..framed.programs().len() {
        if !run_program(framed, twin, stopped, program as u32, moment)? {
            is_alike = false;
        }
    }
    Ok(is_alike && twin.is_alike())
}

/// Cells for the runs of a logic, and that no program is stopped.
fn opened(alloc: Global, framed: &Framed, walker: Walker) -> Result<(Twin, Vec<bool>), AllocError>
    ensures { IfOk result (λ made. HasCells framed.now made.0.ran) }
{
    let twin = Twin::new(alloc, framed, walker)?;
    Ok((twin, vec![in alloc; false; framed.programs().len()]?))
}

/// Goes on with another logic in the place of the old one, of which no program is stopped.
fn go_on(
    alloc: Global,
    twin: &mut Twin,
    old: &Framed,
    new: &Framed,
    walker: Walker,
) -> Result<Vec<bool>, AllocError>
    ensures ok { OnOk result (HasCells new.now twin.new.ran) }
    ensures err { OnErr result (twin.new.ran ≡ twin.old.ran) }
{
    let stopped = vec![in alloc; false; new.programs().len()]?;
    twin.go_on(alloc, old, new, walker)?;
    Ok(stopped)
}

impl TwinScans {
    /// The programs before the first scan. The walker is to be of the same source.
    pub fn new(alloc: Global, framed: Framed, walker: Walker) -> Result<TwinScans, AllocError> {
        match opened(alloc, &framed, walker) {
            Ok((twin, stopped)) => Ok(TwinScans {
                framed,
                twin,
                stopped,
                moment: 0,
                events: 0,
            }),
            Err(refused) => {
                drop(framed);
                Err(refused)
            }
        }
    }

    /// Takes a scan, if a server takes it. The pairs give inputs their values, by name.
    pub fn scan(
        &mut self,
        alloc: Global,
        pairs: &[Pair],
        moment: u64,
    ) -> Result<Scanned, AllocError> {
        if moment > LAST_MOMENT || moment < self.moment || self.events >= MOST_EVENTS {
            return Ok(Scanned::Refused);
        }
        let Some(image) = image_of(alloc, &self.framed, pairs)? else {
            return Ok(Scanned::Refused);
        };
        self.events += 1;
        self.moment = moment;
        set_inputs(&mut self.twin, image.as_slice());
        let stopped = self.stopped.as_mut_slice();
        if run_programs(&self.framed, &mut self.twin, stopped, moment)? {
            Ok(Scanned::Alike)
        } else {
            Ok(Scanned::Apart)
        }
    }

    /// Takes an order, if a server takes it. It may restart a program, given by its number.
    pub fn order(&mut self, restarted: Option<u32>) {
        if self.events >= MOST_EVENTS {
            return;
        }
        self.events += 1;
        if let Some(program) = restarted {
            if let Some(is_stopped) = self.stopped.get_mut(program as usize) {
                *is_stopped = false;
            }
        }
    }

    /// Takes a reload that a server took, of the logic of another plant. No program is stopped then. The walker is to be of the same source.
    pub fn reload(
        &mut self,
        alloc: Global,
        framed: Framed,
        walker: Walker,
    ) -> Result<(), AllocError> {
        match go_on(alloc, &mut self.twin, &self.framed, &framed, walker) {
            Ok(stopped) => {
                self.framed = framed;
                self.stopped = stopped;
                self.events = self.events.saturating_add(1);
                Ok(())
            }
            Err(refused) => {
                drop(framed);
                Err(refused)
            }
        }
    }

    /// Whether a server has taken so many events, its last scan had this moment, and its outputs, by their numbers, have the values that the
    /// walks have left.
    pub fn shows(&self, events: u64, moment: u64, outputs: &[(u32, Value)]) -> bool {
        let values = self.twin.walked.as_slice();
        self.events == events
            && self.moment == moment
            && outputs.iter().all(|output| values.get(output.0 as usize) == Some(&output.1.worth()))
    }
}
