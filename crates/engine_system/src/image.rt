//! The image of a scan: inputs by number, with values of their kinds.

ghost use Rattle.std.specs.Prelude.{◌≡◌, ◌<◌, length, All, IfOk, IfErr, IfSome, OnOk, Ok, Some, None, ◌≤◌, ◌==◌, if◌then◌else◌};
ghost use Rattle.std.specs.List.{list_any};
ghost use Rattle.engine_history.specs.Names.{globals_of};
ghost use Rattle.engine_system.specs.Faults.{IsNoCrews};
ghost use Rattle.engine_system.specs.Image.{input_of, inputs_of, has_twin, values_of, image_of, IsDue};
ghost use Rattle.engine_system.specs.System.{taken_scan};
ghost use Rattle.engine_history.specs.declared.event.Event.TheVariants.{Scan};

use crate::event::{EngineFault, MOST_EVENTS};
use crate::scan::Room;
use alarm_machine::LAST_MOMENT;
use engine_history::Plant;
use plant_types::{Given, Kind, Pair, Region, Value, fitted};
use std::alloc::{AllocError, Global};

/// How many inputs are few: these are compared with each other.
const FEW: usize = 16;

/// An input by its number and kind, and what is given for it.
#[derive(Clone, Copy)]
pub struct Input {
    pub number: u32,
    pub kind: Kind,
    pub given: Given,
}

/// How many globals a plant has.
fn global_count(plant: &Plant) -> usize
    ensures { result ≡ length (globals_of plant.now) }
{
    plant.logic().globals().len()
}

/// The input that a pair names, with what is given for it; `None` for a name of no input.
fn input_of(plant: &Plant, pair: &Pair) -> Option<Input>
    ensures input { result ≡ input_of (globals_of plant.now) pair.now }
    ensures within { IfSome result (λ p. p.number < length (globals_of plant.now)) }
{
    let Some(number) = plant.global_number(pair.name.as_str()) else {
        return None;
    };
    match plant.logic().globals().get(number as usize) {
        Some(global) => match global.region {
            Some(Region::Input) => Some(Input {
                number,
                kind: global.kind,
                given: pair.given,
            }),
            _ => None,
        },
        None => None,
    }
}

/// Lists the inputs that pairs name, in order, in place of those listed before; false if one names no input.
fn list_inputs(plant: &Plant, pairs: &[Pair], inputs: &mut Vec<Input>) -> Result<bool, AllocError>
    ensures inputs { IfOk result (λ all. inputs_of (globals_of plant.now) pairs.now
        ≡ (if all then Some inputs.new.items else None)) }
    ensures within { OnOk result (All (λ p. p.number < length (globals_of plant.now)) inputs.new.items) }
{
    inputs.clear();
    for pair in pairs {
        match input_of(plant, pair) {
            Some(input) => inputs.push(input)?,
            None => return Ok(false),
        }
    }
    Ok(true)
}

/// Lists the values of inputs, in order, in place of those listed before; false if one doesn't fit its input's kind.
fn list_values(inputs: &[Input], values: &mut Vec<(u32, Value)>) -> Result<bool, AllocError>
    ensures { IfOk result (λ all. values_of inputs.now ≡ (if all then Some values.new.items else None)) }
{
    values.clear();
    for input in inputs {
        match fitted(input.kind, input.given) {
            Some(value) => values.push((input.number, value))?,
            None => return Ok(false),
        }
    }
    Ok(true)
}

/// Whether a number is that of one of the inputs.
fn is_named(inputs: &[Input], number: u32) -> bool
    ensures { result ≡ list_any (λ q. q.number == number) inputs.now }
{
    inputs.iter().any(|input| input.number == number)
}

/// Whether an input is named twice, by a look at each two of them.
fn has_twin_of_few(inputs: &[Input]) -> bool
    ensures { result ≡ has_twin inputs.now }
{
    let mut rest = inputs;
    while let Some((first, others)) = rest.split_first() {
        if is_named(others, first.number) {
            return true;
        }
        rest = others;
    }
    false
}

/// Whether an input is named twice, among so many globals. A few inputs take no memory.
fn has_twin(alloc: Global, globals: usize, inputs: &[Input]) -> Result<bool, AllocError>
    requires { All (λ p. p.number < globals) inputs.now }
    ensures { IfOk result (λ twin. twin ≡ has_twin inputs.now) }
{
    if inputs.len() <= FEW {
        return Ok(has_twin_of_few(inputs));
    }
    let mut seen = vec![in alloc; false; globals]?;
    for input in inputs {
        let number = input.number as usize;
        if seen[number] {
            return Ok(true);
        }
        seen[number] = true;
    }
    Ok(false)
}

/// Puts the image that pairs give in its room, or returns why it is refused.
#[tactic(auto, unfolding(crate::specs::Image::image_of))]
fn image_of(
    alloc: Global,
    plant: &Plant,
    pairs: &[Pair],
    room: &mut Room,
) -> Result<(), EngineFault>
    ensures ok { OnOk result (image_of (globals_of plant.now) pairs.now ≡ Ok room.new.image.items) }
    ensures err { IfErr result (λ e. IsDue e (image_of (globals_of plant.now) pairs.now)) }
    ensures no_crew { IsNoCrews result }
{
    if !list_inputs(plant, pairs, &mut room.inputs)? {
        return Err(EngineFault::ImageName);
    }
    if has_twin(alloc, global_count(plant), room.inputs.as_slice())? {
        return Err(EngineFault::ImageName);
    }
    if !list_values(room.inputs.as_slice(), &mut room.image)? {
        return Err(EngineFault::ImageKind);
    }
    Ok(())
}

/// Puts the image of a scan after a last moment and so many events in its room, or returns why the scan is refused.
#[tactic(auto, unfolding(crate::specs::System::taken_scan))]
pub fn taken_image(
    alloc: Global,
    plant: &Plant,
    room: &mut Room,
    last: u64,
    events: usize,
    pairs: &[Pair],
    moment: u64,
) -> Result<(), EngineFault>
    ensures ok { OnOk result
        (taken_scan (globals_of plant.now) last events pairs.now moment
        ≡ Ok (Scan room.new.image.items moment)) }
    ensures forward { OnOk result (last ≤ moment) }
    ensures range { OnOk result (moment ≤ LAST_MOMENT) }
    ensures err { IfErr result (λ e. IsDue e
        (taken_scan (globals_of plant.now) last events pairs.now moment)) }
    ensures no_crew { IsNoCrews result }
{
    if moment > LAST_MOMENT {
        return Err(EngineFault::MomentRange);
    }
    if moment < last {
        return Err(EngineFault::MomentBack);
    }
    image_of(alloc, plant, pairs, room)?;
    if events >= MOST_EVENTS {
        return Err(EngineFault::HistoryFull);
    }
    Ok(())
}
