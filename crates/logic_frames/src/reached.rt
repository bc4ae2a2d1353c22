//! Which block types the programs of a source reach: through instances, or through calls alone.

ghost use Rattle.std.specs.Prelude.{◌≡◌, ◌||◌, ◌<◌, not, true, map, false, IfOk};
ghost use Rattle.base_words.specs.Names.{is_among};
ghost use Rattle.logic_source.specs.Source.{view_routine};
ghost use Rattle.logic_frames.specs.Reached.{flagged, number_of, numbers_of, flag_all, flag_asked, flag_programs, flag_onward, flag_back, reached};

use base_words::Names;
use logic_seats::{called_in, is_among};
use logic_source::{BlockRef, Instance, Routine};
use std::alloc::{AllocError, Global};

/// Whether a number is flagged; not past the last flag.
pub fn flagged(flags: &[bool], number: usize) -> bool
    ensures { result ≡ flagged flags.now number }
{
    number < flags.len() && flags[number]
}

/// Flags the declared block type of an instance.
fn flag_block(flags: &mut Vec<bool>, block: BlockRef)
    ensures { flags.new.items ≡ flag_all flags.old.items (number_of true block) }
{
    if let BlockRef::Declared(number) = block {
        if number < flags.len() {
            flags[number] = true;
        }
    }
}

/// Flags the block type of an instance, if it counts: always, or only if its name is called.
fn flag_instance(calls: bool, called: &Names, instance: &Instance, flags: &mut Vec<bool>)
    ensures { flags.new.items
        ≡ flag_all flags.old.items
        (number_of (not calls || is_among called.now instance.now.name) instance.now.of) }
{
    if !calls || is_among(called, &instance.name) {
        flag_block(flags, instance.of);
    }
}

/// Flags the block types of instances: of all, or of those alone whose names are called.
fn flag_instances(calls: bool, called: &Names, list: &[Instance], flags: &mut Vec<bool>)
    ensures { flags.new.items
        ≡ flag_all flags.old.items
        (numbers_of (λ name. not calls || is_among called.now name) list.now) }
{
    for instance in list {
        flag_instance(calls, called, instance, flags);
    }
}

/// Flags the block types that a routine asks for.
fn flag_asked(
    alloc: Global,
    calls: bool,
    routine: &Routine,
    flags: &mut Vec<bool>,
) -> Result<(), AllocError>
    ensures { IfOk result (λ _. flags.new.items
        ≡ flag_asked calls flags.old.items (view_routine routine.now)) }
{
    let called = called_in(alloc, &routine.body)?;
    flag_instances(calls, &called, &routine.instances, flags);
    Ok(())
}

/// Flags the block types that programs ask for.
fn flag_programs(
    alloc: Global,
    calls: bool,
    programs: &[Routine],
    flags: &mut Vec<bool>,
) -> Result<(), AllocError>
    ensures { IfOk result (λ _. flags.new.items
        ≡ flag_programs calls flags.old.items (map view_routine programs.now)) }
{
    for program in programs {
        flag_asked(alloc, calls, program, flags)?;
    }
    Ok(())
}

/// Flags the block types that the one of a number asks for, if it is flagged.
fn flag_onward(
    alloc: Global,
    calls: bool,
    blocks: &[Routine],
    number: usize,
    flags: &mut Vec<bool>,
) -> Result<(), AllocError>
    ensures { IfOk result (λ _. flags.new.items
        ≡ flag_onward calls (map view_routine blocks.now) number flags.old.items) }
{
    if !flagged(flags, number) {
        return Ok(());
    }
    match blocks.get(number) {
        Some(block) => flag_asked(alloc, calls, block, flags),
        None => Ok(()),
    }
}

/// Flags the block types that flagged ones ask for, the last of an order first.
fn flag_back(
    alloc: Global,
    calls: bool,
    blocks: &[Routine],
    order: &[usize],
    flags: &mut Vec<bool>,
) -> Result<(), AllocError>
    ensures { IfOk result (λ _. flags.new.items
        ≡ flag_back calls (map view_routine blocks.now) order.now flags.old.items) }
{
    let mut left = order.len();
    while 0 < left {
        left -= 1;
        flag_onward(alloc, calls, blocks, order[left], flags)?;
    }
    Ok(())
}

/// A flag for each block type, which is set if the programs reach it: through instances, or through calls alone. Each body is gone through once.
pub fn reached(
    alloc: Global,
    calls: bool,
    programs: &[Routine],
    blocks: &[Routine],
    order: &[usize],
) -> Result<Vec<bool>, AllocError>
    ensures { IfOk result (λ flags. flags.items
        ≡ reached calls (map view_routine programs.now) (map view_routine blocks.now) order.now) }
{
    let mut flags = vec![in alloc; false; blocks.len()]?;
    flag_programs(alloc, calls, programs, &mut flags)?;
    flag_back(alloc, calls, blocks, order, &mut flags)?;
    Ok(flags)
}
