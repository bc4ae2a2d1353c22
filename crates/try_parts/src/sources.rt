//! A source: its logic (`logic_source`), what it costs and the limits that it may be past (`logic_limits`).

ghost use Rattle.std.specs.Prelude.{[], ◌∷◌, IfSome};
ghost use Rattle.logic_source.specs.Blocks.{AreBelow};
ghost use Rattle.logic_source.specs.Source.{source_of};
ghost use Rattle.st_sources.specs.Sources.{HaveUnits};

use crate::runs::push_judged;
use logic_limits::{LimitFault, limits};
use logic_source::{BlockRef, Logic, Routine, logic_of, order_is_of_source};
use st_sources::units;
use st_typing::{Typed, check};
use std::alloc::{AllocError, Global};
use try_text::Page;

/// The name of what an instance is of; a block type's number.
fn of_text(of: BlockRef) -> &'static str {
    match of {
        BlockRef::Ton => ":TON",
        BlockRef::Tof => ":TOF",
        BlockRef::RTrig => ":R_TRIG",
        BlockRef::Declared(0) => ":0",
        BlockRef::Declared(_) => ":1",
    }
}

/// Adds a routine: its name, its variables and its instances.
fn push_routine(page: &mut Page, routine: &Routine) {
    page.add(routine.name.as_str());
    for local in &routine.locals {
        page.word(local.name.as_str());
    }
    for instance in &routine.instances {
        page.word(instance.name.as_str());
        page.add(of_text(instance.of));
    }
    page.add("; ");
}

/// Adds the block types and programs of a logic.
fn push_logic(page: &mut Page, logic: &Logic) {
    for block in &logic.blocks {
        push_routine(page, block);
    }
    for program in &logic.programs {
        push_routine(page, program);
    }
}

/// Adds what each program costs; `?` where the source is past a limit.
fn push_costs(alloc: Global, page: &mut Page, logic: &Logic, order: &[usize])
    requires { AreBelow (source_of logic.now).blocks order.now }
{
    match limits(alloc, logic, order) {
        Ok(costs) => {
            for cost in &costs {
                page.number(i128::from(*cost));
            }
        }
        Err(LimitFault::Memory) => page.refuse(),
        Err(_) => page.add("?"),
    }
}

/// Adds what the programs of a logic cost, and what it has before, where that is asked for.
fn push_seen(alloc: Global, page: &mut Page, word: &str, logic: &Logic, order: &[usize])
    requires { AreBelow (source_of logic.now).blocks order.now }
{
    if word == "look" {
        push_logic(page, logic);
    }
    push_costs(alloc, page, logic, order);
}

/// Adds what there is to see of the logic of a source. The logic is let go here alone.
fn push_logic_of(
    alloc: Global,
    page: &mut Page,
    word: &str,
    typed: Typed,
) -> Result<(), AllocError> {
    order_is_of_source();
    let (logic, order) = logic_of(alloc, typed)?;
    push_seen(alloc, page, word, &logic, &order);
    drop(logic);
    Ok(())
}

/// The units of a source, if it has well-formed ones and memory was there.
pub fn typed_of(alloc: Global, source: &str) -> Option<Typed>
    ensures { IfSome result (HaveUnits (source.now ∷ [])) }
{
    let Ok(units) = units(alloc, &[("p.st", source.as_bytes())]) else {
        return None;
    };
    match check(alloc, units) {
        Ok(typed) => Some(typed),
        Err(_) => None,
    }
}

/// Adds what the row's word asks of a source.
pub fn push_source(alloc: Global, page: &mut Page, word: &str, source: &str) {
    let Some(typed) = typed_of(alloc, source) else {
        return page.refuse();
    };
    match word {
        "look" | "cost" => {
            if push_logic_of(alloc, page, word, typed).is_err() {
                page.refuse();
            }
        }
        _ => push_judged(alloc, page, word, source, typed),
    }
}
