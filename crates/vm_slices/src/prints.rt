//! Prints of instructions, by which code is compared.

ghost use Rattle.std.specs.Prelude.{◌≡◌, ◌↔◌, ◌++◌, ◌∷◌, [], map, IfOk, IsTrue};
ghost use Rattle.std.specs.List.{flat_map};
ghost use Rattle.acc_vm.specs.Operands.{listed};
ghost use Rattle.vm_slices.specs.Prints.{ArePlacesOf, ArePrintsOf, HaveSameItems, unary_number, binary_number, with_kinds, with_numbers, with_literals, kinds_of, numbers_of, literals_of, firsts, step_of, told_of, counts_of};

use acc_vm::{Code, FlatInstr, Named, Operation, Row};
use plant_types::Place;
use st_tree::{Binary, Unary};
use std::alloc::{AllocError, Global};

/// The number of an operator with one operand.
fn unary_print(op: Unary) -> u8
    ensures { result ≡ unary_number op }
{
    match op {
        Unary::Not => 0,
        Unary::Negate => 1,
        Unary::NegateTime => 2,
    }
}

/// The number of an operator with two operands.
fn binary_print(op: Binary) -> u8
    ensures { result ≡ binary_number op }
{
    match op {
        Binary::And => 0,
        Binary::Xor => 1,
        Binary::Or => 2,
        Binary::Equal => 3,
        Binary::Unequal => 4,
        Binary::Less => 5,
        Binary::Greater => 6,
        Binary::AtMost => 7,
        Binary::AtLeast => 8,
        Binary::Add => 9,
        Binary::AddTime => 10,
        Binary::Subtract => 11,
        Binary::SubtractTime => 12,
        Binary::Multiply => 13,
        Binary::Divide => 14,
        Binary::Mod => 15,
    }
}

/// The places of a code, one behind another: for each the step from the one before it, and the numbers of those that no step tells.
#[derive(Drop)]
struct PlacePrints {
    steps: Vec<u8>,
    told: Vec<u32>,
}

/// The prints of a code's instructions and its places, one behind another. Each instruction has its own number, and then those that it has: the numbers of
/// its operators stand behind its own, those of slots, clocks and targets in a list, and literals in another. Lists of numbers are compared several at once.
#[derive(Drop)]
pub(crate) struct Prints {
    kinds: Vec<u8>,
    numbers: Vec<u32>,
    literals: Vec<i64>,
    places: PlacePrints,
}

/// Writes an item behind others, if it is there.
#[inline(always)]
pub(crate) fn add<T: Drop>(items: &mut Vec<T>, item: Option<T>) -> Result<(), AllocError>
    ensures { IfOk result (λ _. items.new.items ≡ items.old.items ++ listed item) }
{
    if let Some(item) = item {
        items.push(item)?;
    }
    Ok(())
}

/// The number of an operator with one operand, if it is there.
#[inline(always)]
fn unary_kind(op: Option<Unary>) -> Option<u8>
    ensures { listed result ≡ map unary_number (listed op) }
{
    match op {
        Some(op) => Some(unary_print(op)),
        None => None,
    }
}

/// The number of an operator with two operands, if it is there.
#[inline(always)]
fn binary_kind(op: Option<Binary>) -> Option<u8>
    ensures { listed result ≡ map binary_number (listed op) }
{
    match op {
        Some(op) => Some(binary_print(op)),
        None => None,
    }
}

/// Writes the number of an instruction and those of its operators behind others.
#[inline(always)]
fn add_kinds(kinds: &mut Vec<u8>, of: &Operation) -> Result<(), AllocError>
    ensures { IfOk result (λ _. kinds.new.items ≡ with_kinds kinds.old.items of.now) }
{
    kinds.push(of.opcode)?;
    add(kinds, unary_kind(of.unary))?;
    add(kinds, binary_kind(of.binary.0))?;
    add(kinds, binary_kind(of.binary.1))
}

/// The first slot of a row, if it is there.
#[inline(always)]
fn first_of(row: Option<Row>) -> Option<u32>
    ensures { listed result ≡ firsts (listed row) }
{
    match row {
        Some(row) => Some(row.first),
        None => None,
    }
}

/// Writes the numbers of an instruction's slots, rows, clocks and targets behind others.
#[inline(always)]
fn add_numbers(numbers: &mut Vec<u32>, named: &Named, target: Option<u32>) -> Result<(), AllocError>
    ensures { IfOk result (λ _. numbers.new.items ≡ with_numbers numbers.old.items named.now target) }
{
    add(numbers, named.reads.0)?;
    add(numbers, named.reads.1)?;
    add(numbers, named.write)?;
    add(numbers, first_of(named.row_read))?;
    add(numbers, first_of(named.row_written))?;
    add(numbers, named.clock)?;
    add(numbers, target)
}

/// Writes the literals of an instruction behind others.
#[inline(always)]
fn add_literals(literals: &mut Vec<i64>, of: &Operation) -> Result<(), AllocError>
    ensures { IfOk result (λ _. literals.new.items ≡ with_literals literals.old.items of.now) }
{
    add(literals, of.literals.0)?;
    add(literals, of.literals.1)?;
    add(literals, of.literals.2)
}

/// Writes the print of an instruction behind others.
fn add_print(prints: &mut Prints, i: &FlatInstr) -> Result<(), AllocError>
    ensures kinds { IfOk result (λ _. prints.new.kinds.items
        ≡ prints.old.kinds.items ++ kinds_of i.now) }
    ensures numbers { IfOk result (λ _. prints.new.numbers.items
        ≡ prints.old.numbers.items ++ numbers_of i.now) }
    ensures literals { IfOk result (λ _. prints.new.literals.items
        ≡ prints.old.literals.items ++ literals_of i.now) }
    ensures places { prints.new.places ≡ prints.old.places }
{
    let named = i.named();
    let of = i.operation();
    add_kinds(&mut prints.kinds, &of)?;
    add_numbers(&mut prints.numbers, &named, of.target)?;
    add_literals(&mut prints.literals, &of)?;
    Ok(())
}

/// The step from a place to the next one: how many statements of the same body that lies further on, or 255 where it lies elsewhere or far.
fn step(last: Place, place: Place) -> u8
    ensures { result ≡ step_of last place }
{
    if last.path != place.path || place.statement < last.statement {
        return 255;
    }
    (place.statement - last.statement).min(255) as u8
}

/// Writes a place behind others, of which one is the last.
fn add_place(prints: &mut PlacePrints, last: Place, place: Place) -> Result<(), AllocError>
    ensures steps { IfOk result (λ _. prints.new.steps.items
        ≡ prints.old.steps.items ++ (step_of last place ∷ [])) }
    ensures told { IfOk result (λ _. prints.new.told.items
        ≡ prints.old.told.items ++ told_of (step_of last place) place) }
{
    let step = step(last, place);
    prints.steps.push(step)?;
    if step == 255 {
        prints.told.push(place.path)?;
        prints.told.push(place.statement)?;
    }
    Ok(())
}

/// The prints of places.
fn place_prints(alloc: Global, places: &[Place]) -> Result<PlacePrints, AllocError>
    ensures { IfOk result (ArePlacesOf places.now) }
{
    let mut prints = PlacePrints {
        steps: Vec::new(alloc),
        told: Vec::new(alloc),
    };
    let mut last = Place {
        path: 0,
        statement: 0,
    };
    for place in places {
        add_place(&mut prints, last, *place)?;
        last = *place;
    }
    Ok(prints)
}

/// The prints of instructions, and places.
pub(crate) fn prints_of(
    alloc: Global,
    instrs: &[FlatInstr],
    places: &[Place],
) -> Result<Prints, AllocError>
    ensures { IfOk result (ArePrintsOf instrs.now places.now) }
{
    let mut prints = Prints {
        kinds: Vec::new(alloc),
        numbers: Vec::new(alloc),
        literals: Vec::new(alloc),
        places: place_prints(alloc, places)?,
    };
    for instr in instrs {
        add_print(&mut prints, instr)?;
    }
    Ok(prints)
}

/// Whether two lists of numbers are the same. It has neither an early exit nor a branch, so that several are compared at once.
pub(crate) fn same_values(a: &[i64], b: &[i64]) -> bool
    ensures { IsTrue result ↔ (a.now ≡ b.now) }
{
    if a.len() != b.len() {
        return false;
    }
    let mut same = true;
    for (i, value) in a.iter().enumerate() {
        same &= *value == b[i];
    }
    same
}

pub(crate) fn same_prints(a: &Prints, b: &Prints) -> bool
    ensures { IsTrue result ↔ HaveSameItems a.now b.now }
{
    a.kinds.as_slice() == b.kinds.as_slice()
        && a.numbers.as_slice() == b.numbers.as_slice()
        && same_values(a.literals.as_slice(), b.literals.as_slice())
        && a.places.steps.as_slice() == b.places.steps.as_slice()
        && a.places.told.as_slice() == b.places.told.as_slice()
}

/// The numbers that are kept of a code.
#[derive(Clone, Copy, PartialEq, Eq, Drop)]
pub(crate) struct Counts {
    paths: usize,
    values: usize,
    clocks: usize,
    stack: usize,
    cost: u64,
}

pub(crate) fn counted(code: &Code) -> Counts
    ensures { result ≡ counts_of code.now }
{
    Counts {
        paths: code.paths(),
        values: code.values(),
        clocks: code.clocks(),
        stack: code.stack(),
        cost: code.cost(),
    }
}

/// Whether the numbers of two codes are the same.
pub(crate) fn same_counts(a: Counts, b: Counts) -> bool
    ensures { IsTrue result ↔ (a ≡ b) }
{
    a == b
}
