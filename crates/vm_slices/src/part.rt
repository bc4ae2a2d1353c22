//! A program's part of the cells: its code by numbers of its own.

ghost use Rattle.std.specs.Prelude.{◌≡◌, ◌≤◌, ◌<◌, ◌^◌, ℕ, Some, length, map, get_or, slice_get, IfOk, OnOk, IsTrue, ◌↔◌};
ghost use Rattle.acc_vm.specs.declared.instr.Instr.{Instr};
ghost use Rattle.acc_vm.specs.Codes.{values_past, clocks_past};
ghost use Rattle.vm_slices.specs.Ascending.{Rises};
ghost use Rattle.vm_slices.specs.Parts.{IsPart, IsPartOf, HasPart, AreSlots, AreClocks, loaded};
ghost use Rattle.vm_slices.specs.Puts.{PutsAt};

use crate::noting::{note_clocks, note_read, note_written};
use crate::pieces::{
    Piece, pick_values, pieces_at, pieces_of, put_pieces, read_pieces, same_pieces,
};
use crate::printed_code::PrintedCode;
use crate::renaming::renamed_all;
use acc_vm::{Code, FlatInstr};
use logic_cells::{Cells, Clock};
use std::alloc::{AllocError, Global};
use std::marker::Model;
use std::mem::replace;

/// The code of a program by the numbers of its part: from 0 on the slots that it names, in ascending order, and the clocks; and the places of the
/// slots that it writes. Values are copied by pieces: those of all slots, and those of the slots that it writes.
pub struct Part {
    code: PrintedCode,
    slots: Vec<u32>,
    written: Vec<u32>,
    clocks: Vec<u32>,
    pieces: Vec<Piece>,
    written_pieces: Vec<Piece>,
}

impl Drop for Part {
    fn drop(self) {
        let Part {
            code: _,
            slots: _,
            written: _,
            clocks: _,
            pieces: _,
            written_pieces: _,
        } = self;
    }
}

impl Model for Part {
    ghost use Rattle.vm_slices.specs.Parts.{PlainPart, IsPart};
    ghost use Rattle.vm_slices.specs.Pieces.{ArePieces};

    ghost Value = { PlainPart };

    ghost view = { λ p. record { code = p.code; slots = p.slots.items; written = p.written.items; clocks = p.clocks.items } };

    ghost invariant = { λ p. IsPart (record { code = p.code; slots = p.slots.items; written = p.written.items; clocks = p.clocks.items }) × ArePieces p.slots.items p.written.items p.pieces.items p.written_pieces.items };
}

/// Notes for each slot its place among slots that rise.
fn give_places(places: &mut [u32], slots: &[u32])
    requires inside { (i s : ℕ) → slice_get slots.now i ≡ Some s → s < length places.old }
    requires few { length slots.now ≤ 2 ^ 32 }
    requires rise { Rises slots.now }
    ensures size { length places.new ≡ length places.old }
    ensures placed { (i s : ℕ) → slice_get slots.now i ≡ Some s → get_or places.new s 0 ≡ i }
{
    for i in 0..slots.len() {
        places[slots[i] as usize] = i as u32;
    }
}

/// The places of slots.
fn places_of(alloc: Global, places: &[u32], slots: &[u32]) -> Result<Vec<u32>, AllocError>
    requires inside { (i s : ℕ) → slice_get slots.now i ≡ Some s → s < length places.now }
    ensures { IfOk result (λ found. found.items ≡ map (λ s. get_or places.now s 0) slots.now) }
{
    let mut found = Vec::with_capacity(alloc, slots.len())?;
    for slot in slots {
        found.push(places[*slot as usize])?;
    }
    Ok(found)
}

/// The slots that instructions name, in ascending order, and the places there of those that they write.
fn named_slots(
    alloc: Global,
    places: &mut [u32],
    instrs: &[FlatInstr],
) -> Result<(Vec<u32>, Vec<u32>), AllocError>
    requires there { (pc : ℕ) (i : Instr) → slice_get instrs.now pc ≡ Some i
        → values_past i ≤ length places.old }
    requires few { length places.old ≤ 2 ^ 32 }
    ensures { IfOk result (λ r. AreSlots instrs.now places.new r.0.items r.1.items) }
{
    let mut slots = Vec::new(alloc);
    note_written(alloc, places, &mut slots, instrs)?;
    let mut wanted = Vec::from_slice(alloc, slots.as_slice())?;
    note_read(alloc, places, &mut slots, instrs)?;
    wanted.sort_unstable();
    slots.sort_unstable();
    give_places(places, &slots);
    let written = places_of(alloc, places, &wanted)?;
    Ok((slots, written))
}

/// The clocks that instructions name.
fn named_clocks(
    alloc: Global,
    places: &mut [u32],
    instrs: &[FlatInstr],
) -> Result<Vec<u32>, AllocError>
    requires there { (pc : ℕ) (i : Instr) → slice_get instrs.now pc ≡ Some i
        → clocks_past i ≤ length places.old }
    requires few { length places.old ≤ 2 ^ 32 }
    ensures { IfOk result (λ clocks. AreClocks instrs.now places.new clocks.items) }
{
    let mut clocks = Vec::new(alloc);
    note_clocks(places, &mut clocks, instrs)?;
    Ok(clocks)
}

/// The part of a code. Two tables are needed, of a number for each slot and for each clock that the code may name; what they hold doesn't matter, and
/// they serve one code after another.
pub fn relocate(
    alloc: Global,
    code: &Code,
    slot_table: &mut [u32],
    clock_table: &mut [u32],
) -> Result<Part, AllocError>
    requires slots { code.now.values ≤ length slot_table.old }
    requires clocks { code.now.clocks ≤ length clock_table.old }
    requires few_slots { length slot_table.old ≤ 2 ^ 32 }
    requires few_clocks { length clock_table.old ≤ 2 ^ 32 }
    ensures { IfOk result (IsPartOf code.now) }
{
    let program = code.instrs();
    let (slots, written) = named_slots(alloc, slot_table, program)?;
    let clocks = named_clocks(alloc, clock_table, program)?;
    let instrs = renamed_all(alloc, slot_table, clock_table, program)?;
    let places = Vec::from_slice(alloc, code.places())?;
    let moved = Code::new(
        instrs,
        places,
        code.paths(),
        slots.len(),
        clocks.len(),
        code.stack(),
        code.cost(),
    );
    let printed = PrintedCode::new(alloc, moved)?;
    let pieces = pieces_of(alloc, &slots)?;
    let written_pieces = pieces_at(alloc, &written, &slots)?;
    Ok(Part {
        code: printed,
        slots,
        written,
        clocks,
        pieces,
        written_pieces,
    })
}

impl Part {
    /// The code by the part's numbers.
    pub fn code(&self) -> &Code
        ensures is { result.now ≡ self.now.code }
        ensures part { IsPart self.now }
    {
        self.code.code()
    }

    /// The slots that the code names, in ascending order.
    pub fn slots(&self) -> &[u32]
        ensures { result.now ≡ self.now.slots }
    {
        self.slots.as_slice()
    }

    /// The places among these of the slots that the code writes.
    pub fn written(&self) -> &[u32]
        ensures is { result.now ≡ self.now.written }
        ensures part { IsPart self.now }
    {
        self.written.as_slice()
    }

    /// The clocks that the code names.
    pub fn clocks(&self) -> &[u32]
        ensures { result.now ≡ self.now.clocks }
    {
        self.clocks.as_slice()
    }

    fn no_cells(&self) -> Cells {
        let alloc = *self.slots.allocator();
        Cells::new(Vec::new(alloc), Vec::new(alloc))
    }

    /// Gives cells the values and clocks that the part's have among all cells. It allocates nothing where they are as many.
    pub fn load(
        &self,
        values: &[i64],
        clocks: &[Clock],
        cells: &mut Cells,
    ) -> Result<(), AllocError>
        requires { HasPart self.now (record { values = values.now; clocks = clocks.now }) }
        ensures { OnOk result
            (cells.new ≡ loaded self.now (record { values = values.now; clocks = clocks.now })) }
    {
        cells.pick(&self.slots()[..0], self.clocks(), values, clocks)?;
        let (mut picked, timers) = replace(cells, self.no_cells()).into_parts();
        let done = pick_values(&mut picked, self.slots.len(), &self.pieces, values);
        *cells = Cells::new(picked, timers);
        done
    }

    /// Puts the values of the slots that the code writes, as they were left in the part's cells, among all values.
    pub fn put_written(&self, left: &Cells, values: &mut [i64])
        requires slots { (i s : ℕ) → slice_get self.now.slots i ≡ Some s → s < length values.old }
        requires many { length self.now.slots ≤ length left.now.values }
        ensures { PutsAt self.now.written self.now.slots left.now.values values.old values.new }
    {
        put_pieces(left.as_slice(), &self.written_pieces, values);
    }

    /// One number of the values of the slots that the code writes, as they were left in the part's cells. It reads no others.
    pub fn read_written(&self, left: &Cells) -> i64
        requires { length self.now.slots ≤ length left.now.values }
    {
        read_pieces(left.as_slice(), &self.written_pieces)
    }

    /// Whether another part has the same slots, and writes the same of them: so where their pieces are the same, which may be far fewer.
    fn same_slots(&self, other: &Part) -> bool
        ensures { IsTrue result
            ↔ ((self.now.slots ≡ other.now.slots) × (self.now.written ≡ other.now.written)) }
    {
        if same_pieces(&self.pieces, &other.pieces)
            && same_pieces(&self.written_pieces, &other.written_pieces)
        {
            return true;
        }
        self.slots.as_slice() == other.slots.as_slice()
            && self.written.as_slice() == other.written.as_slice()
    }

    /// Whether another part is the same.
    pub fn same(&self, other: &Part) -> bool
        ensures { IsTrue result ↔ (self.now ≡ other.now) }
    {
        self.same_slots(other)
            && self.clocks.as_slice() == other.clocks.as_slice()
            && self.code.same(&other.code)
    }
}
