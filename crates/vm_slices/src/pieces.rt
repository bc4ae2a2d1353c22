//! The pieces of a part's slots, those that stand one after another both in the part and among all, and values that are copied by pieces.

ghost use Rattle.std.specs.Prelude.{◌≡◌, ◌↔◌, ◌<◌, ◌+◌, ◌++◌, ℕ, pos, Some, map, length, slice_get, slice_index_or, IfOk, OnOk, IsTrue};
ghost use Rattle.vm_slices.specs.Pieces.{piece_slots, slots_in, AddsSlot, ArePiecesAt, PutsPiece, HaveOnePlace, PutsPieces};

use std::alloc::{AllocError, Global};

/// A slot and so many more behind it, and the place of its value in the part: those of the others stand behind that.
#[derive(Clone, Copy, Drop)]
pub(crate) struct Piece {
    pub(crate) place: usize,
    pub(crate) first: u32,
    pub(crate) more: u32,
}

/// Whether a slot at a place is the next one behind a piece.
fn continues(last: Piece, place: usize, slot: u32) -> bool
    ensures { IsTrue result
        → (place ≡ last.place + (last.more + 1)) × (slot ≡ last.first + (last.more + 1)) }
{
    place > last.place
        && slot > last.first
        && place - last.place - 1 == last.more as usize
        && slot - last.first - 1 == last.more
}

/// Adds a slot at a place: to the last piece, where it is the next one behind it, and else as a piece of its own.
fn add_slot(pieces: &mut Vec<Piece>, place: usize, slot: u32) -> Result<(), AllocError>
    ensures { IfOk result (λ _. AddsSlot place slot pieces.old.items pieces.new.items) }
{
    let many = pieces.len();
    if many > 0 {
        let last = pieces[many - 1];
        if continues(last, place, slot) {
            pieces[many - 1] = Piece {
                place: last.place,
                first: last.first,
                more: last.more + 1,
            };
            return Ok(());
        }
    }
    pieces.push(Piece {
        place,
        first: slot,
        more: 0,
    })?;
    Ok(())
}

/// The pieces of all slots of a part.
pub(crate) fn pieces_of(alloc: Global, slots: &[u32]) -> Result<Vec<Piece>, AllocError>
    ensures { IfOk result (λ pieces. slots_in pieces.items ≡ slots.now) }
{
    let mut pieces = Vec::new(alloc);
    for (place, slot) in slots.iter().enumerate() {
        add_slot(&mut pieces, place, *slot)?;
    }
    Ok(pieces)
}

/// The pieces of the slots at places of a part.
pub(crate) fn pieces_at(
    alloc: Global,
    places: &[u32],
    slots: &[u32],
) -> Result<Vec<Piece>, AllocError>
    requires { (i p : ℕ) → slice_get places.now i ≡ Some p → p < length slots.now }
    ensures { IfOk result (λ pieces. ArePiecesAt places.now slots.now pieces.items) }
{
    let mut pieces = Vec::new(alloc);
    for place in places {
        let at = *place as usize;
        add_slot(&mut pieces, at, slots[at])?;
    }
    Ok(pieces)
}

/// Writes the values of a piece behind others.
#[inline(always)]
fn add_values(picked: &mut Vec<i64>, piece: Piece, values: &[i64]) -> Result<(), AllocError>
    requires { piece.first + piece.more < length values.now }
    ensures { OnOk result
        (picked.new.items
        ≡ picked.old.items ++ map (λ s. slice_index_or values.now s (pos 0)) (piece_slots piece)) }
{
    let first = piece.first as usize;
    if piece.more == 0 {
        picked.push(values[first])?;
        return Ok(());
    }
    let past = first + piece.more as usize + 1;
    picked.extend_from_slice(&values[first..past])?;
    Ok(())
}

/// Becomes the values of pieces in a row of all values, which are so many.
pub(crate) fn pick_values(
    picked: &mut Vec<i64>,
    many: usize,
    pieces: &[Piece],
    values: &[i64],
) -> Result<(), AllocError>
    requires { (i : ℕ) (q : Piece) → slice_get pieces.now i ≡ Some q
        → q.first + q.more < length values.now }
    ensures { OnOk result
        (picked.new.items ≡ map (λ s. slice_index_or values.now s (pos 0)) (slots_in pieces.now)) }
{
    picked.clear();
    picked.reserve_exact(many)?;
    for piece in pieces {
        add_values(picked, *piece, values)?;
    }
    Ok(())
}

/// Puts the items at the places of a piece into a row, each under its slot.
#[inline(always)]
fn put_piece(items: &[i64], piece: Piece, row: &mut [i64])
    requires there { piece.place + piece.more < length items.now }
    requires room { piece.first + piece.more < length row.old }
    ensures { PutsPiece piece items.now row.old row.new }
{
    let first = piece.first as usize;
    if piece.more == 0 {
        row[first] = items[piece.place];
        return;
    }
    let many = piece.more as usize + 1;
    row[first..first + many].copy_from_slice(&items[piece.place..piece.place + many]);
}

/// Puts the items at the places of pieces into a row, each under its slot.
pub(crate) fn put_pieces(items: &[i64], pieces: &[Piece], row: &mut [i64])
    requires there { (i : ℕ) (q : Piece) → slice_get pieces.now i ≡ Some q
        → q.place + q.more < length items.now }
    requires room { (i : ℕ) (q : Piece) → slice_get pieces.now i ≡ Some q
        → q.first + q.more < length row.old }
    requires apart { HaveOnePlace pieces.now }
    ensures { PutsPieces pieces.now items.now row.old row.new }
{
    for piece in pieces {
        put_piece(items, *piece, row);
    }
}

/// Whether two pieces are the same.
fn same_piece(a: Piece, b: Piece) -> bool
    ensures { IsTrue result ↔ (a ≡ b) }
{
    a.place == b.place && a.first == b.first && a.more == b.more
}

/// Whether two rows of pieces are the same.
pub(crate) fn same_pieces(a: &[Piece], b: &[Piece]) -> bool
    ensures { IsTrue result ↔ (a.now ≡ b.now) }
{
    if a.len() != b.len() {
        return false;
    }
    for (i, piece) in a.iter().enumerate() {
        if !same_piece(*piece, b[i]) {
            return false;
        }
    }
    true
}

/// One number of items.
fn read_items(items: &[i64]) -> i64 {
    let mut all = 0;
    for item in items {
        all ^= *item;
    }
    all
}

/// One number of the items at the places of pieces.
pub(crate) fn read_pieces(items: &[i64], pieces: &[Piece]) -> i64
    requires { (i : ℕ) (q : Piece) → slice_get pieces.now i ≡ Some q
        → q.place + q.more < length items.now }
{
    let mut all = 0;
    for piece in pieces {
        let past = piece.place + piece.more as usize + 1;
        all ^= read_items(&items[piece.place..past]);
    }
    all
}
