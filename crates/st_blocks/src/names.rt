//! Block types by name as numbers, in their order of text.

ghost use Rattle.std.specs.Prelude.{◌≡◌, ℕ, List, Some, None, OnOk, IfOk, if◌then◌else◌, map, filter, slice_get};
ghost use Rattle.indexmap.specs.IndexMap.{get};
ghost use Rattle.plant_types.specs.Words.{folded, same_word};
ghost use Rattle.st_blocks.specs.Names.{IsNaming, found_or, number, is_first, numbers_at, row_at, IsGraph};

use crate::blocks::Block;
use crate::word::Word;
use indexmap::IndexMap;
use std::alloc::{AllocError, Global};

/// Notes the number of a name, unless it has one.
fn add_name<'a>(
    names: &mut IndexMap<Word<'a>, usize>,
    name: &'a str,
    number: usize,
) -> Result<(), AllocError>
    ensures { OnOk result
        ((word : List ℕ)
        → get same_word names.new word
        ≡ found_or (get same_word names.old word)
        (if same_word word name.now then Some number else None)) }
{
    if names.contains_key(&Word::new(name)) {
        return Ok(());
    }
    names.insert(Word::new(name), number)?;
    Ok(())
}

/// The number of each block type's name: that of the first which has it.
pub fn names_of<'a>(
    alloc: Global,
    blocks: &[Block<'a>],
) -> Result<IndexMap<Word<'a>, usize>, AllocError>
    ensures { IfOk result (λ names. IsNaming blocks.now (get same_word names)) }
{
    let mut names = IndexMap::new(alloc);
    for i in 0..blocks.len() {
        add_name(&mut names, blocks[i].name(), i)?;
    }
    Ok(names)
}

/// The number of the first block type of a name; that of a standard block, or of none, is behind all.
fn number_of<'a>(names: &IndexMap<Word<'a>, usize>, blocks: &[Block<'a>], word: &'a str) -> usize
    requires { IsNaming blocks.now (get same_word names.now) }
    ensures { result ≡ number blocks.now (folded word.now) }
{
    let count = blocks.len();
    let found = names.get(&Word::new(word)).copied();
    found.unwrap_or(count)
}

/// Whether a block type is the first of its name.
fn is_first<'a>(names: &IndexMap<Word<'a>, usize>, blocks: &[Block<'a>], a: usize) -> bool
    requires { IsNaming blocks.now (get same_word names.now) }
    ensures { result ≡ is_first blocks.now a }
{
    match blocks.get(a) {
        Some(block) => number_of(names, blocks, block.name()) == a,
        None => false,
    }
}

fn numbers_of<'a>(
    alloc: Global,
    names: &IndexMap<Word<'a>, usize>,
    blocks: &[Block<'a>],
    words: &[&'a str],
) -> Result<Vec<usize>, AllocError>
    requires { IsNaming blocks.now (get same_word names.now) }
    ensures { IfOk result (λ numbers. numbers.items
        ≡ map (λ word. number blocks.now (folded word.now)) words.now) }
{
    let mut numbers = Vec::new(alloc);
    for word in words {
        numbers.push(number_of(names, blocks, *word))?;
    }
    Ok(numbers)
}

/// The numbers of a block type's instances.
fn instances_of<'a>(
    alloc: Global,
    names: &IndexMap<Word<'a>, usize>,
    blocks: &[Block<'a>],
    a: usize,
) -> Result<Vec<usize>, AllocError>
    requires { IsNaming blocks.now (get same_word names.now) }
    ensures { IfOk result (λ row. row.items ≡ numbers_at blocks.now (slice_get blocks.now a)) }
{
    match blocks.get(a) {
        Some(block) => numbers_of(alloc, names, blocks, block.instances()),
        None => Ok(Vec::new(alloc)),
    }
}

/// The numbers of a block type's instances; none for one whose name an earlier one has.
fn row_of<'a>(
    alloc: Global,
    names: &IndexMap<Word<'a>, usize>,
    blocks: &[Block<'a>],
    a: usize,
) -> Result<Vec<usize>, AllocError>
    requires { IsNaming blocks.now (get same_word names.now) }
    ensures { IfOk result (λ row. row.items ≡ row_at blocks.now a) }
{
    if is_first(names, blocks, a) {
        instances_of(alloc, names, blocks, a)
    } else {
        Ok(Vec::new(alloc))
    }
}

/// The rows of the block types, and behind them the empty one of the standard blocks.
pub fn graph_of<'a>(
    alloc: Global,
    names: &IndexMap<Word<'a>, usize>,
    blocks: &[Block<'a>],
) -> Result<Vec<Vec<usize>>, AllocError>
    requires { IsNaming blocks.now (get same_word names.now) }
    ensures { IfOk result (λ graph. IsGraph blocks.now graph.items) }
{
    let mut graph = Vec::new(alloc);
    for a in 0..blocks.len() {
        graph.push(row_of(alloc, names, blocks, a)?)?;
    }
    graph.push(Vec::new(alloc))?;
    Ok(graph)
}

/// Those of the numbers whose block type is the first of its name, in their order.
pub fn firsts<'a>(
    alloc: Global,
    names: &IndexMap<Word<'a>, usize>,
    blocks: &[Block<'a>],
    numbers: &[usize],
) -> Result<Vec<usize>, AllocError>
    requires { IsNaming blocks.now (get same_word names.now) }
    ensures { IfOk result (λ order. order.items ≡ filter (is_first blocks.now) numbers.now) }
{
    let mut order = Vec::new(alloc);
    for a in numbers {
        if is_first(names, blocks, *a) {
            order.push(*a)?;
        }
    }
    Ok(order)
}
