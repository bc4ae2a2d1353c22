//! An order of numbers in which each stands after those to which it leads, level by level: first those that lead nowhere, then those
//! from which no chain has two steps, and so on.

ghost use Rattle.std.specs.Prelude.{◌<◌, ◌≡◌, ◌++◌, IfOk, get_or, map, false, true, length, replicate, not, ◌&&◌, if◌then◌else◌, [], ◌∷◌};
ghost use Rattle.std.specs.List.{list_any};
ghost use Rattle.st_blocks.specs.Graphs.{InRange, LevelsOrder};
ghost use Rattle.st_blocks.specs.Ranks.{ranked};

use std::alloc::{AllocError, Global};

fn any_marked(marks: &[bool], row: &[usize]) -> bool
    ensures { result ≡ list_any (λ w. get_or marks.now w false) row.now }
{
    for w in row {
        if marks.get(*w).copied().unwrap_or(false) {
            return true;
        }
    }
    false
}

/// Marks the numbers from which there is a chain of one step more.
fn longer(alloc: Global, graph: &[Vec<usize>], chains: &[bool]) -> Result<Vec<bool>, AllocError>
    ensures { IfOk result (λ more. more.items
        ≡ map (λ row. list_any (λ w. get_or chains.now w false) row.items) graph.now) }
{
    let mut more = Vec::new(alloc);
    for row in graph {
        more.push(any_marked(chains, row))?;
    }
    Ok(more)
}

/// Whether a number is marked.
fn has_mark(marks: &[bool]) -> bool
    ensures { result ≡ list_any (λ mark. mark) marks.now }
{
    for mark in marks {
        if *mark {
            return true;
        }
    }
    false
}

/// Adds a number if there is a chain from it and none of one step more.
fn add_where(
    order: &mut Vec<usize>,
    chains: &[bool],
    more: &[bool],
    a: usize,
) -> Result<(), AllocError>
    requires chain { a < length chains.now }
    requires more { a < length more.now }
    ensures { IfOk result (λ _. order.new.items
        ≡ order.old.items
        ++ (if get_or chains.now a false && not (get_or more.now a false) then a ∷ [] else [])) }
{
    let chain = chains.get(a).copied().unwrap_or(false);
    let longer = more.get(a).copied().unwrap_or(false);
    if chain && !longer {
        order.push(a)?;
    }
    Ok(())
}

/// Adds the numbers from which there is a chain and none of one step more.
fn add_ranked(order: &mut Vec<usize>, chains: &[bool], more: &[bool]) -> Result<(), AllocError>
    requires { length chains.now ≡ length more.now }
    ensures { IfOk result (λ _. order.new.items ≡ order.old.items ++ ranked 0 chains.now more.now) }
{
    for a in 0..chains.len() {
        add_where(order, chains, more, a)?;
    }
    Ok(())
}

/// Marks for so many numbers, all set.
fn all_marks(alloc: Global, count: usize) -> Result<Vec<bool>, AllocError>
    ensures { IfOk result (λ marks. marks.items ≡ replicate count true) }
{
    Ok(vec![in alloc; true; count]?)
}

/// The numbers in an order in which each stands after those to which it leads; `None` if there is a chain of so many steps.
pub fn order_of(
    alloc: Global,
    graph: &[Vec<usize>],
    limit: usize,
) -> Result<Option<Vec<usize>>, AllocError>
    requires { InRange graph.now (length graph.now) }
    ensures { IfOk result (λ order. LevelsOrder graph.now limit order) }
{
    let mut order = Vec::new(alloc);
    let mut chains = all_marks(alloc, graph.len())?;
    for _step in 0..limit {
        let more = longer(alloc, graph, &chains)?;
        add_ranked(&mut order, &chains, &more)?;
        chains = more;
    }
    if has_mark(&chains) {
        return Ok(None);
    }
    Ok(Some(order))
}
