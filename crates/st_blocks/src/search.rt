//! A search of what a number leads to.

ghost use Rattle.std.specs.Prelude.{◌≡◌, ◌<◌, ◌↔◌, IfOk, IsTrue, length, replicate, false};
ghost use Rattle.std.specs.List.{All};
ghost use Rattle.st_blocks.specs.Chains.{Reaches};
ghost use Rattle.st_blocks.specs.Graphs.{InRange, next_of};
ghost use Rattle.st_blocks.specs.Search.{seen_all};

use std::alloc::{AllocError, Global};

/// Marks for so many numbers, none set.
fn no_marks(alloc: Global, count: usize) -> Result<Vec<bool>, AllocError>
    ensures { IfOk result (λ marks. marks.items ≡ replicate count false) }
{
    Ok(vec![in alloc; false; count]?)
}

/// Marks each number of a row that isn't marked, and lists it.
fn visit(marks: &mut Vec<bool>, found: &mut Vec<usize>, row: &[usize]) -> Result<(), AllocError>
    requires { All (λ w. w < length marks.old.items) row.now }
    ensures { IfOk result (λ _. (marks.new.items, found.new.items)
        ≡ seen_all row.now (marks.old.items, found.old.items)) }
{
    for w in row {
        if !marks[*w] {
            marks[*w] = true;
            found.push(*w)?;
        }
    }
    Ok(())
}

/// Marks and lists the numbers to which one leads by a step.
fn go_on(
    graph: &[Vec<usize>],
    marks: &mut Vec<bool>,
    found: &mut Vec<usize>,
    at: usize,
) -> Result<(), AllocError>
    requires range { InRange graph.now (length marks.old.items) }
    requires at { at < length graph.now }
    ensures { IfOk result (λ _. (marks.new.items, found.new.items)
        ≡ seen_all (next_of graph.now at) (marks.old.items, found.old.items)) }
{
    visit(marks, found, &graph[at])
}

/// Whether a list of numbers leads from one to another. Each row is read once.
pub fn leads(
    alloc: Global,
    graph: &[Vec<usize>],
    from: usize,
    to: usize,
) -> Result<bool, AllocError>
    requires range { InRange graph.now (length graph.now) }
    requires from { from < length graph.now }
    requires to { to < length graph.now }
    ensures { IfOk result (λ found. IsTrue found ↔ Reaches (next_of graph.now) from to) }
{
    let mut marks = no_marks(alloc, graph.len())?;
    let mut found = Vec::new(alloc);
    go_on(graph, &mut marks, &mut found, from)?;
    let mut i = 0;
    while i < found.len() {
        let at = found[i];
        go_on(graph, &mut marks, &mut found, at)?;
        i += 1;
    }
    Ok(marks[to])
}
