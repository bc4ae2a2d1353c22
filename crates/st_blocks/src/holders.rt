//! The first number that holds itself, in time that grows with the graph.
//!
//! A number that leads to itself does so by steps to numbers of its own component. So only one with a step into its own component is
//! searched from, and the first of these does lead to itself: there is one search. What is needed of the components is that no step
//! leads to a greater one. That is checked, and without it all numbers count as one component, so that each is searched from.

ghost use Rattle.std.specs.Prelude.{◌≡◌, ◌↔◌, ◌<◌, IfOk, IsTrue, MatchResult, length, get_or, nat_lt, nat_eq};
ghost use Rattle.std.specs.List.{list_any};
ghost use Rattle.st_blocks.specs.Chains.{HoldsItself};
ghost use Rattle.st_blocks.specs.Components.{NeverRises};
ghost use Rattle.st_blocks.specs.Graphs.{InRange, next_of, FirstHolder, IsSound, IsGraphFault};

use crate::components::components;
use crate::faults::NestingFault;
use crate::levels::order_of;
use crate::search::leads;
use std::alloc::{AllocError, Global};

/// The component of a number; 0 where there is none.
fn component_at(components: &[usize], a: usize) -> usize
    ensures { result ≡ get_or components.now a 0 }
{
    components.get(a).copied().unwrap_or(0)
}

/// Whether a row has a number of a greater component than this one.
fn any_above(components: &[usize], own: usize, row: &[usize]) -> bool
    ensures { result ≡ list_any (λ w. nat_lt own (get_or components.now w 0)) row.now }
{
    for w in row {
        if own < component_at(components, *w) {
            return true;
        }
    }
    false
}

fn any_within(components: &[usize], own: usize, row: &[usize]) -> bool
    ensures { result ≡ list_any (λ w. nat_eq (get_or components.now w 0) own) row.now }
{
    for w in row {
        if component_at(components, *w) == own {
            return true;
        }
    }
    false
}

/// Whether no step leads to a greater component.
fn never_rises(graph: &[Vec<usize>], components: &[usize]) -> bool
    ensures { IsTrue result ↔ NeverRises graph.now components.now }
{
    for a in 0..graph.len() {
        if any_above(components, component_at(components, a), &graph[a]) {
            return false;
        }
    }
    true
}

/// Numbers of components, to a greater one of which no step leads.
fn falling(alloc: Global, graph: &[Vec<usize>]) -> Result<Vec<usize>, AllocError>
    ensures { IfOk result (λ components. NeverRises graph.now components.items) }
{
    let found = components(alloc, graph)?;
    if never_rises(graph, &found) {
        Ok(found)
    } else {
        Ok(Vec::new(alloc))
    }
}

/// Whether a number holds itself.
fn holds_itself(
    alloc: Global,
    graph: &[Vec<usize>],
    components: &[usize],
    a: usize,
) -> Result<bool, AllocError>
    requires range { InRange graph.now (length graph.now) }
    requires falling { NeverRises graph.now components.now }
    requires within { a < length graph.now }
    ensures { IfOk result (λ holds. IsTrue holds ↔ HoldsItself (next_of graph.now) a) }
{
    if any_within(components, component_at(components, a), &graph[a]) {
        leads(alloc, graph, a, a)
    } else {
        Ok(false)
    }
}

/// The first number that holds itself; `None` if none does.
fn first_holder(alloc: Global, graph: &[Vec<usize>]) -> Result<Option<usize>, AllocError>
    requires { InRange graph.now (length graph.now) }
    ensures { IfOk result (λ first. FirstHolder graph.now first) }
{
    let components = falling(alloc, graph)?;
    for a in 0..graph.len() {
        if holds_itself(alloc, graph, &components, a)? {
            return Ok(Some(a));
        }
    }
    Ok(None)
}

/// The numbers in an order in which each stands after those to which it leads. Fails for the first that holds itself, or else where one has a chain
/// of 16 steps, or if memory is refused.
pub fn judge(alloc: Global, graph: &[Vec<usize>]) -> Result<Vec<usize>, NestingFault>
    requires { InRange graph.now (length graph.now) }
    ensures { MatchResult result (λ order. IsSound graph.now order.items) (IsGraphFault graph.now) }
{
    match order_of(alloc, graph, 16)? {
        Some(order) => Ok(order),
        None => match first_holder(alloc, graph)? {
            Some(a) => Err(NestingFault::HoldsItself(a)),
            None => Err(NestingFault::TooDeep),
        },
    }
}
