//! What a body weighs, up to where its measure stops.

ghost use Rattle.std.specs.Prelude.{◌≡◌, ◌+◌, ◌*◌, min, map};
ghost use Rattle.std.specs.Option.{option_map_or};
ghost use Rattle.st_tree.specs.View.{view_expr, view_argument, view_stmt, view_body, view_branches, view_choices};
ghost use Rattle.st_tree.specs.Costs.{expr_cost, tests_cost, labels_cost, arguments_cost};
ghost use Rattle.logic_limits.specs.Counts.{instance_weight};
ghost use Rattle.logic_limits.specs.Measures.{last_of, weight_at, weight_of_name};
ghost use Rattle.logic_limits.specs.Weighed.{body_weight, stmt_weight, branches_weight, choices_weight};

use crate::instances::Instances;
use crate::measures::{Counts, Measure};
use crate::stopping::{add, count, multiply};
use logic_source::BlockRef;
use plant_types::Text;
use st_tree::{Argument, Branch, Choice, Expr, Stmt};

/// By what a routine's body is weighed: the measure, the routine's instances, and the counts of the block types by number.
#[derive(Drop)]
pub struct Scale<'a> {
    pub measure: Measure,
    pub instances: &'a Instances,
    pub table: &'a [Counts],
}

/// What the body of a block weighs: a standard block 1.
fn weigh_block(measure: Measure, table: &[Counts], block: BlockRef) -> u64
    ensures { result ≡ instance_weight (weight_at measure table.now) block }
{
    match block {
        BlockRef::Ton | BlockRef::Tof | BlockRef::RTrig => 1,
        BlockRef::Declared(number) => match table.get(number) {
            Some(counts) => measure.of(*counts),
            None => 0,
        },
    }
}

/// What the body of the instance of a name weighs; 0 for a name of none.
fn weigh_called(scale: &Scale<'_>, name: &Text) -> u64
    ensures { result
        ≡ weight_of_name scale.now.measure scale.now.table.now scale.now.instances.now.names
        scale.now.instances.now.blocks.items name.now }
{
    match scale.instances.find(name) {
        Some(block) => weigh_block(scale.measure, scale.table, block),
        None => 0,
    }
}

fn weigh_expr(last: u64, expr: &Expr<Text>) -> u64
    ensures { result ≡ min (expr_cost (view_expr expr.now)) last }
{
    match expr {
        Expr::Literal(_) | Expr::Read(_) | Expr::Output(_, _) => add(last, 1, 0),
        Expr::Element(_, _, index) => add(last, 2, weigh_expr(last, index)),
        Expr::Unary(_, a) => add(last, 1, weigh_expr(last, a)),
        Expr::Binary(_, a, b) => {
            let left = weigh_expr(last, a);
            let right = weigh_expr(last, b);
            add(last, add(last, 1, left), right)
        }
    }
}

fn weigh_arguments(last: u64, arguments: &[Argument<Text>]) -> u64
    ensures { result ≡ min (arguments_cost (map view_argument arguments.now)) last }
{
    let mut total = 0;
    for argument in arguments {
        let weight = match argument {
            Argument::Input(_, expr) => add(last, 1, weigh_expr(last, expr)),
            Argument::Output(_, _) => 1,
        };
        total = add(last, total, weight);
    }
    total
}

fn weigh_tests(last: u64, branches: &[Branch<Text>]) -> u64
    ensures { result ≡ min (tests_cost (view_branches branches.now)) last }
{
    let mut total = 0;
    for branch in branches {
        total = add(last, total, weigh_expr(last, &branch.test));
    }
    total
}

/// What the labels of a CASE weigh: each 1, a range too.
fn weigh_labels(last: u64, choices: &[Choice<Text>]) -> u64
    ensures { result ≡ min (labels_cost (view_choices choices.now)) last }
{
    let mut total = 0;
    for choice in choices {
        total = add(last, total, count(last, choice.labels.len()));
    }
    total
}

/// What a CASE weighs without its bodies.
fn weigh_selection(last: u64, selector: &Expr<Text>, choices: &[Choice<Text>]) -> u64
    ensures { result
        ≡ min (1 + expr_cost (view_expr selector.now) + labels_cost (view_choices choices.now)) last }
{
    let selected = weigh_expr(last, selector);
    let labels = weigh_labels(last, choices);
    add(last, add(last, 1, selected), labels)
}

/// What a FOR weighs, by its turns and the weight of its body.
#[tactic(auto, using(crate::proofs::Capping::product_on))]
fn weigh_turns(last: u64, turns: u64, body: u64) -> u64
    ensures { result ≡ min (2 + turns * (3 + body)) last }
{
    add(last, 2, multiply(last, turns, add(last, 3, body)))
}

/// What a body weighs.
#[cycle(weigh)]
pub fn weigh_body(scale: &Scale<'_>, body: &[Stmt<Text>]) -> u64
    ensures { result ≡ min (body_weight scale.now (view_body body.now)) (last_of scale.now.measure) }
{
    let last = scale.measure.last();
    let mut total = 0;
    for stmt in body {
        total = add(last, total, weigh_stmt(scale, stmt));
    }
    total
}

#[cycle(weigh)]
#[tactic(auto, using(crate::proofs::Capping::repeated, crate::proofs::Capping::joined_on))]
fn weigh_stmt(scale: &Scale<'_>, stmt: &Stmt<Text>) -> u64
    ensures { result ≡ min (stmt_weight scale.now (view_stmt stmt.now)) (last_of scale.now.measure) }
{
    let last = scale.measure.last();
    match stmt {
        Stmt::Empty(_) => add(last, 1, 0),
        Stmt::Assign(_, _, expr) => add(last, 1, weigh_expr(last, expr)),
        Stmt::Store { index, value, .. } => {
            let at = weigh_expr(last, index);
            let stored = weigh_expr(last, value);
            add(last, add(last, 2, at), stored)
        }
        Stmt::Call(_, name, arguments) => {
            let given = weigh_arguments(last, arguments);
            let called = weigh_called(scale, name);
            add(last, add(last, 1, given), called)
        }
        Stmt::If(_, branches, last_body) => {
            let tests = weigh_tests(last, branches);
            let inside = weigh_branches(scale, branches);
            let otherwise = weigh_body(scale, last_body);
            let joined = scale.measure.join(inside, otherwise);
            add(last, add(last, 1, tests), joined)
        }
        Stmt::Case(_, selector, choices, last_body) => {
            let selected = weigh_selection(last, selector, choices);
            let inside = weigh_choices(scale, choices);
            let otherwise = weigh_body(scale, last_body);
            let joined = scale.measure.join(inside, otherwise);
            add(last, selected, joined)
        }
        Stmt::For {
            from,
            to,
            by,
            body,
            ..
        } => {
            let turns = scale.measure.turns(from, to, by);
            weigh_turns(last, turns, weigh_body(scale, body))
        }
    }
}

/// What the bodies of an IF's branches weigh together.
#[cycle(weigh)]
fn weigh_branches(scale: &Scale<'_>, branches: &[Branch<Text>]) -> u64
    ensures { result
        ≡ min (branches_weight scale.now (view_branches branches.now)) (last_of scale.now.measure) }
{
    let mut total = 0;
    for branch in branches {
        total = scale.measure.join(total, weigh_body(scale, &branch.body));
    }
    total
}

/// What the bodies of a CASE's choices weigh together.
#[cycle(weigh)]
fn weigh_choices(scale: &Scale<'_>, choices: &[Choice<Text>]) -> u64
    ensures { result
        ≡ min (choices_weight scale.now (view_choices choices.now)) (last_of scale.now.measure) }
{
    let mut total = 0;
    for choice in choices {
        total = scale.measure.join(total, weigh_body(scale, &choice.body));
    }
    total
}
