//! A rule that each statement of a body of a source keeps.

ghost use Rattle.std.specs.Prelude.{◌≡◌, List, ℕ, Bool, IfOk};
ghost use Rattle.st_tree.specs.Plain.{PlainStmt};
ghost use Rattle.st_tree.specs.View.{view_stmt, view_body};
ghost use Rattle.st_names.specs.Every.{every};

use plant_types::Text;
use st_tree::Stmt;
use std::alloc::{AllocError, Global};

/// A rule of a statement by itself: of its own names and expressions, and not of the statements inside it.
pub trait StatementRule {
    /// Whether a statement keeps the rule.
    ghost rule: { Self → PlainStmt (List ℕ) → Bool };

    /// Whether a statement keeps the rule, whatever is inside it.
    fn keeps(&self, alloc: Global, stmt: &Stmt<Text>) -> Result<bool, AllocError>
        ensures { IfOk result (λ keeps. keeps ≡ rule self.now (view_stmt stmt.now)) };
}

/// The rule of a statement over names.
#[derive(Drop)]
struct Named<'a, R> {
    rule: &'a R,
}

impl<'a, R: StatementRule> st_tree::Rule<Text> for Named<'a, R> {
    ghost rule = { λ named. R.rule named.rule.now };

    fn keeps(&self, alloc: Global, stmt: &Stmt<Text>) -> Result<bool, AllocError> {
        self.rule.keeps(alloc, stmt)
    }
}

/// Whether each statement of a body keeps a rule, and each statement inside one of them.
pub fn every<R: StatementRule>(
    alloc: Global,
    rule: &R,
    body: &[Stmt<Text>],
) -> Result<bool, AllocError>
    ensures { IfOk result (λ keep. keep ≡ every (R.rule rule.now) (view_body body.now)) }
{
    st_tree::every(alloc, &Named { rule }, body)
}
