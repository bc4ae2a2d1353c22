//! Statements.

ghost use Rattle.std.specs.Prelude.{◌≡◌, ◌∷◌, [], map, ◌<◌};
ghost use Rattle.st_expressions.specs.Outcome.{Returns};
ghost use Rattle.st_expressions.specs.Reading.{all_at, with_first, perhaps_at, is_keyword, after_keyword, expression_at};
ghost use Rattle.st_parser.specs.ReadingStatements.{assigned_at, stored_at, called_at, simple_at, branch_at, branches_at, choice_at, choices_at, otherwise_at, if_at, case_at, bounds_at, header_at, for_at, stmt_at, item_at, sequence_at, body_at, is_statement, is_label};
ghost use Rattle.st_tree.specs.Plain.{for_to};
ghost use Rattle.st_tree.specs.View.{view_expr, view_option, view_stmt, view_body, view_branch, view_choice};

use crate::calls::arguments;
use crate::labels::{is_label, labels};
use plant_types::Text;
use st_expressions::{ParseStop, Reader, expression, unknown_bounds};
use st_lexer::{Keyword, Symbol, TokenKind};
use st_tree::{Branch, Choice, Expr, Stmt};
use std::alloc::Global;

/// How deep a statement may be (this profile).
const DEPTH: u32 = 64;

/// Parses statements, as many as there are.
pub fn statements(alloc: Global, reader: &mut Reader) -> Result<Vec<Stmt<Text>>, ParseStop>
    ensures { Returns (λ b. (view_body b.items, reader.new)) result (body_at reader.old) }
{
    body(alloc, DEPTH, reader)
}

/// Whether a statement or a bare semicolon is next.
fn is_statement(reader: &Reader) -> bool
    ensures { result ≡ is_statement reader.now }
{
    match reader.peek() {
        Some(TokenKind::Word) => true,
        Some(TokenKind::Keyword(Keyword::If)) => true,
        Some(TokenKind::Keyword(Keyword::Case)) => true,
        Some(TokenKind::Keyword(Keyword::For)) => true,
        Some(TokenKind::Symbol(Symbol::Semicolon)) => true,
        _ => false,
    }
}

/// Parses the rest of an assignment after the variable's name.
#[tactic(auto, unfolding(crate::specs::ReadingStatements::assigned_at))]
fn assignment(alloc: Global, word: Text, reader: &mut Reader) -> Result<Stmt<Text>, ParseStop>
    ensures { Returns (λ s. (view_stmt s, reader.new)) result (assigned_at word reader.old) }
{
    reader.symbol(Symbol::Becomes)?;
    let value = expression(alloc, reader)?;
    Ok(Stmt::Assign(0, word, value))
}

/// Parses the rest of an assignment to an element after the array's name and its bracket.
#[tactic(auto, unfolding(crate::specs::ReadingStatements::stored_at))]
fn storing(alloc: Global, word: Text, reader: &mut Reader) -> Result<Stmt<Text>, ParseStop>
    ensures { Returns (λ s. (view_stmt s, reader.new)) result (stored_at word reader.old) }
{
    let index = expression(alloc, reader)?;
    let index = reader.symbol_after(index, Symbol::CloseBracket)?;
    let index = reader.symbol_after(index, Symbol::Becomes)?;
    match expression(alloc, reader) {
        Ok(value) => Ok(Stmt::Store {
            number: 0,
            array: word,
            bounds: unknown_bounds(),
            index,
            value,
        }),
        Err(stop) => {
            drop(word);
            drop(index);
            Err(stop)
        }
    }
}

/// Parses the rest of a call after the instance's name and its parenthesis.
#[tactic(auto, unfolding(crate::specs::ReadingStatements::called_at))]
fn call(alloc: Global, word: Text, reader: &mut Reader) -> Result<Stmt<Text>, ParseStop>
    ensures { Returns (λ s. (view_stmt s, reader.new)) result (called_at word reader.old) }
{
    let arguments = arguments(alloc, reader)?;
    reader.symbol(Symbol::Close)?;
    Ok(Stmt::Call(0, word, arguments))
}

/// Parses the rest of a statement after its first word.
#[tactic(auto, unfolding(crate::specs::ReadingStatements::simple_at, crate::specs::ReadingStatements::targeted_at))]
fn simple(alloc: Global, word: Text, reader: &mut Reader) -> Result<Stmt<Text>, ParseStop>
    ensures { Returns (λ s. (view_stmt s, reader.new)) result (simple_at word reader.old) }
{
    if reader.is_symbol(Symbol::Open) {
        reader.advance();
        call(alloc, word, reader)
    } else if reader.is_symbol(Symbol::OpenBracket) {
        reader.advance();
        storing(alloc, word, reader)
    } else {
        assignment(alloc, word, reader)
    }
}

/// Parses `BY` and the step of a `FOR`, if they are next.
fn step(alloc: Global, reader: &mut Reader) -> Result<Option<Expr<Text>>, ParseStop>
    ensures { Returns (λ o. (view_option o, reader.new)) result
        (perhaps_at (is_keyword Keyword.By) (after_keyword Keyword.By expression_at) reader.old) }
{
    if reader.is_keyword(Keyword::By) {
        reader.keyword(Keyword::By)?;
        let step = expression(alloc, reader)?;
        Ok(Some(step))
    } else {
        Ok(None)
    }
}

/// The first value, the bound and the step of a `FOR`.
type Bounds = (Expr<Text>, Expr<Text>, Option<Expr<Text>>);

/// Parses the first value, the bound and the step of a `FOR`.
#[tactic(auto, unfolding(crate::specs::ReadingStatements::bounds_at))]
fn bounds(alloc: Global, reader: &mut Reader) -> Result<Bounds, ParseStop>
    ensures { Returns (λ b. ((view_expr b.0, view_expr b.1, view_option b.2), reader.new)) result
        (bounds_at reader.old) }
{
    let from = expression(alloc, reader)?;
    let from = reader.keyword_after(from, Keyword::To)?;
    let to = match expression(alloc, reader) {
        Ok(to) => to,
        Err(stop) => {
            drop(from);
            return Err(stop);
        }
    };
    match step(alloc, reader) {
        Ok(by) => Ok((from, to, by)),
        Err(stop) => {
            drop(from);
            drop(to);
            Err(stop)
        }
    }
}

/// Parses statements that are at most `depth` deep, as many as there are.
#[cycle(stmt)]
fn body(alloc: Global, depth: u32, reader: &mut Reader) -> Result<Vec<Stmt<Text>>, ParseStop>
    ensures { Returns (λ b. (view_body b.items, reader.new)) result (sequence_at depth reader.old) }
{
    // Most bodies have one statement.
    let mut body = Vec::with_capacity(alloc, 1)?;
    // Each takes at least one token.
    for _turn in 0..reader.left() {
        if !is_statement(reader) {
            return Ok(body);
        }
        body.push(item(alloc, depth, reader)?)?;
    }
    if is_statement(reader) {
        return Err(reader.stop());
    }
    Ok(body)
}

/// Parses a statement with its semicolon, at most `depth` deep.
#[cycle(stmt)]
#[tactic(auto, unfolding(crate::specs::ReadingStatements::ended_at))]
fn item(alloc: Global, depth: u32, reader: &mut Reader) -> Result<Stmt<Text>, ParseStop>
    ensures { Returns (λ s. (view_stmt s, reader.new)) result (item_at depth reader.old) }
{
    if depth == 0 {
        return Err(reader.stop());
    }
    let stmt = statement(alloc, depth - 1, reader)?;
    let stmt = reader.symbol_after(stmt, Symbol::Semicolon)?;
    Ok(stmt)
}

/// Parses a statement whose inner statements are at most `deeper` deep.
#[cycle(stmt)]
#[tactic(auto, unfolding(crate::specs::ReadingStatements::stmt_at))]
fn statement(alloc: Global, deeper: u32, reader: &mut Reader) -> Result<Stmt<Text>, ParseStop>
    ensures { Returns (λ s. (view_stmt s, reader.new)) result (stmt_at (sequence_at deeper) reader.old) }
{
    match reader.peek() {
        Some(TokenKind::Word) => {
            let word = reader.word(alloc)?;
            simple(alloc, word, reader)
        }
        Some(TokenKind::Keyword(Keyword::If)) => {
            reader.advance();
            if_statement(alloc, deeper, reader)
        }
        Some(TokenKind::Keyword(Keyword::Case)) => {
            reader.advance();
            case_statement(alloc, deeper, reader)
        }
        Some(TokenKind::Keyword(Keyword::For)) => {
            reader.advance();
            for_statement(alloc, deeper, reader)
        }
        Some(TokenKind::Symbol(Symbol::Semicolon)) => Ok(Stmt::Empty(0)),
        _ => Err(reader.stop()),
    }
}

/// Parses the rest of a statement after `IF`.
#[cycle(stmt)]
#[tactic(auto, unfolding(crate::specs::ReadingStatements::if_at))]
fn if_statement(alloc: Global, deeper: u32, reader: &mut Reader) -> Result<Stmt<Text>, ParseStop>
    ensures { Returns (λ s. (view_stmt s, reader.new)) result (if_at (sequence_at deeper) reader.old) }
{
    let branches = branches(alloc, deeper, reader)?;
    let last = otherwise(alloc, deeper, reader)?;
    reader.keyword(Keyword::EndIf)?;
    Ok(Stmt::If(0, branches, last))
}

#[cycle(stmt)]
#[tactic(auto, unfolding(crate::specs::ReadingStatements::branches_at))]
fn branches(alloc: Global, deeper: u32, reader: &mut Reader) -> Result<Vec<Branch<Text>>, ParseStop>
    ensures { Returns (λ b. (map view_branch b.items, reader.new)) result
        (branches_at (sequence_at deeper) reader.old) }
{
    let first = tested(alloc, deeper, reader)?;
    more_branches(alloc, deeper, first, reader)
}

/// Parses the branches of an `IF` after the first one, each with its `ELSIF`.
#[cycle(stmt)]
fn more_branches(
    alloc: Global,
    deeper: u32,
    first: Branch<Text>,
    reader: &mut Reader,
) -> Result<Vec<Branch<Text>>, ParseStop>
    ensures { Returns (λ b. (map view_branch b.items, reader.new)) result
        (with_first (view_branch first ∷ [])
        (all_at (is_keyword Keyword.Elsif) (after_keyword Keyword.Elsif (branch_at (sequence_at deeper)))
        reader.old)) }
{
    let mut branches = Vec::new(alloc);
    branches.push(first)?;
    // Each takes at least one token.
    for _turn in 0..reader.left() {
        if !reader.is_keyword(Keyword::Elsif) {
            return Ok(branches);
        }
        reader.keyword(Keyword::Elsif)?;
        branches.push(tested(alloc, deeper, reader)?)?;
    }
    if reader.is_keyword(Keyword::Elsif) {
        return Err(reader.stop());
    }
    Ok(branches)
}

/// Parses a test, `THEN` and the statements of a branch.
#[cycle(stmt)]
#[tactic(auto, unfolding(crate::specs::ReadingStatements::branch_at))]
fn tested(alloc: Global, deeper: u32, reader: &mut Reader) -> Result<Branch<Text>, ParseStop>
    ensures { Returns (λ b. (view_branch b, reader.new)) result
        (branch_at (sequence_at deeper) reader.old) }
{
    let test = expression(alloc, reader)?;
    let test = reader.keyword_after(test, Keyword::Then)?;
    match body(alloc, deeper, reader) {
        Ok(body) => Ok(Branch { test, body }),
        Err(stop) => {
            drop(test);
            Err(stop)
        }
    }
}

/// Parses `ELSE` and its statements, if it is next.
#[cycle(stmt)]
#[tactic(auto, unfolding(crate::specs::ReadingStatements::otherwise_at))]
fn otherwise(alloc: Global, deeper: u32, reader: &mut Reader) -> Result<Vec<Stmt<Text>>, ParseStop>
    ensures { Returns (λ b. (view_body b.items, reader.new)) result
        (otherwise_at (sequence_at deeper) reader.old) }
{
    if reader.is_keyword(Keyword::Else) {
        reader.advance();
        body(alloc, deeper, reader)
    } else {
        Ok(Vec::new(alloc))
    }
}

/// Parses the rest of a statement after `CASE`.
#[cycle(stmt)]
#[tactic(auto, unfolding(crate::specs::ReadingStatements::case_at))]
fn case_statement(alloc: Global, deeper: u32, reader: &mut Reader) -> Result<Stmt<Text>, ParseStop>
    ensures { Returns (λ s. (view_stmt s, reader.new)) result (case_at (sequence_at deeper) reader.old) }
{
    let selector = expression(alloc, reader)?;
    let selector = reader.keyword_after(selector, Keyword::Of)?;
    let choices = match choices(alloc, deeper, reader) {
        Ok(choices) => choices,
        Err(stop) => {
            drop(selector);
            return Err(stop);
        }
    };
    match otherwise(alloc, deeper, reader) {
        Ok(last) => {
            let stmt = Stmt::Case(0, selector, choices, last);
            let stmt = reader.keyword_after(stmt, Keyword::EndCase)?;
            Ok(stmt)
        }
        Err(stop) => {
            drop(selector);
            drop(choices);
            Err(stop)
        }
    }
}

/// Parses the choices of a `CASE`.
#[cycle(stmt)]
#[tactic(auto, unfolding(crate::specs::ReadingStatements::choices_at))]
fn choices(alloc: Global, deeper: u32, reader: &mut Reader) -> Result<Vec<Choice<Text>>, ParseStop>
    ensures { Returns (λ c. (map view_choice c.items, reader.new)) result
        (choices_at (sequence_at deeper) reader.old) }
{
    let first = labelled(alloc, deeper, reader)?;
    more_choices(alloc, deeper, first, reader)
}

/// Parses the choices of a `CASE` after the first one.
#[cycle(stmt)]
fn more_choices(
    alloc: Global,
    deeper: u32,
    first: Choice<Text>,
    reader: &mut Reader,
) -> Result<Vec<Choice<Text>>, ParseStop>
    ensures { Returns (λ c. (map view_choice c.items, reader.new)) result
        (with_first (view_choice first ∷ [])
        (all_at is_label (choice_at (sequence_at deeper)) reader.old)) }
{
    let mut choices = Vec::new(alloc);
    choices.push(first)?;
    // Each takes at least one token.
    for _turn in 0..reader.left() {
        if !is_label(reader) {
            return Ok(choices);
        }
        choices.push(labelled(alloc, deeper, reader)?)?;
    }
    if is_label(reader) {
        return Err(reader.stop());
    }
    Ok(choices)
}

/// Parses the labels of a choice, a colon and its statements.
#[cycle(stmt)]
#[tactic(auto, unfolding(crate::specs::ReadingStatements::choice_at))]
fn labelled(alloc: Global, deeper: u32, reader: &mut Reader) -> Result<Choice<Text>, ParseStop>
    ensures { Returns (λ c. (view_choice c, reader.new)) result
        (choice_at (sequence_at deeper) reader.old) }
{
    let labels = labels(alloc, reader)?;
    reader.symbol(Symbol::Colon)?;
    let body = body(alloc, deeper, reader)?;
    Ok(Choice { labels, body })
}

/// Parses what stands after `FOR` and before its statements.
#[tactic(auto, unfolding(crate::specs::ReadingStatements::header_at))]
fn header(alloc: Global, reader: &mut Reader) -> Result<(Text, Bounds), ParseStop>
    ensures { Returns (λ h. ((h.0, (view_expr h.1.0, view_expr h.1.1, view_option h.1.2)), reader.new))
        result (header_at reader.old) }
{
    let word = reader.word(alloc)?;
    let word = reader.symbol_after(word, Symbol::Becomes)?;
    match bounds(alloc, reader) {
        Ok(bounds) => {
            let header = reader.keyword_after((word, bounds), Keyword::Do)?;
            Ok(header)
        }
        Err(stop) => {
            drop(word);
            Err(stop)
        }
    }
}

/// The `FOR` of a variable and bounds over these statements.
fn for_of(header: (Text, Bounds), body: Vec<Stmt<Text>>) -> Stmt<Text>
    ensures { view_stmt result
        ≡ for_to 0 header.0 (view_expr header.1.0) (view_expr header.1.1) (view_option header.1.2)
        (view_body body.items) }
{
    let (variable, (from, to, by)) = header;
    Stmt::For {
        number: 0,
        variable,
        from,
        to,
        by,
        body,
    }
}

/// Parses the rest of a statement after `FOR`.
#[cycle(stmt)]
#[tactic(auto, unfolding(crate::specs::ReadingStatements::for_at))]
fn for_statement(alloc: Global, deeper: u32, reader: &mut Reader) -> Result<Stmt<Text>, ParseStop>
    ensures { Returns (λ s. (view_stmt s, reader.new)) result (for_at (sequence_at deeper) reader.old) }
{
    let header = header(alloc, reader)?;
    match body(alloc, deeper, reader) {
        Ok(body) => {
            let stmt = reader.keyword_after(for_of(header, body), Keyword::EndFor)?;
            Ok(stmt)
        }
        Err(stop) => {
            drop(header);
            Err(stop)
        }
    }
}
