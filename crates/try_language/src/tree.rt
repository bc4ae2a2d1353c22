//! Units as text, with the parts in full.
//!
//! Each operator with two operands stands in parentheses with them, and each literal with its kind; an integer without a kind stands in square brackets.

use plant_types::{Kind, Region, Text, Value};
use st_parser::{Declaration, Pou, PouKind, Section, SectionKind, Sort, Unit};
use st_tree::{Argument, Binary, Branch, Choice, Expr, Label, Literal, Stmt, Unary};
use try_text::Page;

fn operator(op: &Binary) -> &str {
    match op {
        Binary::Multiply => " * ",
        Binary::Divide => " / ",
        Binary::Mod => " MOD ",
        Binary::Add => " + ",
        Binary::AddTime => " +TIME ",
        Binary::Subtract => " - ",
        Binary::SubtractTime => " -TIME ",
        Binary::Less => " < ",
        Binary::Greater => " > ",
        Binary::AtMost => " <= ",
        Binary::AtLeast => " >= ",
        Binary::Equal => " = ",
        Binary::Unequal => " <> ",
        Binary::And => " AND ",
        Binary::Xor => " XOR ",
        Binary::Or => " OR ",
    }
}

fn sign(op: &Unary) -> &str {
    match op {
        Unary::Not => "NOT ",
        Unary::Negate => "- ",
        Unary::NegateTime => "-TIME ",
    }
}

fn show_literal(literal: &Literal, page: &mut Page) {
    match literal {
        Literal::Value(Value::Bool(true)) => page.add("TRUE"),
        Literal::Value(Value::Bool(false)) => page.add("FALSE"),
        Literal::Value(Value::Dint(n)) => {
            page.add("DINT#");
            page.add_number(i128::from(*n));
        }
        Literal::Value(Value::Time(n)) => {
            page.add("T#");
            page.add_number(i128::from(*n));
        }
        Literal::Integer(n) => {
            page.add("[");
            page.add_number(i128::from(*n));
            page.add("]");
        }
    }
}

fn show(expr: &Expr<Text>, page: &mut Page) {
    match expr {
        Expr::Literal(literal) => show_literal(literal, page),
        Expr::Read(name) => page.add(name.as_str()),
        Expr::Output(instance, name) => {
            page.add(instance.as_str());
            page.add(".");
            page.add(name.as_str());
        }
        Expr::Element(name, _, index) => {
            page.add(name.as_str());
            page.add("[");
            show(index, page);
            page.add("]");
        }
        Expr::Unary(op, a) => {
            page.add(sign(op));
            show(a, page);
        }
        Expr::Binary(op, a, b) => {
            page.add("(");
            show(a, page);
            page.add(operator(op));
            show(b, page);
            page.add(")");
        }
    }
}

fn show_output(name: &Text, target: &Text, page: &mut Page) {
    page.add(name.as_str());
    page.add(" => ");
    page.add(target.as_str());
}

fn show_bound(argument: &Argument<Text>, page: &mut Page) {
    match argument {
        Argument::Input(name, value) => show_assignment(name, value, page),
        Argument::Output(name, target) => show_output(name, target, page),
    }
}

fn show_argument(argument: &Argument<Text>, page: &mut Page) {
    show_bound(argument, page);
    page.add(", ");
}

fn show_range(low: i64, high: i64, page: &mut Page) {
    page.add_number(i128::from(low));
    page.add("..");
    page.add_number(i128::from(high));
    page.add(" ");
}

fn show_label(label: Label, page: &mut Page) {
    show_range(label.low, label.high, page);
}

fn show_assignment(target: &Text, value: &Expr<Text>, page: &mut Page) {
    page.add(target.as_str());
    page.add(" := ");
    show(value, page);
}

fn show_store(array: &Text, index: &Expr<Text>, value: &Expr<Text>, page: &mut Page) {
    page.add(array.as_str());
    page.add("[");
    show(index, page);
    page.add("] := ");
    show(value, page);
}

fn show_call(name: &Text, arguments: &[Argument<Text>], page: &mut Page) {
    page.add(name.as_str());
    page.add("( ");
    for argument in arguments {
        show_argument(argument, page);
    }
    page.add(")");
}

fn show_selector(selector: &Expr<Text>, page: &mut Page) {
    page.add("CASE ");
    show(selector, page);
    page.add(" OF ");
}

fn show_turns(
    variable: &Text,
    from: &Expr<Text>,
    to: &Expr<Text>,
    by: &Option<Expr<Text>>,
    page: &mut Page,
) {
    page.add("FOR ");
    show_assignment(variable, from, page);
    page.add(" TO ");
    show(to, page);
    if let Some(by) = by {
        page.add(" BY ");
        show(by, page);
    }
    page.add(" DO ");
}

#[cycle(shown)]
fn show_body(body: &[Stmt<Text>], page: &mut Page) {
    for stmt in body {
        show_stmt(stmt, page);
        page.add("; ");
    }
}

#[cycle(shown)]
fn show_branches(branches: &[Branch<Text>], page: &mut Page) {
    for branch in branches {
        page.add("? ");
        show(&branch.test, page);
        page.add(": ");
        show_body(&branch.body, page);
    }
}

#[cycle(shown)]
fn show_choices(choices: &[Choice<Text>], page: &mut Page) {
    for choice in choices {
        for label in &choice.labels {
            show_label(*label, page);
        }
        page.add(": ");
        show_body(&choice.body, page);
    }
}

#[cycle(shown)]
fn show_stmt(stmt: &Stmt<Text>, page: &mut Page) {
    match stmt {
        Stmt::Empty(_) => {}
        Stmt::Assign(_, target, value) => show_assignment(target, value, page),
        Stmt::Store {
            array,
            index,
            value,
            ..
        } => show_store(array, index, value, page),
        Stmt::Call(_, name, arguments) => show_call(name, arguments, page),
        Stmt::If(_, branches, last) => {
            page.add("IF ");
            show_branches(branches, page);
            page.add("ELSE ");
            show_body(last, page);
            page.add("END");
        }
        Stmt::Case(_, selector, choices, last) => {
            show_selector(selector, page);
            show_choices(choices, page);
            page.add("ELSE ");
            show_body(last, page);
            page.add("END");
        }
        Stmt::For {
            variable,
            from,
            to,
            by,
            body,
            ..
        } => {
            show_turns(variable, from, to, by, page);
            show_body(body, page);
            page.add("END");
        }
    }
}

fn section_name(kind: &SectionKind) -> &str {
    match kind {
        SectionKind::Global => "GLOBAL ",
        SectionKind::Local => "LOCAL ",
        SectionKind::Input => "INPUT ",
        SectionKind::Output => "OUTPUT ",
        SectionKind::External => "EXTERNAL ",
    }
}

fn kind_name(kind: Kind) -> &'static str {
    match kind {
        Kind::Bool => "BOOL",
        Kind::Dint => "DINT",
        Kind::Time => "TIME",
    }
}

fn show_sort(sort: &Sort, page: &mut Page) {
    match sort {
        Sort::Kind(kind) => page.add(kind_name(*kind)),
        Sort::Block(name) => page.add(name.as_str()),
        Sort::Array(bounds, kind) => {
            page.add("ARRAY ");
            show_range(i64::from(bounds.low), i64::from(bounds.high), page);
            page.add(kind_name(*kind));
        }
    }
}

fn region_name(region: &Option<Region>) -> &str {
    match region {
        None => "",
        Some(Region::Input) => "%I ",
        Some(Region::Output) => "%Q ",
        Some(Region::Plain) => "%M ",
    }
}

fn show_declaration(d: &Declaration, page: &mut Page) {
    for name in &d.names {
        page.add(name.as_str());
        page.add(" ");
    }
    page.add(region_name(&d.region));
    show_sort(&d.sort, page);
    if let Some(initial) = &d.initial {
        page.add(" ");
        show(initial, page);
    }
    page.add("; ");
}

fn show_section(section: &Section, page: &mut Page) {
    page.add(section_name(&section.kind));
    for declaration in &section.declarations {
        show_declaration(declaration, page);
    }
}

fn show_pou(pou: &Pou, page: &mut Page) {
    match pou.kind {
        PouKind::Block => page.add("BLOCK "),
        PouKind::Program => page.add("PROGRAM "),
    }
    page.add(pou.name.as_str());
    page.add(" ");
    for section in &pou.sections {
        show_section(section, page);
    }
    page.add("DO ");
    show_body(&pou.body, page);
}

/// Adds a unit as text.
pub fn show_unit(unit: &Unit, page: &mut Page) {
    for section in &unit.globals {
        show_section(section, page);
    }
    for pou in &unit.pous {
        show_pou(pou, page);
    }
}
