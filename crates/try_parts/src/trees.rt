//! Trees over numbers of variables (`st_tree`): their copies, as a tree over names is copied wherever a plant is read, and what a pass makes of
//! them.

ghost use Rattle.std.specs.Prelude.{◌≡◌, ℕ, IfOk};
ghost use Rattle.st_tree.specs.View.{view_expr};

use st_tree::{
    Binary, Expr, Label, Literal, Pass, Stmt, copy_body, copy_labels, map_body, map_expr,
};
use std::alloc::{AllocError, Global};
use try_text::Page;

/// FOR v4 := 1 TO 9 BY 2 DO v5 := v6.8; END_FOR.
fn repeated(alloc: Global) -> Result<Stmt<usize>, AllocError> {
    let mut body = Vec::new(alloc);
    body.push(Stmt::Assign(2, 5usize, Expr::Output(6, 8)))?;
    Ok(Stmt::For {
        number: 1,
        variable: 4,
        from: Expr::Literal(Literal::Integer(1)),
        to: Expr::Literal(Literal::Integer(9)),
        by: Some(Expr::Literal(Literal::Integer(2))),
        body,
    })
}

/// Adds three numbers.
fn push_numbers(page: &mut Page, numbers: [usize; 3]) {
    for number in numbers {
        page.number(number as i128);
    }
}

/// Adds a loop's number, its variable and how many statements it repeats; of an assignment its number, its variable and the variable
/// that it reads.
fn push_body(page: &mut Page, body: &[Stmt<usize>]) {
    let numbers = match body {
        [
            Stmt::For {
                number,
                variable,
                body,
                ..
            },
        ] => [*number as usize, *variable, body.len()],
        [Stmt::Assign(number, variable, Expr::Read(read))] => {
            [*number as usize, *variable, *read]
        }
        _ => return page.word("?"),
    };
    push_numbers(page, numbers);
}

/// Adds what there is to see of a body, unless memory was refused for it.
fn push_made(page: &mut Page, body: Result<Vec<Stmt<usize>>, AllocError>) {
    match body {
        Ok(body) => push_body(page, body.as_slice()),
        Err(_) => page.refuse(),
    }
}

/// A loop's copy.
fn copied(alloc: Global) -> Result<Vec<Stmt<usize>>, AllocError> {
    let repeated = [repeated(alloc)?];
    copy_body(alloc, &repeated)
}

/// Adds a loop's copy.
pub fn push_copied(alloc: Global, page: &mut Page) {
    push_made(page, copied(alloc));
}

/// The copy of the labels 1..1 and 3..5.
pub fn push_labels(alloc: Global, page: &mut Page) {
    let labels = [Label { low: 1, high: 1 }, Label { low: 3, high: 5 }];
    let Ok(labels) = copy_labels(alloc, &labels) else {
        return page.refuse();
    };
    for label in &labels {
        page.number(i128::from(label.low));
        page.number(i128::from(label.high));
    }
}

/// The pass that puts one name in the place of each. Its worlds are of a type that has no part in it.
#[derive(Drop)]
struct Named {
    name: usize,
}

impl Pass<usize, usize> for Named {
    ghost use Rattle.std.specs.Prelude.{◌≡◌, ℕ, true};
    ghost use Rattle.st_tree.specs.Mapping.{all_known, renaming};
    ghost use Rattle.st_tree.specs.Alike.{RangedSpace, renamed_space, renamed_context};

    ghost Before = { ℕ };

    ghost After = { ℕ };

    ghost Case = { RangedSpace ℕ ℕ };

    ghost from = { λ pass case. renamed_space (λ _. pass.name) case.space };

    ghost to = { λ pass case. case.space };

    ghost matches = { λ pass case a b. (a ≡ b) × (case.holds a ≡ true) };

    ghost context = { λ pass case. renamed_context (λ _. pass.name) case.context };

    ghost known = { λ pass. all_known };

    ghost mapping = { λ pass. renaming (λ _. pass.name) };

    fn variable(&self, _alloc: Global, _name: &usize) -> Result<usize, AllocError> {
        Ok(self.name)
    }

    fn array(&self, _alloc: Global, _name: &usize) -> Result<usize, AllocError> {
        Ok(self.name)
    }

    fn instance(&self, _alloc: Global, _name: &usize) -> Result<usize, AllocError> {
        Ok(self.name)
    }

    fn input_name(
        &self,
        _alloc: Global,
        _instance: &usize,
        _name: &usize,
    ) -> Result<usize, AllocError> {
        Ok(self.name)
    }

    fn output_name(
        &self,
        _alloc: Global,
        _instance: &usize,
        _name: &usize,
    ) -> Result<usize, AllocError> {
        Ok(self.name)
    }

    fn node(&self, _alloc: Global, expr: Expr<usize>) -> Result<Expr<usize>, AllocError>
        ensures { IfOk result (λ e. view_expr e ≡ view_expr expr) }
    {
        Ok(expr)
    }

    fn laws(&self) {}
}

/// v4 + v5.6 with the name 9 in the place of each.
fn named_sum(alloc: Global) -> Result<Expr<usize>, AllocError> {
    let left = Box::new(alloc, Expr::Read(4))?;
    let right = Box::new(alloc, Expr::Output(5, 6))?;
    map_expr(
        alloc,
        &Named { name: 9 },
        &Expr::Binary(Binary::Add, left, right),
    )
}

/// The three names of such a sum.
fn names_of(sum: &Expr<usize>) -> Option<[usize; 3]> {
    let Expr::Binary(Binary::Add, left, right) = sum else {
        return None;
    };
    match (&**left, &**right) {
        (Expr::Read(first), Expr::Output(second, third)) => Some([*first, *second, *third]),
        _ => None,
    }
}

/// v4 + v5.6 with the name 9 in the place of each: the three names.
pub fn push_named_sum(alloc: Global, page: &mut Page) {
    let Ok(sum) = named_sum(alloc) else {
        return page.refuse();
    };
    match names_of(&sum) {
        Some(names) => push_numbers(page, names),
        None => page.word("?"),
    }
}

/// v4 := v5 with the name 9 in the place of each: the statement's number and the two names.
pub fn push_named_body(alloc: Global, page: &mut Page) {
    let body = [Stmt::Assign(7, 4, Expr::Read(5))];
    push_made(page, map_body(alloc, &Named { name: 9 }, &body));
}
