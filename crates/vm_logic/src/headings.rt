//! Programs and block types as the sources declare them, without their statements.

ghost use Rattle.std.specs.Prelude.{◌≡◌, IfOk, map};
ghost use Rattle.logic_source.specs.Source.{view_routine};
ghost use Rattle.vm_logic.specs.Headings.{heading_of, view_heading};

use logic_source::{Instance, Local, Routine, Row, Variable};
use plant_types::Text;
use std::alloc::{AllocError, Global};

/// A program or a block type without its statements: its name as declared, its own variables, its own arrays and its instances, each in
/// order of declaration.
pub struct Heading {
    pub name: Text,
    pub locals: Vec<Local>,
    pub rows: Vec<Row>,
    pub instances: Vec<Instance>,
}

impl Drop for Heading {
    fn drop(self) {
        let Heading {
            name: _,
            locals: _,
            rows: _,
            instances: _,
        } = self;
    }
}

/// The same variables of a routine in the same order.
fn copy_locals(alloc: Global, locals: &[Local]) -> Result<Vec<Local>, AllocError>
    ensures { IfOk result (λ copies. copies.items ≡ locals.now) }
{
    let mut copies = Vec::with_capacity(alloc, locals.len())?;
    for local in locals {
        copies.push(Local {
            name: local.name.copy(alloc)?,
            kind: local.kind,
        })?;
    }
    Ok(copies)
}

/// The same arrays in the same order.
pub fn copy_rows(alloc: Global, rows: &[Row]) -> Result<Vec<Row>, AllocError>
    ensures { IfOk result (λ copies. copies.items ≡ rows.now) }
{
    let mut copies = Vec::with_capacity(alloc, rows.len())?;
    for row in rows {
        copies.push(Row {
            name: row.name.copy(alloc)?,
            kind: row.kind,
            bounds: row.bounds,
        })?;
    }
    Ok(copies)
}

/// The same instances in the same order.
fn copy_instances(alloc: Global, instances: &[Instance]) -> Result<Vec<Instance>, AllocError>
    ensures { IfOk result (λ copies. copies.items ≡ instances.now) }
{
    let mut copies = Vec::with_capacity(alloc, instances.len())?;
    for instance in instances {
        copies.push(Instance {
            name: instance.name.copy(alloc)?,
            of: instance.of,
        })?;
    }
    Ok(copies)
}

/// The heading of a routine.
fn heading_of(alloc: Global, routine: &Routine) -> Result<Heading, AllocError>
    ensures { IfOk result (λ heading. view_heading heading ≡ heading_of (view_routine routine.now)) }
{
    Ok(Heading {
        name: routine.name.copy(alloc)?,
        locals: copy_locals(alloc, &routine.locals)?,
        rows: copy_rows(alloc, &routine.rows)?,
        instances: copy_instances(alloc, &routine.instances)?,
    })
}

/// The headings of routines, in order.
pub fn headings_of(alloc: Global, routines: &[Routine]) -> Result<Vec<Heading>, AllocError>
    ensures { IfOk result (λ headings. map view_heading headings.items
        ≡ map heading_of (map view_routine routines.now)) }
{
    let mut headings = Vec::with_capacity(alloc, routines.len())?;
    for routine in routines {
        headings.push(heading_of(alloc, routine)?)?;
    }
    Ok(headings)
}

/// The same heading.
fn copy_heading(alloc: Global, heading: &Heading) -> Result<Heading, AllocError>
    ensures { IfOk result (λ copy. view_heading copy ≡ view_heading heading.now) }
{
    Ok(Heading {
        name: heading.name.copy(alloc)?,
        locals: copy_locals(alloc, &heading.locals)?,
        rows: copy_rows(alloc, &heading.rows)?,
        instances: copy_instances(alloc, &heading.instances)?,
    })
}

/// The same headings in the same order.
pub fn copy_headings(alloc: Global, headings: &[Heading]) -> Result<Vec<Heading>, AllocError>
    ensures { IfOk result (λ copies. map view_heading copies.items ≡ map view_heading headings.now) }
{
    let mut copies = Vec::with_capacity(alloc, headings.len())?;
    for heading in headings {
        copies.push(copy_heading(alloc, heading)?)?;
    }
    Ok(copies)
}

/// The same globals in the same order.
pub fn copy_variables(alloc: Global, variables: &[Variable]) -> Result<Vec<Variable>, AllocError>
    ensures { IfOk result (λ copies. copies.items ≡ variables.now) }
{
    let mut copies = Vec::with_capacity(alloc, variables.len())?;
    for variable in variables {
        copies.push(Variable {
            name: variable.name.copy(alloc)?,
            region: variable.region,
            kind: variable.kind,
        })?;
    }
    Ok(copies)
}
