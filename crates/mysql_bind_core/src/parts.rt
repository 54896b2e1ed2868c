//! The parts of a table's statements: the names with which the query is matched, and the form by
//! which records become rows.
ghost use Rattle.std.specs.Prelude.{◌≡◌, ◌++◌, ◌∷◌, [], IfOk, OnOk, map};
ghost use Rattle.mysql_params_core.specs.Referents.{referents};
ghost use Rattle.mysql_bind_core.specs.Cells.{assignment_said};
ghost use Rattle.mysql_bind_core.specs.Headers.{assigned_name, form_of, form_seen, name_of_column, used_names, value_said};
ghost use Rattle.mysql_bind_core.specs.Tables.{cell_said};

use crate::assignment::Assignment;
use crate::cell::Cell;
use crate::column::Column;
use crate::table_form::TableColumn;
use std::alloc::{AllocError, Global};

/// The parts of a table's statements. The query is matched with the names, and the columns and the
/// cells are those of the [`TableForm`](crate::TableForm).
#[derive(Debug, Drop)]
pub struct TableParts<'c> {
    /// The names of the columns that are used, and then those of the values that are the same in
    /// each row.
    pub names: Vec<&'c [u8]>,
    /// The columns.
    pub columns: Vec<TableColumn<'c>>,
    /// The values that are the same in each row.
    pub fixed: Vec<Cell<'c>>,
}

/// The parts for these columns, and for assignments that are the same in each row. So each name
/// stands at the number of its own cell (law
/// [`tables_give_values`](crate::laws::tables_give_values)).
pub fn table_parts<'c>(
    alloc: Global,
    columns: &'c [Column],
    fixed: &'c [Assignment],
) -> Result<TableParts<'c>, AllocError>
    ensures names { IfOk result (λ parts. referents parts.names.items
        ≡ used_names parts.columns.items (map name_of_column columns.now)
        ++ map assigned_name fixed.now) }
    ensures columns { IfOk result (λ parts.
        map form_of columns.now ≡ map form_seen parts.columns.items) }
    ensures fixed { IfOk result (λ parts.
        map value_said fixed.now ≡ map cell_said parts.fixed.items) }
{
    let taken = taken_columns(alloc, columns)?;
    let mut names = names_of_used(alloc, columns, taken.as_slice())?;
    push_assigned(&mut names, fixed)?;
    let fixed = fixed_cells(alloc, fixed)?;
    Ok(TableParts {
        names,
        columns: taken,
        fixed,
    })
}

/// The columns as those of a form. A column is used there if it is used and has a name.
pub fn taken_columns<'c>(
    alloc: Global,
    columns: &'c [Column],
) -> Result<Vec<TableColumn<'c>>, AllocError>
    ensures { IfOk result (λ taken. map form_of columns.now ≡ map form_seen taken.items) }
{
    let mut taken = Vec::with_capacity(alloc, columns.len())?;
    for column in columns {
        taken.push(taken_column(column))?;
    }
    Ok(taken)
}

// A column as one of a form.
fn taken_column(column: &Column) -> TableColumn<'_>
    ensures { form_seen result ≡ form_of column.now }
{
    let null_text = match &column.null_text {
        Some(text) => Some(text.as_slice()),
        None => None,
    };
    TableColumn {
        value_type: column.value_type,
        null_text,
        used: column.used && column.name.is_some(),
    }
}

// The names of the columns that are used in a form of as many columns.
fn names_of_used<'c>(
    alloc: Global,
    columns: &'c [Column],
    taken: &[TableColumn<'_>],
) -> Result<Vec<&'c [u8]>, AllocError>
    ensures { IfOk result (λ names. referents names.items
        ≡ used_names taken.now (map name_of_column columns.now)) }
{
    let mut names = Vec::new(alloc);
    for i in 0..taken.len().min(columns.len()) {
        push_name(&mut names, &columns[i], taken[i])?;
    }
    Ok(names)
}

// Adds the name of a column, if the column is used.
fn push_name<'c>(
    names: &mut Vec<&'c [u8]>,
    column: &'c Column,
    taken: TableColumn<'_>,
) -> Result<(), AllocError>
    ensures { OnOk result (referents names.new.items ≡ referents names.old.items
        ++ used_names (taken.entry ∷ []) (name_of_column column.now ∷ [])) }
{
    if taken.used {
        names.push(name_of_column(column))?;
    }
    Ok(())
}

// Adds the names of assignments.
fn push_assigned<'c>(
    names: &mut Vec<&'c [u8]>,
    assignments: &'c [Assignment],
) -> Result<(), AllocError>
    ensures { OnOk result (referents names.new.items
        ≡ referents names.old.items ++ map assigned_name assignments.now) }
{
    for assignment in assignments {
        names.push(assignment.name.as_slice())?;
    }
    Ok(())
}

// The name of a column, or no bytes if it has none.
fn name_of_column(column: &Column) -> &[u8]
    ensures { result.now ≡ name_of_column column.now }
{
    match &column.name {
        Some(name) => name.as_slice(),
        None => b"",
    }
}

// The cells of assignments.
fn fixed_cells(alloc: Global, assignments: &[Assignment]) -> Result<Vec<Cell<'_>>, AllocError>
    ensures { IfOk result (λ cells. map value_said assignments.now ≡ map cell_said cells.items) }
{
    let mut cells = Vec::with_capacity(alloc, assignments.len())?;
    for assignment in assignments {
        let value_type = assignment.value_type;
        let bytes = assignment.bytes.as_slice();
        cells.push(Cell { value_type, bytes })?;
    }
    Ok(cells)
}

/// A copy of an assignment.
pub fn copy_of_assignment(alloc: Global, assignment: &Assignment) -> Result<Assignment, AllocError>
    ensures { IfOk result (λ copy. assignment_said copy ≡ assignment_said assignment.now) }
{
    Ok(Assignment {
        name: Vec::from_slice(alloc, assignment.name.as_slice())?,
        value_type: assignment.value_type,
        bytes: Vec::from_slice(alloc, assignment.bytes.as_slice())?,
    })
}
