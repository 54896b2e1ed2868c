//! The columns of a table, and what is said of wrong ones.
use crate::complaint::{Complaint, Fault, Place, add_fault};
use crate::group_words::Limits;
use crate::matching::{NamePlace, add_unused, assigned_names, is_new, note_value, note_values};
use crate::query_file::{PlacesInOrder, QueryFile};
use crate::told::SourceName;
use crate::values::Values;
use mysql_bind_core::{
    Assignment, Column, ColumnWords, NamedColumn, ROW_NAME, Request,
    columns_of as columns_of_header, copy_of_assignment,
};
use mysql_records::LentField;
use mysql_values::show::Shown;
use std::alloc::{AllocError, Global};
use std::collections::{BTreeMap, BTreeSet};

/// What the columns of a table are held against.
#[derive(Drop)]
pub struct Wanted<'a> {
    /// The query.
    pub query: QueryFile<'a>,
    /// What is asked of it.
    pub request: Request,
    /// Its names.
    pub places: Vec<NamePlace>,
    /// The number of each place by its name.
    pub numbers: BTreeMap<Vec<u8>, usize>,
    /// The values that are the same in each row.
    pub fixed: Values,
    /// What the words say of columns.
    pub words: ColumnWords,
    /// What a statement has at most, if rows share statements: the name `row` stands for them.
    pub limits: Option<Limits>,
    /// Whether values without a name in the query are taken.
    pub allow_unused: bool,
    /// The path of the table, as messages have it.
    pub path: String,
}

// Whether a column has the name of another place than that of the rows.
fn has_own_place(wanted: &Wanted<'_>, name: &[u8]) -> bool {
    wanted.limits.is_some() && name != ROW_NAME && wanted.numbers.contains_key(name)
}

// The columns that a header names. Those without a name in the query are left out, unless all
// columns stand in the place of the rows.
fn named_columns(
    alloc: Global,
    wanted: &Wanted<'_>,
    header: &[LentField<'_>],
) -> Result<Vec<Column>, AllocError> {
    let mut columns = columns_of_header(alloc, &wanted.words, header)?;
    if wanted.limits.is_none() {
        for column in columns.iter_mut() {
            let name = column.name.as_deref().unwrap_or(b"");
            column.used = wanted.numbers.contains_key(name);
        }
    }
    Ok(columns)
}

// The place of the header.
fn header_place(alloc: Global, wanted: &Wanted<'_>, line: u64) -> Result<Place, AllocError> {
    let path = String::from_str(alloc, wanted.path.as_str())?;
    Ok(Place::Row { path, line })
}

// What is wrong with a column, if something is, as it is said behind its number. `before` has the
// names of the columns before it, and `fixed` those that have values by options.
fn wrong_column<'c>(
    alloc: Global,
    wanted: &Wanted<'_>,
    before: &mut BTreeSet<&'c [u8]>,
    fixed: &BTreeSet<&[u8]>,
    column: &'c Column,
) -> Result<Option<String>, AllocError> {
    let Some(name) = column.name.as_deref() else {
        return if wanted.allow_unused {
            Ok(None)
        } else {
            let what = ": --column takes another for its name (--allow-unused leaves this one out)";
            Ok(Some(String::from_str(alloc, what)?))
        };
    };
    let what = if !is_new(before, name)? {
        String::from_str(alloc, " has the name of one before it")?
    } else if has_own_place(wanted, name) {
        let what = format!(in alloc;
            " has the name of the place `:{}`, and stands in `:row`: give the place its value by \
             an option, and the column another name by --column NAME=HEADER",
            Shown(name)
        )?;
        what
    } else if fixed.contains(name) {
        String::from_str(alloc, " has a value by an option too")?
    } else if !column.used && !wanted.allow_unused {
        let path = wanted.query.path;
        format!(in alloc; ": {path} has no such name (--allow-unused takes it)")?
    } else {
        return Ok(None);
    };
    Ok(Some(what))
}

// Adds a fault for each column that stands twice, has a value by an option, or isn't in the query.
// A column is told by its number: the first line of a table without names is a row of values.
fn add_wrong_columns(
    faults: &mut Vec<Fault>,
    alloc: Global,
    wanted: &Wanted<'_>,
    columns: &[Column],
    line: u64,
) -> Result<(), AllocError> {
    let fixed = assigned_names(alloc, wanted.fixed.assignments.as_slice())?;
    let mut before = BTreeSet::new(alloc);
    for i in 0..columns.len() {
        if let Some(wrong) = wrong_column(alloc, wanted, &mut before, &fixed, &columns[i])? {
            let number = i.saturating_add(1);
            let what = format!(in alloc; "column {number}{wrong}")?;
            add_fault(faults, header_place(alloc, wanted, line)?, what)?;
        }
    }
    Ok(())
}

// What is said of a name without a column and a value.
fn missing_text(alloc: Global, wanted: &Wanted<'_>, name: &[u8]) -> Result<String, AllocError> {
    if wanted.limits.is_some() {
        return format!(in alloc;
            "no value for `:{}`: give it by --set, --file, --env, --null, --json or --pairs (the \
             columns stand in `:row`)",
            Shown(name)
        );
    }
    format!(in alloc;
        "no column for `:{}` in {}: name one so, or by --column NAME=HEADER, or give it by --set, \
         --file, --env, --null, --json or --pairs",
        Shown(name),
        wanted.path.as_str()
    )
}

// Adds a fault for each name without a column and a value, at its first place.
fn add_missing_columns(
    faults: &mut Vec<Fault>,
    alloc: Global,
    wanted: &Wanted<'_>,
    columns: &[Column],
) -> Result<(), AllocError> {
    let mut assigned = vec![in alloc; false; wanted.places.len()]?;
    let fixed = wanted.fixed.assignments.as_slice();
    note_values(assigned.as_mut_slice(), &wanted.numbers, fixed);
    for column in columns {
        let name = column.name.as_deref().unwrap_or(b"");
        note_value(assigned.as_mut_slice(), &wanted.numbers, name);
    }
    if wanted.limits.is_some() {
        note_value(assigned.as_mut_slice(), &wanted.numbers, ROW_NAME);
    }
    let mut in_order = PlacesInOrder::new(&wanted.query);
    for (place, has_value) in wanted.places.iter().zip(assigned) {
        if has_value {
            continue;
        }
        let what = missing_text(alloc, wanted, place.name.as_slice())?;
        add_fault(faults, in_order.place_of(alloc, place.at)?, what)?;
    }
    Ok(())
}

// What is said of a word of `--column` without a column.
fn unknown_column(
    alloc: Global,
    wanted: &Wanted<'_>,
    found: &NamedColumn,
) -> Result<String, AllocError> {
    let name = SourceName(found.name.as_slice());
    let path = wanted.path.as_str();
    if found.header.as_slice() == found.name.as_slice() {
        return format!(in alloc; "--column {name}: {path} has no such column");
    }
    let header = SourceName(found.header.as_slice());
    format!(in alloc; "--column {name}: {path} has no column with the header `{header}`")
}

// Adds a fault for each word of `--column` and `--null-of` without a column.
fn add_unknown_columns(
    faults: &mut Vec<Fault>,
    alloc: Global,
    wanted: &Wanted<'_>,
    columns: &[Column],
) -> Result<(), AllocError> {
    let mut names = BTreeSet::new(alloc);
    for column in columns {
        if let Some(name) = column.name.as_deref() {
            is_new(&mut names, name)?;
        }
    }
    for found in wanted.words.named.as_slice() {
        if !names.contains(found.name.as_slice()) {
            let what = unknown_column(alloc, wanted, found)?;
            add_fault(faults, Place::Words, what)?;
        }
    }
    for null in wanted.words.nulls.as_slice() {
        if !names.contains(null.name.as_slice()) {
            let what = format!(in alloc;
                "--null-of {}: {} has no such column",
                SourceName(null.name.as_slice()),
                wanted.path.as_str()
            )?;
            add_fault(faults, Place::Words, what)?;
        }
    }
    Ok(())
}

/// The columns that a header names, if each name of the query has one or a value.
pub fn columns_of(
    alloc: Global,
    wanted: &Wanted<'_>,
    header: &[LentField<'_>],
    line: u64,
) -> Result<Vec<Column>, Complaint> {
    let columns = named_columns(alloc, wanted, header)?;
    let mut faults = Vec::new(alloc);
    add_missing_columns(&mut faults, alloc, wanted, columns.as_slice())?;
    add_wrong_columns(&mut faults, alloc, wanted, columns.as_slice(), line)?;
    add_unknown_columns(&mut faults, alloc, wanted, columns.as_slice())?;
    if !wanted.allow_unused {
        add_unused(
            &mut faults,
            alloc,
            &wanted.query,
            &wanted.numbers,
            &wanted.fixed,
        )?;
    }
    if faults.is_empty() {
        Ok(columns)
    } else {
        Err(Complaint::Refused(faults))
    }
}

/// Adds the values that are the same in each row, if the query has their names.
pub fn add_fixed(
    assignments: &mut Vec<Assignment>,
    alloc: Global,
    wanted: &Wanted<'_>,
) -> Result<(), AllocError> {
    for fixed in wanted.fixed.assignments.as_slice() {
        if !wanted.numbers.contains_key(fixed.name.as_slice()) {
            continue;
        }
        if assignments.push(copy_of_assignment(alloc, fixed)?).is_err() {
            return Err(AllocError);
        }
    }
    Ok(())
}
