//! A query whose places are matched with the columns of a table, once for all rows. Each row is
//! bound from its cells, which borrow their bytes.
ghost use Rattle.std.specs.Prelude.{◌≡◌, ◌++◌, ◌<◌, ◌^◌, ◌⊎◌, ℕ, true, List, All, length, map, Some, IfOk, IfErr, IfSome, IsErrOf, IsTrue, IsFalse, OnErr, OnOk, alloc_error};
ghost use Rattle.std.specs.List.{slice_get};
ghost use Rattle.mysql_values.specs.BorrowedValue.{owned_values};
ghost use Rattle.mysql_named_params.specs.Reading.{OnWideTokens};
ghost use Rattle.mysql_named_params.specs.Places.{names};
ghost use Rattle.mysql_params_core.specs.Referents.{referents};
ghost use Rattle.mysql_bind_core.specs.Bound.{IsTaken};
ghost use Rattle.mysql_bind_core.specs.Cells.{AreAssigned, AreNumbersOf, TableQuery, are_distinct_names, value_said};
ghost use Rattle.mysql_bind_core.specs.FoundPairs.{IsValuesText};
ghost use Rattle.mysql_bind_core.specs.Refusals.{IsCopied, IsQueryRefusal};
ghost use Rattle.mysql_bind_core.specs.RowTexts.{IsAssignedRowText, IsRowRefusal, IsRowText};

use crate::assignment::Assignment;
use crate::cell::{Cell, CellValue, cell_values};
use crate::failure::Failure;
use crate::laws::values_are_sent;
use crate::request::Request;
use crate::taken::{Attempt, TakenQuery, found_in_text};
use mysql_binding::{PlaceValues, WideQuery};
use mysql_params_core::params::NamedPairs;
use mysql_values::value::ValueRef;
use std::alloc::{AllocError, Global};
use std::collections::BTreeMap;
use std::marker::Model;

/// A query that a request takes, and for each of its places the number of the column with its name.
#[derive(Debug, Drop)]
pub struct MatchedQuery<'q, 'c> {
    taken: TakenQuery<'q>,
    columns: &'q [&'c [u8]],
    // None if each row is bound by its assignments: the query has no names, two columns have the
    // same name, or a name of the query has no column.
    numbers: Option<Vec<usize>>,
}

impl<'q, 'c> Model for MatchedQuery<'q, 'c> {
    ghost use Rattle.mysql_params_core.specs.Referents.{referents};
    ghost use Rattle.mysql_bind_core.specs.Cells.{TableQuery};
    ghost use Rattle.mysql_bind_core.specs.MatchedQuery.{AreMatched};

    ghost Value = { TableQuery };

    ghost view = { λ m. record {
      query = m.taken.query;
      columns = referents m.columns.now;
      request = m.taken.request;
    } };

    ghost invariant = { λ m.
        AreMatched m.taken (referents m.columns.now) m.numbers };
}

impl<'q, 'c> MatchedQuery<'q, 'c> {
    /// Matches the places of a query with columns of these names, or returns why the request
    /// doesn't take the query. The error is `Memory` only if that of [`TakenQuery::new`] may be.
    pub fn with_columns(
        alloc: Global,
        query: &'q [u8],
        columns: &'q [&'c [u8]],
        request: Request,
    ) -> Result<MatchedQuery<'q, 'c>, Failure>
        ensures matched { IfOk result (λ m. m ≡ record {
          query = query.now;
          columns = referents columns.now;
          request = request;
        }) }
        ensures taken { IfOk result (λ m. IsTaken request query.now) }
        ensures refused { IfErr result (IsQueryRefusal request query.now) }
        ensures memory { IsErrOf result (Failure.Memory alloc_error) →
            IsTaken request query.now ⊎ IsCopied request query.now }
    {
        let taken = TakenQuery::new(alloc, query, request)?;
        let numbers = column_numbers(alloc, taken.parsed(), columns)?;
        Ok(MatchedQuery {
            taken,
            columns,
            numbers,
        })
    }

    /// Writes the text of a row to the end of a script: the text that [`TakenQuery::text`] gives if
    /// the cells are assigned to the names of their columns. If it refuses, the script stays as it
    /// is. If each cell has a value, values are written from the cells' own bytes, except those of
    /// bytes that are decoded.
    ///
    /// If there are more cells than columns, those at the end assign nothing. If there are fewer,
    /// the columns at the end have no value, and a query with such a name is refused. There always
    /// are assignments that say the same as the cells (law
    /// [`cells_are_assigned`](crate::laws::cells_are_assigned)).
    pub fn append_row(
        &self,
        alloc: Global,
        cells: &[Cell<'_>],
        script: &mut Vec<u8>,
    ) -> Result<(), Failure>
        ensures bound { OnOk result ((text : List ℕ) × IsRowText self.now cells.now text
            × (script.new.items ≡ script.old.items ++ text)) }
        ensures refused { IfErr result (IsRowRefusal self.now cells.now) }
        ensures kept { OnErr result (script.new.items ≡ script.old.items) }
    {
        match self.append_values(alloc, cells, script)? {
            Attempt::Written => Ok(()),
            Attempt::Left => self.append_assigned(alloc, cells, script),
        }
    }

    // How many columns there are. Their names fit into memory.
    pub(crate) fn column_count(&self) -> usize
        ensures count { result ≡ length self.now.columns }
        ensures few { result < 2 ^ 63 }
        ensures fit { All (λ name. length name < 2 ^ 63) self.now.columns }
    {
        name_count(self.columns)
    }

    // The same for assignments that are made of the cells.
    fn append_assigned(
        &self,
        alloc: Global,
        cells: &[Cell<'_>],
        script: &mut Vec<u8>,
    ) -> Result<(), Failure>
        ensures bound { OnOk result ((text : List ℕ) × IsRowText self.now cells.now text
            × (script.new.items ≡ script.old.items ++ text)) }
        ensures refused { IfErr result (IsRowRefusal self.now cells.now) }
        ensures kept { OnErr result (script.new.items ≡ script.old.items) }
    {
        let assignments = assignments_of(alloc, self.columns, cells)?;
        self.taken
            .append_text(alloc, assignments.as_slice(), script)
    }

    // Writes the text, if each cell has a value and each place a column. It writes nothing if the
    // text is refused, or if a client would change it.
    fn append_values(
        &self,
        alloc: Global,
        cells: &[Cell<'_>],
        script: &mut Vec<u8>,
    ) -> Result<Attempt, AllocError>
        ensures bound { IfOk result (λ attempt. attempt ≡ Attempt.Written → (text : List ℕ)
            × IsRowText self.now cells.now text
            × (script.new.items ≡ script.old.items ++ text)) }
        ensures kept { IfOk result (λ attempt. attempt ≡ Attempt.Left →
            script.new.items ≡ script.old.items) }
        ensures refused { OnErr result (script.new.items ≡ script.old.items) }
    {
        let start = script.len();
        match self.append_cells(alloc, cells, script)? {
            Attempt::Left => return Ok(Attempt::Left),
            Attempt::Written => {}
        }
        let request = self.taken.request();
        if !request.literals.no_backslash_escape() {
            values_are_sent();
            return Ok(Attempt::Written);
        }
        if found_in_text(&script.as_slice()[start..], request).is_none() {
            return Ok(Attempt::Written);
        }
        script.truncate(start);
        Ok(Attempt::Left)
    }

    // The same, whether or not the text is portable. It writes only values, no fragments.
    fn append_cells(
        &self,
        alloc: Global,
        cells: &[Cell<'_>],
        script: &mut Vec<u8>,
    ) -> Result<Attempt, AllocError>
        ensures taken { IfOk result (λ attempt. IsTaken self.now.request self.now.query) }
        ensures bound { IfOk result (λ attempt. attempt ≡ Attempt.Written → (text : List ℕ)
            × IsAssignedRowText self.now cells.now text
            × IsValuesText self.now.request self.now.query text
            × (script.new.items ≡ script.old.items ++ text)) }
        ensures kept { IfOk result (λ attempt. attempt ≡ Attempt.Left →
            script.new.items ≡ script.old.items) }
        ensures refused { OnErr result (script.new.items ≡ script.old.items) }
    {
        if cells.len() != self.columns.len() {
            return Ok(Attempt::Left);
        }
        let Some(numbers) = &self.numbers else {
            return Ok(Attempt::Left);
        };
        let Some(values) = cell_values(alloc, cells)? else {
            return Ok(Attempt::Left);
        };
        let Some(placed) = placed_values(alloc, numbers.as_slice(), values.as_slice())? else {
            return Ok(Attempt::Left);
        };
        self.taken
            .append_found(alloc, PlaceValues::Listed(placed), script)
    }
}

// How many names there are. The length of each is read: so they fit into memory.
fn name_count(names: &[&[u8]]) -> usize
    ensures count { result ≡ length (referents names.now) }
    ensures few { result < 2 ^ 63 }
    ensures fit { All (λ name. length name < 2 ^ 63) (referents names.now) }
{
    for i in 0..names.len() {
        note_length(names[i]);
    }
    names.len()
}

// Reads the length of bytes: so they fit into memory.
pub(crate) fn note_length(bytes: &[u8])
    ensures { length bytes.now < 2 ^ 63 }
{
    let _length = bytes.len();
}

/// The assignments of the cells of a row to the names of their columns. A name without a cell and a
/// cell without a name are left out.
pub fn assignments_of(
    alloc: Global,
    columns: &[&[u8]],
    cells: &[Cell<'_>],
) -> Result<Vec<Assignment>, AllocError>
    ensures { IfOk result (λ assignments.
        AreAssigned (referents columns.now) cells.now assignments.items) }
{
    let mut assignments = Vec::new(alloc);
    for i in 0..columns.len() {
        if i >= cells.len() {
            return Ok(assignments);
        }
        let assignment = Assignment {
            name: Vec::from_slice(alloc, columns[i])?,
            value_type: cells[i].value_type,
            bytes: Vec::from_slice(alloc, cells[i].bytes)?,
        };
        assignments.push(assignment)?;
    }
    Ok(assignments)
}

// The values of the columns with these numbers, if there are such columns.
fn placed_values<'v>(
    alloc: Global,
    numbers: &[usize],
    values: &'v [CellValue<'_>],
) -> Result<Option<Vec<ValueRef<'v>>>, AllocError>
    ensures { IfOk result (λ found. IfSome found (λ placed.
        map (slice_get (map value_said values.now)) numbers.now
        ≡ map (λ value. Some value) (owned_values placed.items))) }
{
    let mut placed = Vec::with_capacity(alloc, numbers.len())?;
    for number in numbers {
        let at = *number;
        if at >= values.len() {
            return Ok(None);
        }
        placed.push(values[at].borrowed())?;
    }
    Ok(Some(placed))
}

// The number of the column for each place of the query, by the name of the place. None if the query
// has no names, a name has no column, or two columns have the same name.
fn column_numbers(
    alloc: Global,
    query: &WideQuery<'_>,
    columns: &[&[u8]],
) -> Result<Option<Vec<usize>>, AllocError>
    ensures distinct { IfOk result (λ found. IfSome found (λ numbers.
        are_distinct_names (referents columns.now) ≡ true)) }
    ensures some { IfOk result (λ found. IfSome found (λ numbers. 0 < length columns.now)) }
    ensures asked { IfOk result (λ found. IfSome found (λ numbers. 0 < length numbers.items)) }
    ensures numbers { IfOk result (λ found. IfSome found (λ numbers.
        OnWideTokens query.now.mode query.now.query (λ ts.
        AreNumbersOf (referents columns.now) (names ts) numbers.items))) }
{
    let Ok(names) = query.names(alloc) else {
        return Err(AllocError);
    };
    if names.is_empty() || columns.is_empty() || !are_distinct_names(alloc, columns)? {
        return Ok(None);
    }
    numbers_of(alloc, columns, names.as_slice())
}

// Whether no name is in the list twice.
fn are_distinct_names(alloc: Global, names: &[&[u8]]) -> Result<bool, AllocError>
    ensures { IfOk result (λ distinct. IsTrue distinct →
        are_distinct_names (referents names.now) ≡ true) }
{
    let mut pairs = Vec::with_capacity(alloc, names.len())?;
    for name in names {
        pairs.push((*name, ValueRef::NULL))?;
    }
    match NamedPairs(pairs.as_slice()).first_redefined(alloc)? {
        Some(_) => Ok(false),
        None => Ok(true),
    }
}

// The number of the column with each of these names, if each has one.
fn numbers_of(
    alloc: Global,
    columns: &[&[u8]],
    names: &[&[u8]],
) -> Result<Option<Vec<usize>>, AllocError>
    ensures { IfOk result (λ found. IfSome found (λ numbers.
        AreNumbersOf (referents columns.now) (referents names.now) numbers.items)) }
{
    let by_name = numbers_by_name(alloc, columns)?;
    let mut numbers = Vec::with_capacity(alloc, names.len())?;
    for name in names {
        match number_of(columns, &by_name, *name) {
            Some(number) => numbers.push(number)?,
            None => return Ok(None),
        }
    }
    Ok(Some(numbers))
}

// Columns by name. The name of a column that is found is compared again, so no clause is needed.
fn numbers_by_name<'c>(
    alloc: Global,
    columns: &[&'c [u8]],
) -> Result<BTreeMap<&'c [u8], usize>, AllocError> {
    let mut by_name = BTreeMap::new(alloc);
    for (number, name) in columns.iter().enumerate() {
        by_name.insert(*name, number)?;
    }
    Ok(by_name)
}

// The number of the column with this name.
fn number_of(columns: &[&[u8]], by_name: &BTreeMap<&[u8], usize>, name: &[u8]) -> Option<usize>
    ensures { IfSome result (λ number. slice_get (referents columns.now) number ≡ Some name.now) }
{
    let number = match by_name.get(name) {
        Some(number) => *number,
        None => return None,
    };
    if number < columns.len() && columns[number] == name {
        Some(number)
    } else {
        None
    }
}
