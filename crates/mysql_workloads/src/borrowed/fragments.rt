//! Queries bound from borrowed fragments, against the same from owned ones.
use crate::borrowed::Run;
use crate::borrowed::cases::Case;
use crate::borrowed::random_fragments::{random_fragments, random_shape};
use crate::borrowed::rooms::{Bound, room_for, take_room};
use crate::borrowed::tally::Call;
use mysql_fragments::{
    Fragment, FragmentRef, Fragments, FragmentsError, Item, RowsRef, bind_borrowed_fragments,
    bind_borrowed_fragments_into,
};
use mysql_params::fragments::bind_fragments_in;
use mysql_values::value::ValueRef;
use std::alloc::{AllocError, Global};

// A query with its fragments, owned and lent.
#[derive(Clone, Copy)]
struct Given<'g> {
    query: &'g [u8],
    owned: &'g Fragments,
    lent: &'g [FragmentRef<'g>],
}

/// Binds a random query with random fragments by each call in each mode.
pub fn compare(run: &mut Run) -> Result<(), AllocError> {
    let by_name = run.random.one_in(10);
    let case = Case::new(run, by_name)?;
    let count = case.count(&mut run.random);
    let owned = random_fragments(run, count)?;
    let cells = all_cells(run.alloc, list_of(&owned))?;
    compare_cells(run, &case, &owned, cells.as_slice())
}

// Lends the fragments with these cells, and binds them.
fn compare_cells(
    run: &mut Run,
    case: &Case,
    owned: &Fragments,
    cells: &[Vec<ValueRef<'_>>],
) -> Result<(), AllocError> {
    let lent = lent_fragments(run.alloc, list_of(owned), cells)?;
    let given = Given {
        query: case.query.as_slice(),
        owned,
        lent: lent.as_slice(),
    };
    given.compare_mode(run, false)?;
    given.compare_mode(run, true)
}

impl Given<'_> {
    // Compares the calls for one mode.
    fn compare_mode(self, run: &mut Run, mode: bool) -> Result<(), AllocError> {
        let owned = bind_fragments_in(run.alloc, self.query, self.owned, mode);
        let lent = bind_borrowed_fragments(run.alloc, self.query, self.lent, mode);
        run.tally.compare(Call::Fragments, &owned, &lent);
        self.compare_into(run, mode, &owned)
    }

    // Compares the call for a room.
    fn compare_into(
        self,
        run: &mut Run,
        mode: bool,
        owned: &Bound<FragmentsError>,
    ) -> Result<(), AllocError> {
        let mut room = room_for(run, owned)?;
        let made = bind_borrowed_fragments_into(self.query, self.lent, mode, &mut room);
        take_room(run, Call::FragmentsInto, owned, &made, room.as_slice());
        Ok(())
    }
}

/// Compares what refuses rows of borrowed cells with what refuses the same rows where they are
/// bound.
pub fn compare_rows(run: &mut Run) -> Result<(), AllocError> {
    let width = run.random.below(4);
    let owned = random_shape(run, width)?;
    let text = bind_fragments_in(run.alloc, b"VALUES ?", &owned, false);
    if let Some(rows) = list_of(&owned).first() {
        let cells = cells_of(run.alloc, rows)?;
        let lent = bound_rows(run.alloc, cells.as_slice(), width);
        run.tally.compare(Call::NewRows, &text, &lent);
    }
    Ok(())
}

// The text of rows of this width.
fn bound_rows(alloc: Global, cells: &[ValueRef<'_>], width: usize) -> Bound<FragmentsError> {
    match RowsRef::new(cells, width) {
        Ok(rows) => {
            bind_borrowed_fragments(alloc, b"VALUES ?", &[FragmentRef::Rows(rows)], false)
        }
        Err(fault) => Err(FragmentsError::Fault { place: 0, fault }),
    }
}

// The fragments by position.
fn list_of(fragments: &Fragments) -> &[Fragment] {
    match fragments {
        Fragments::Positional(list) => list.as_slice(),
        Fragments::Named(_) => &[],
    }
}

// The values of the items of each fragment, lent.
fn all_cells(alloc: Global, fragments: &[Fragment]) -> Result<Vec<Vec<ValueRef<'_>>>, AllocError> {
    let mut cells = Vec::with_capacity(alloc, fragments.len())?;
    for fragment in fragments {
        cells.push(cells_of(alloc, fragment)?)?;
    }
    Ok(cells)
}

// The values of the items of a fragment, lent.
fn cells_of(alloc: Global, fragment: &Fragment) -> Result<Vec<ValueRef<'_>>, AllocError> {
    let mut cells = Vec::new(alloc);
    match fragment {
        Fragment::List(items) => put_cells(&mut cells, items.as_slice())?,
        Fragment::Rows(rows) => {
            for row in rows {
                put_cells(&mut cells, row.as_slice())?;
            }
        }
        _ => {}
    }
    Ok(cells)
}

// Appends the values of items, lent.
fn put_cells<'f>(cells: &mut Vec<ValueRef<'f>>, items: &'f [Item]) -> Result<(), AllocError> {
    for item in items {
        if let Item::Value(value) = item {
            cells.push(value.borrowed())?;
        }
    }
    Ok(())
}

// The fragments with these cells, lent.
fn lent_fragments<'f>(
    alloc: Global,
    fragments: &'f [Fragment],
    cells: &'f [Vec<ValueRef<'f>>],
) -> Result<Vec<FragmentRef<'f>>, AllocError> {
    let mut lent = Vec::with_capacity(alloc, fragments.len())?;
    for (fragment, cells) in fragments.iter().zip(cells) {
        lent.push(lent_fragment(fragment, cells.as_slice()))?;
    }
    Ok(lent)
}

// A fragment with these cells, lent: whole if it has other items than values.
fn lent_fragment<'f>(fragment: &'f Fragment, cells: &'f [ValueRef<'f>]) -> FragmentRef<'f> {
    match fragment {
        Fragment::Value(value) => FragmentRef::Value(value.borrowed()),
        Fragment::List(items) if items.len() == cells.len() => FragmentRef::List(cells),
        Fragment::Rows(rows) => match lent_rows(rows.as_slice(), cells) {
            Some(rows) => FragmentRef::Rows(rows),
            None => FragmentRef::Owned(fragment),
        },
        _ => FragmentRef::Owned(fragment),
    }
}

// Rows with these cells, if they have one length.
fn lent_rows<'f>(rows: &[Vec<Item>], cells: &'f [ValueRef<'f>]) -> Option<RowsRef<'f>> {
    let width = rows.first()?.len();
    if !have_length(rows, width) || rows.len().wrapping_mul(width) != cells.len() {
        return None;
    }
    RowsRef::new(cells, width).ok()
}

// Whether each row has this length.
fn have_length(rows: &[Vec<Item>], width: usize) -> bool {
    for row in rows {
        if row.len() != width {
            return false;
        }
    }
    true
}
