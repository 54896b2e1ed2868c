//! Arguments that make fragments by name: `to_fragments`.
use crate::fragment_inputs::InPlaces;
use crate::fragment_inputs::InPlaces::Named;
use crate::fragment_inputs::PlainFragment::{
    Assignments, Decimal as Exact, Identifier as Name, Identifiers as Columns, Keyword, List,
    Qualified as Names, Rows, Value,
};
use crate::fragment_inputs::PlainItem::{Decimal as Number, Value as Item};
use crate::inputs::Plain::{Bytes, Int, Null, UInt};
use crate::outcome::{Case, Outcome, cases, judged, row};
use mysql_fragments::Fragments;
use mysql_params::params::ToParamsError;
use mysql_to_fragments::{
    AssignmentsOf, Decimal, Identifier, Identifiers, ListOf, Qualified, RowsOf, ToFragments,
    ToItem, ToRow, Word,
};
use std::alloc::Global;
use std::time::Duration;

/// How the call of this name went, if it stands here.
pub(crate) fn case(alloc: Global, name: &str) -> Option<Case> {
    let (arguments, wanted) = row(ARGUMENTS, name)?;
    Some(Ok(made(alloc, arguments, wanted)))
}

/// Arguments with names.
#[derive(Clone, Copy)]
enum Arguments {
    Values,
    ExactNumber,
    Name,
    Names,
    Columns,
    Changes,
    Word,
    List,
    Rows,
    Eight,
    RowOfEight,
    RepeatedName,
    LongDuration,
    LongInList,
    LongInRow,
    LongInChange,
}

/// The fragments, or how the refusal is shown.
type Wanted = Result<InPlaces, &'static str>;

/// A duration of more days than a `Time` has, in seconds.
const TOO_LONG: u64 = 371085174374400;

const LONG: Wanted = Err("Value(DurationTooLong(371085174374400s))");

const ARGUMENTS: &[(&str, (Arguments, Wanted))] = cases! {
    "to_fragments of values" =>
        Arguments::Values, Ok(Named(&[(b"a", Value(Bytes(b"x"))), (b"b", Value(Null))]));
    "to_fragments of an exact number" =>
        Arguments::ExactNumber, Ok(Named(&[(b"a", Exact(b"-1.50"))]));
    "to_fragments of an identifier" => Arguments::Name, Ok(Named(&[(b"a", Name(b"n"))]));
    "to_fragments of a qualified identifier" =>
        Arguments::Names, Ok(Named(&[(b"a", Names(&[b"db", b"t"]))]));
    "to_fragments of columns" =>
        Arguments::Columns, Ok(Named(&[(b"a", Columns(&[&[b"n"], &[b"db", b"t"]]))]));
    "to_fragments of assignments" =>
        Arguments::Changes,
        Ok(Named(&[(b"a", Assignments(&[
            (&[b"n"], Item(Bytes(b"x"))), (&[b"db", b"t"], Item(Bytes(b"y"))),
        ]))]));
    "to_fragments of a keyword" => Arguments::Word, Ok(Named(&[(b"a", Keyword(b"DESC"))]));
    "to_fragments of a list" =>
        Arguments::List, Ok(Named(&[(b"a", List(&[Item(Bytes(b"x")), Item(Bytes(b"y"))]))]));
    "to_fragments of rows" =>
        Arguments::Rows,
        Ok(Named(&[(b"a", Rows(&[
            &[Item(Int(-1)), Item(Bytes(b"x"))], &[Item(Int(2)), Item(Null)],
        ]))]));
    "to_fragments of eight pairs" =>
        Arguments::Eight,
        Ok(Named(&[
            (b"a", Value(UInt(1))), (b"b", Value(UInt(2))), (b"c", Value(UInt(3))),
            (b"d", Value(UInt(4))), (b"e", Value(UInt(5))), (b"f", Value(UInt(6))),
            (b"g", Value(UInt(7))), (b"h", Name(b"n")),
        ]));
    "to_fragments of a row of eight items" =>
        Arguments::RowOfEight,
        Ok(Named(&[(b"a", Rows(&[&[
            Item(UInt(1)), Item(UInt(2)), Item(UInt(3)), Item(UInt(4)), Item(UInt(5)),
            Item(UInt(6)), Item(Bytes(b"x")), Number(b"0.5"),
        ]]))]));
    "to_fragments of a repeated name" => Arguments::RepeatedName, Err("Redefined([97])");
    "to_fragments of a duration that is too long" => Arguments::LongDuration, LONG;
    "to_fragments of a duration that is too long in a list" => Arguments::LongInList, LONG;
    "to_fragments of a duration that is too long in a row" => Arguments::LongInRow, LONG;
    "to_fragments of a duration that is too long in an assignment" =>
        Arguments::LongInChange, LONG;
};

// The names of a column, and those of a column of a table.
const NAME: &[&[u8]] = &[b"n"];

const NAMES: &[&[u8]] = &[b"db", b"t"];

/// How the arguments made their fragments.
fn made(alloc: Global, arguments: Arguments, wanted: Wanted) -> Outcome {
    judged(fragments_of(alloc, arguments), wanted)
}

/// What makes fragments returns.
type Made = Result<Fragments, ToParamsError>;

// A wanted outcome holds for the whole program, and a call that takes one beside arguments that are
// lent isn't covered: so these return the fragments.
fn fragments_of(alloc: Global, arguments: Arguments) -> Made {
    match arguments {
        Arguments::Values => (("a", "x"), ("b", None::<u8>)).to_fragments(alloc),
        Arguments::ExactNumber => (("a", Decimal(b"-1.50")),).to_fragments(alloc),
        Arguments::Name => (("a", Identifier(b"n")),).to_fragments(alloc),
        Arguments::Names => qualified(alloc),
        Arguments::Columns => columns(alloc),
        Arguments::Changes => changes(alloc, &[(NAME, "x"), (NAMES, "y")]),
        Arguments::Word => (("a", Word(b"DESC")),).to_fragments(alloc),
        Arguments::List => list(alloc, &["x", "y"]),
        Arguments::Rows => rows(alloc, &[(-1i8, Some("x")), (2, None)]),
        Arguments::Eight => eight(alloc),
        Arguments::RowOfEight => {
            let row = (1u8, 2u8, 3u8, 4u8, 5u8, 6u8, "x", Decimal(b"0.5"));
            rows(alloc, &[row])
        }
        Arguments::RepeatedName => (("a", "x"), ("a", Identifier(b"n"))).to_fragments(alloc),
        Arguments::LongDuration => {
            (("a", "x"), ("b", Duration::from_secs(TOO_LONG))).to_fragments(alloc)
        }
        Arguments::LongInList => list(alloc, &[Duration::ZERO, Duration::from_secs(TOO_LONG)]),
        Arguments::LongInRow => rows(alloc, &[("x", Duration::from_secs(TOO_LONG))]),
        Arguments::LongInChange => {
            let long = Duration::from_secs(TOO_LONG);
            changes(alloc, &[(NAME, Duration::ZERO), (NAMES, long)])
        }
    }
}

fn qualified(alloc: Global) -> Made {
    let parts: [&[u8]; 2] = [b"db", b"t"];
    (("a", Qualified(parts.as_slice())),).to_fragments(alloc)
}

fn columns(alloc: Global) -> Made {
    let name: [&[u8]; 1] = [b"n"];
    let parts: [&[u8]; 2] = [b"db", b"t"];
    let columns = [name.as_slice(), parts.as_slice()];
    (("a", Identifiers(columns.as_slice())),).to_fragments(alloc)
}

fn changes<T: ToItem>(alloc: Global, changes: &[(&[&[u8]], T)]) -> Made {
    (("a", AssignmentsOf(changes)),).to_fragments(alloc)
}

fn list<T: ToItem>(alloc: Global, items: &[T]) -> Made {
    (("a", ListOf(items)),).to_fragments(alloc)
}

fn rows<R: ToRow>(alloc: Global, rows: &[R]) -> Made {
    (("a", RowsOf(rows)),).to_fragments(alloc)
}

fn eight(alloc: Global) -> Made {
    let arguments = (
        ("a", 1u8),
        ("b", 2u8),
        ("c", 3u8),
        ("d", 4u8),
        ("e", 5u8),
        ("f", 6u8),
        ("g", 7u8),
        ("h", Identifier(b"n")),
    );
    arguments.to_fragments(alloc)
}
