//! Fragments: the parts of SQL text that replace the names and marks of a query.
ghost use Rattle.std.specs.Prelude.{◌≡◌, IfOk};

use mysql_float_literal::Double;
use mysql_values::value::Value;
use std::alloc::{AllocError, Global};
use std::collections::HashMap;

/// An item of a list or a row.
#[derive(Drop)]
pub enum Item {
    /// The literal of a value.
    Value(Value),
    /// An exact number, like [`Fragment::Decimal`].
    Decimal(Vec<u8>),
    /// A double, like [`Fragment::Double`].
    Double(Double),
}

/// A part of SQL text that replaces a name or mark of a query.
#[derive(Drop)]
pub enum Fragment {
    /// The literal of a value, as `bind_text_in` writes it.
    Value(Value),
    /// An exact number, such as `-1.50`: at most one `-`, then at most 65 digits with at most one
    /// point between them. It is written as it is, without quotes, so that a server compares it
    /// exactly.
    Decimal(Vec<u8>),
    /// A double, written as a number with an exponent, such as `1.5e0`. A server reads it as this
    /// double.
    Double(Double),
    /// Items with `, ` between them, for a place like `IN (?)`.
    List(Vec<Item>),
    /// Rows of items in brackets with `, ` between them, for a place like `VALUES ?`. All rows have
    /// one length.
    Rows(Vec<Vec<Item>>),
    /// The name of a table or a column. It is written in backquotes, with each backquote in it
    /// doubled.
    Identifier(Vec<u8>),
    /// Names with `.` between them, each written like an `Identifier`: a database and a table in
    /// it.
    Qualified(Vec<Vec<u8>>),
    /// A keyword. It is written as it is.
    Keyword(Keyword),
    /// Columns with `, ` between them, each written like a `Qualified`, for a place like
    /// `INSERT INTO t (?)`.
    Identifiers(Vec<Vec<Vec<u8>>>),
    /// Assignments with `, ` between them, for a place like `SET ?`: `` `a` = 1, `t`.`b` = 'x' ``.
    Assignments(Vec<ColumnAssignment>),
}

/// A column and the item that it is set to.
#[derive(Drop)]
pub struct ColumnAssignment {
    /// The names of the column, like those of a [`Fragment::Qualified`].
    pub column: Vec<Vec<u8>>,
    /// The item, like one of a list.
    pub item: Item,
}

/// A keyword of the program's own, such as `ASC` or `IS NOT NULL`: words of ASCII letters and `_`
/// that begin with a letter, with one space between them. Never make it from a text from outside:
/// choose among keywords that the program contains.
#[derive(Drop)]
pub struct Keyword {
    word: Vec<u8>,
}

impl Keyword {
    /// The keyword with this text, which the program contains. A text that isn't a keyword is
    /// refused when it is bound.
    pub fn new(alloc: Global, word: &'static [u8]) -> Result<Keyword, AllocError>
        ensures { IfOk result (λ keyword. keyword.word.items ≡ word.now) }
    {
        let word = Vec::from_slice(alloc, word)?;
        Ok(Keyword { word })
    }

    /// Its text.
    pub fn as_bytes(&self) -> &[u8]
        ensures { result.now ≡ self.now.word.items }
    {
        self.word.as_slice()
    }
}

/// The fragments for the places of a query.
#[derive(Drop)]
pub enum Fragments {
    /// Fragments by name, which is bytes.
    Named(HashMap<Vec<u8>, Fragment>),
    /// Fragments by position.
    Positional(Vec<Fragment>),
}
