//! Arguments that make a fragment.
ghost use Rattle.std.specs.Prelude.{◌≡◌, Ok, IfOk, map, ⊤};
ghost use Rattle.mysql_values.specs.Answer.{IsAnswer};
ghost use Rattle.mysql_values.specs.ValueOf.{too_long_duration};
ghost use Rattle.mysql_params_core.specs.Names.{names_of};
ghost use Rattle.mysql_params_core.specs.Referents.{referents};
ghost use Rattle.mysql_to_fragments.specs.FragmentContent.{columns_content, content_of, identifier, identifiers, keyword, qualified};
ghost use Rattle.mysql_to_fragments.specs.Arguments.{SaidFragment, alone, made_of};

use crate::item::ToItem;
use mysql_fragments::{Fragment, Item, Keyword};
use mysql_values::value::convert::ToValueError;
use std::alloc::{AllocError, Global};

/// An argument that makes a fragment: one that makes an item, such as a value;
/// [`ListOf`](crate::ListOf), [`RowsOf`](crate::RowsOf) and
/// [`AssignmentsOf`](crate::AssignmentsOf); [`Identifier`], [`Qualified`], [`Identifiers`] and
/// [`Word`]; or a type of the caller's own.
pub trait ToFragment {
    // the content of the fragment, or the first duration in it that is too long for a value
    ghost said: { Self → SaidFragment };

    /// The fragment. `DurationTooLong` is returned only if the type's `said` is such a duration.
    /// `Memory` may come in place of any other result.
    fn to_fragment(&self, alloc: Global) -> Result<Fragment, ToValueError>
        ensures { IsAnswer content_of too_long_duration (said self.now) ⊤ result };
}

impl<T: ToItem> ToFragment for T {
    ghost said = { λ argument. made_of alone (T.said_item argument) };

    fn to_fragment(&self, alloc: Global) -> Result<Fragment, ToValueError> {
        match self.to_item(alloc)? {
            Item::Value(value) => Ok(Fragment::Value(value)),
            Item::Decimal(number) => Ok(Fragment::Decimal(number)),
            Item::Double(double) => Ok(Fragment::Double(double)),
        }
    }
}

/// The name of a table or a column, which may come from outside: it is written in backquotes.
#[derive(Clone, Copy)]
pub struct Identifier<'a>(pub &'a [u8]);

impl<'a> ToFragment for Identifier<'a> {
    ghost said = { λ name. Ok (identifier name.0.now) };

    fn to_fragment(&self, alloc: Global) -> Result<Fragment, ToValueError> {
        Ok(Fragment::Identifier(Vec::from_slice(alloc, self.0)?))
    }
}

/// Names with `.` between them, each like an [`Identifier`]: a database and a table in it.
#[derive(Clone, Copy)]
pub struct Qualified<'a>(pub &'a [&'a [u8]]);

impl<'a> ToFragment for Qualified<'a> {
    ghost said = { λ names. Ok (qualified (referents names.0.now)) };

    fn to_fragment(&self, alloc: Global) -> Result<Fragment, ToValueError> {
        Ok(Fragment::Qualified(copies(alloc, self.0)?))
    }
}

/// Columns with `, ` between them, each like a [`Qualified`], for a place like
/// `INSERT INTO t (:columns)`.
#[derive(Clone, Copy)]
pub struct Identifiers<'a>(pub &'a [&'a [&'a [u8]]]);

impl<'a> ToFragment for Identifiers<'a> {
    ghost said = { λ columns. Ok (identifiers (map referents (referents columns.0.now))) };

    fn to_fragment(&self, alloc: Global) -> Result<Fragment, ToValueError> {
        Ok(Fragment::Identifiers(copies_of_columns(alloc, self.0)?))
    }
}

// Copies of the names of the columns.
fn copies_of_columns(alloc: Global, columns: &[&[&[u8]]]) -> Result<Vec<Vec<Vec<u8>>>, AllocError>
    ensures { IfOk result (λ copied.
        columns_content copied.items ≡ map referents (referents columns.now)) }
{
    let mut copied = Vec::new(alloc);
    for names in columns {
        copied.push(copies(alloc, *names)?)?;
    }
    Ok(copied)
}

/// Copies of the names.
pub(crate) fn copies(alloc: Global, names: &[&[u8]]) -> Result<Vec<Vec<u8>>, AllocError>
    ensures { IfOk result (λ copies. names_of copies.items ≡ referents names.now) }
{
    let mut copies = Vec::new(alloc);
    for name in names {
        copies.push(Vec::from_slice(alloc, *name)?)?;
    }
    Ok(copies)
}

/// A keyword of the program's own, such as `DESC`: the text of a
/// [`Keyword`](mysql_fragments::Keyword).
#[derive(Clone, Copy)]
pub struct Word(pub &'static [u8]);

impl ToFragment for Word {
    ghost said = { λ word. Ok (keyword word.0.now) };

    fn to_fragment(&self, alloc: Global) -> Result<Fragment, ToValueError> {
        Ok(Fragment::Keyword(Keyword::new(alloc, self.0)?))
    }
}
