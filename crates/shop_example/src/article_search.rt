//! Articles up to a price, in an order that a user chooses: arguments by name.
ghost use Rattle.std.specs.Prelude.{◌≡◌, Ok, IfOk};
ghost use Rattle.mysql_params.specs.Tokens.{OnTokens};
ghost use Rattle.mysql_values.specs.StringUnits.{with_backslashes};
ghost use Rattle.mysql_params.specs.Expanded.{IsBoundFragments};
ghost use Rattle.mysql_params.specs.GivenFragments.{given_fragments};
ghost use Rattle.mysql_params.specs.declared.fragments.Fragments as declared;
ghost use Rattle.mysql_params.specs.FragmentContent.{keyword};
ghost use Rattle.mysql_params.specs.NamedContents.{contents_of, pairs_made};
ghost use Rattle.shop_example.specs.ArticleSearch.{search_pairs, search_query, way};

use mysql_params::fragments::{
    Decimal, Fragment, FragmentsError, Identifier, ListOf, ToFragment, ToFragments, Word,
    bind_fragments,
};
use mysql_params::params::ToParamsError;
use mysql_values::value::convert::ToValueError;
use std::alloc::Global;
use thiserror::Error;

const SEARCH: &[u8] =
    b"SELECT name FROM article WHERE id IN (:ids) AND price <= :most ORDER BY :column :way";

/// Why there is no query.
#[derive(Debug, PartialEq, Drop, Error)]
pub enum SearchError {
    #[error(transparent)]
    Arguments(ToParamsError),
    #[error(transparent)]
    Fragments(FragmentsError),
}

/// The direction of an order.
#[derive(Clone, Copy)]
pub enum Direction {
    Ascending,
    Descending,
}

impl ToFragment for Direction {
    ghost said = { λ direction. Ok (keyword (way direction)) };

    fn to_fragment(&self, alloc: Global) -> Result<Fragment, ToValueError> {
        match self {
            Direction::Ascending => Word(b"ASC").to_fragment(alloc),
            Direction::Descending => Word(b"DESC").to_fragment(alloc),
        }
    }
}

/// The query for the articles among these numbers that cost at most so much, as `19.99`, in the
/// order of a column. The column's name may come from outside.
pub fn articles_up_to(
    alloc: Global,
    ids: &[u64],
    most: &[u8],
    column: &[u8],
    direction: Direction,
) -> Result<Vec<u8>, SearchError>
    ensures bound { IfOk result (λ text. (fragments : declared.Fragments)
        × (pairs_made (search_pairs ids.now most.now column.now direction)
        ≡ Ok (contents_of fragments))
        × OnTokens with_backslashes search_query (λ ts.
        IsBoundFragments with_backslashes ts (given_fragments fragments) text.items)) }
{
    let arguments = (
        ("ids", ListOf(ids)),
        ("most", Decimal(most)),
        ("column", Identifier(column)),
        ("way", direction),
    );
    let fragments = match arguments.to_fragments(alloc) {
        Ok(fragments) => fragments,
        Err(error) => return Err(SearchError::Arguments(error)),
    };
    match bind_fragments(alloc, SEARCH, &fragments) {
        Ok(text) => Ok(text),
        Err(error) => Err(SearchError::Fragments(error)),
    }
}

#[cfg(test)]
mod tests {
    use super::*;

    const FOUND: &[u8] =
        b"SELECT name FROM article WHERE id IN (7, 1) AND price <= 19.99 ORDER BY `a``b` DESC";

    #[test]
    fn among_two_up_to_a_price(rt: HostRuntime) {
        let text = articles_up_to(
            rt.alloc(),
            &[7, 1],
            b"19.99",
            b"a`b",
            Direction::Descending,
        ).ok();
        let is_bound = match &text {
            Some(text) => text.as_slice() == FOUND,
            None => false,
        };
        assert!(rt; is_bound);
    }
}
