//! Articles in an order that a user chooses.
ghost use Rattle.std.specs.Prelude.{◌≡◌, Bool, IfOk};
ghost use Rattle.mysql_params.specs.Tokens.{OnTokens};
ghost use Rattle.mysql_values.specs.StringUnits.{with_backslashes};
ghost use Rattle.mysql_params.specs.Expanded.{IsBoundFragments};
ghost use Rattle.mysql_params.specs.GivenFragments.{GivenFragments};
ghost use Rattle.shop_example.specs.SortedArticles.{AreOrder, IsOrder, direction, sorted_query};

use mysql_params::fragments::{Fragment, Fragments, FragmentsError, Keyword, bind_fragments};
use std::alloc::{AllocError, Global};

const SORTED: &[u8] = b"SELECT id, name FROM article ORDER BY ? ?";

/// The query for all articles in the order of a column. The column's name may come from outside: it
/// is written in backquotes. The direction is one of two keywords of the program's own.
pub fn articles_by(
    alloc: Global,
    column: &[u8],
    descending: bool,
) -> Result<Vec<u8>, FragmentsError>
    ensures bound { IfOk result (λ text. (given : GivenFragments)
        × OnTokens with_backslashes sorted_query (λ ts.
        IsBoundFragments with_backslashes ts given text.items)
        × IsOrder column.now (direction descending) given) }
{
    match order(alloc, column, descending) {
        Ok(list) => bind_fragments(alloc, SORTED, &Fragments::Positional(list)),
        Err(error) => Err(FragmentsError::Memory(error)),
    }
}

// The column and the direction.
fn order(alloc: Global, column: &[u8], descending: bool) -> Result<Vec<Fragment>, AllocError>
    ensures { IfOk result (λ list. AreOrder column.now (direction descending) list.items) }
{
    let name = Vec::from_slice(alloc, column)?;
    let word = direction(alloc, descending)?;
    Ok(vec![in alloc; Fragment::Identifier(name), Fragment::Keyword(word)]?)
}

// `DESC` or `ASC`.
fn direction(alloc: Global, descending: bool) -> Result<Keyword, AllocError>
    ensures { IfOk result (λ keyword. keyword.word.items ≡ direction descending) }
{
    if descending {
        Keyword::new(alloc, b"DESC")
    } else {
        Keyword::new(alloc, b"ASC")
    }
}

#[cfg(test)]
mod tests {
    use super::*;

    #[test]
    fn by_a_name_with_a_backquote(rt: HostRuntime) {
        let text = articles_by(rt.alloc(), b"a`b", true).ok();
        let is_bound = match &text {
            Some(text) => {
                text.as_slice() == b"SELECT id, name FROM article ORDER BY `a``b` DESC".as_slice()
            }
            None => false,
        };
        assert!(rt; is_bound);
    }
}
