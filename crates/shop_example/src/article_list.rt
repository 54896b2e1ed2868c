//! Articles by a list of their numbers.
ghost use Rattle.std.specs.Prelude.{◌≡◌, IfOk, map};
ghost use Rattle.mysql_params.specs.Tokens.{OnTokens};
ghost use Rattle.mysql_values.specs.StringUnits.{with_backslashes};
ghost use Rattle.mysql_params.specs.Expanded.{IsBoundFragments};
ghost use Rattle.mysql_params.specs.GivenFragments.{GivenFragments};
ghost use Rattle.shop_example.specs.ArticleList.{IsListOf, among_query, number_item};

use crate::one_fragment::one_fragment;
use mysql_params::fragments::{Fragment, Fragments, FragmentsError, Item, bind_fragments};
use mysql_values::value::Value;
use std::alloc::{AllocError, Global};

const AMONG: &[u8] = b"SELECT name FROM article WHERE id IN (?)";

/// The query for the names of the articles of these numbers. It refuses an empty list, since
/// `IN ()` is no SQL: a caller answers for none without a query.
pub fn articles_among(alloc: Global, ids: &[u64]) -> Result<Vec<u8>, FragmentsError>
    ensures bound { IfOk result (λ text. (given : GivenFragments)
        × OnTokens with_backslashes among_query (λ ts.
        IsBoundFragments with_backslashes ts given text.items)
        × IsListOf (map number_item ids.now) given) }
{
    let items = match number_items(alloc, ids) {
        Ok(items) => items,
        Err(error) => return Err(FragmentsError::Memory(error)),
    };
    match one_fragment(alloc, Fragment::List(items)) {
        Ok(list) => bind_fragments(alloc, AMONG, &Fragments::Positional(list)),
        Err(error) => Err(FragmentsError::Memory(error)),
    }
}

// An item for each number.
fn number_items(alloc: Global, ids: &[u64]) -> Result<Vec<Item>, AllocError>
    ensures { IfOk result (λ items. items.items ≡ map number_item ids.now) }
{
    ids.iter()
        .map(|id| Item::Value(Value::UInt(*id)))
        .collect(alloc)
}

#[cfg(test)]
mod tests {
    use super::*;

    #[test]
    fn among_three(rt: HostRuntime) {
        let text = articles_among(rt.alloc(), &[7, 1, 42]).ok();
        let is_bound = match &text {
            Some(text) => {
                text.as_slice() == b"SELECT name FROM article WHERE id IN (7, 1, 42)".as_slice()
            }
            None => false,
        };
        assert!(rt; is_bound);
    }
}
