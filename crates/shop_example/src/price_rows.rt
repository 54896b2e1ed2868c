//! Prices of many articles in one statement, each compared and stored exactly.
ghost use Rattle.std.specs.Prelude.{◌≡◌, IfOk, map};
ghost use Rattle.mysql_params.specs.Tokens.{OnTokens};
ghost use Rattle.mysql_values.specs.StringUnits.{with_backslashes};
ghost use Rattle.mysql_params.specs.Expanded.{IsBoundFragments};
ghost use Rattle.mysql_params.specs.GivenFragments.{GivenFragments};
ghost use Rattle.shop_example.specs.PriceRows.{ArePriceRows, AreGivenRows, IsPriceRow, prices_query};

use crate::one_fragment::one_fragment;
use mysql_params::fragments::{Fragment, Fragments, FragmentsError, Item, bind_fragments};
use mysql_values::value::Value;
use std::alloc::{AllocError, Global};

const PRICES: &[u8] = b"INSERT INTO price (article, amount) VALUES ?";

/// The price of an article.
#[derive(Drop)]
pub struct Price {
    /// The number of the article.
    pub article: u64,
    /// The amount as it is written, as `19.99`.
    pub amount: String,
}

/// The statement that inserts these prices. It refuses no prices, since `VALUES` needs a row, and
/// an amount that is no exact number, as `1e3`, with the number of its row.
pub fn insert_prices(alloc: Global, prices: &[Price]) -> Result<Vec<u8>, FragmentsError>
    ensures bound { IfOk result (λ text. (given : GivenFragments)
        × OnTokens with_backslashes prices_query (λ ts.
        IsBoundFragments with_backslashes ts given text.items)
        × AreGivenRows prices.now given) }
{
    let rows = match price_rows(alloc, prices) {
        Ok(rows) => rows,
        Err(error) => return Err(FragmentsError::Memory(error)),
    };
    match one_fragment(alloc, Fragment::Rows(rows)) {
        Ok(list) => bind_fragments(alloc, PRICES, &Fragments::Positional(list)),
        Err(error) => Err(FragmentsError::Memory(error)),
    }
}

// A row for each price.
fn price_rows(alloc: Global, prices: &[Price]) -> Result<Vec<Vec<Item>>, AllocError>
    ensures { IfOk result (λ rows. ArePriceRows prices.now rows.items) }
{
    let mut rows = Vec::new(alloc);
    for price in prices {
        rows.push(price_row(alloc, price)?)?;
    }
    Ok(rows)
}

// The row of a price: the number of the article, and the amount as an exact number.
fn price_row(alloc: Global, price: &Price) -> Result<Vec<Item>, AllocError>
    ensures { IfOk result (λ row. IsPriceRow price.now row.items) }
{
    let amount = Vec::from_slice(alloc, price.amount.as_bytes())?;
    Ok(vec![in alloc;
        Item::Value(Value::UInt(price.article)),
        Item::Decimal(amount),
    ]?)
}

#[cfg(test)]
mod tests {
    use super::*;
    use mysql_params::fragments::FragmentFault;

    const INSERTED: &[u8] = b"INSERT INTO price (article, amount) VALUES (1, 19.99), (2, 0.50)";

    // What comes of inserting two prices, the second with this amount.
    fn inserted(alloc: Global, amount: &str) -> Result<Vec<u8>, FragmentsError> {
        match two_prices(alloc, amount) {
            Ok(prices) => insert_prices(alloc, prices.as_slice()),
            Err(error) => Err(FragmentsError::Memory(error)),
        }
    }

    // The first price is 19.99.
    fn two_prices(alloc: Global, amount: &str) -> Result<Vec<Price>, AllocError> {
        let first = String::from_str(alloc, "19.99")?;
        let second = String::from_str(alloc, amount)?;
        Ok(vec![in alloc;
            Price {
                article: 1,
                amount: first
            },
            Price {
                article: 2,
                amount: second
            },
        ]?)
    }

    #[test]
    fn prices_of_two_articles(rt: HostRuntime) {
        let text = inserted(rt.alloc(), "0.50").ok();
        let is_bound = match &text {
            Some(text) => text.as_slice() == INSERTED,
            None => false,
        };
        assert!(rt; is_bound);
    }

    #[test]
    fn an_amount_with_an_exponent(rt: HostRuntime) {
        let error = inserted(rt.alloc(), "1e3").err();
        let is_told = matches!(
            &error,
            Some(FragmentsError::Fault {
                place: 0,
                fault: FragmentFault::Number { row: 1, item: 1 },
            })
        );
        assert!(rt; is_told);
    }
}
