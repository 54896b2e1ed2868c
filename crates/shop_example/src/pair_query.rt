//! A query that comes from elsewhere, with names and values as they are at hand.
ghost use Rattle.std.specs.Prelude.{◌≡◌, Ok, IfErr, IfOk};
ghost use Rattle.mysql_values.specs.StringUnits.{with_backslashes};
ghost use Rattle.mysql_params.specs.Given.{Given};
ghost use Rattle.mysql_params.specs.Isolation.{IsBoundText};
ghost use Rattle.mysql_params.specs.Tokens.{OnTokens};
ghost use Rattle.shop_example.specs.PairQuery.{IsOrdersRefusal, orders_made};

use mysql_params::{BindPairsError, bind_pairs};
use mysql_values::value::ValueRef;
use std::alloc::Global;

/// A query of the caller's with its names `customer` and `text` bound.
pub fn find_orders(
    alloc: Global,
    query: &[u8],
    customer: u64,
    text: &str,
) -> Result<Vec<u8>, BindPairsError>
    ensures bound { IfOk result (λ sql. (values : Given)
        × (orders_made customer text.now ≡ Ok values)
        × OnTokens with_backslashes query.now (λ ts.
        IsBoundText with_backslashes ts values sql.items)) }
    ensures refused { IfErr result (IsOrdersRefusal query.now (orders_made customer text.now)) }
{
    let pairs = [
        (b"customer".as_slice(), ValueRef::UInt(customer)),
        (b"text".as_slice(), ValueRef::Bytes(text.as_bytes())),
    ];
    bind_pairs(alloc, query, &pairs, false)
}

#[cfg(test)]
mod tests {
    use super::*;
    use crate::shared::{gives, same};
    use mysql_params::BindError;
    use mysql_params::params::ParamsError;

    #[test]
    fn by_name(rt: HostRuntime) {
        gives(
            &rt,
            find_orders(
                rt.alloc(),
                b"SELECT id FROM orders WHERE customer = :customer AND note = :text",
                42,
                "A'1",
            ),
            b"SELECT id FROM orders WHERE customer = 42 AND note = 'A\\'1'",
        );
    }

    #[test]
    fn a_name_of_no_value(rt: HostRuntime) {
        let refusal = find_orders(rt.alloc(), b"SELECT :costumer", 42, "").err();
        let is_missing = matches!(
            &refusal,
            Some(BindPairsError::Bind(BindError::Params(ParamsError::Missing(_))))
        );
        same(&rt, is_missing, true);
    }
}
