//! Queries for orders that come from elsewhere.
ghost use Rattle.std.specs.Prelude.{◌≡◌, Ok, IfErr, IfOk, ⊤};
ghost use Rattle.mysql_values.specs.Answer.{IsExpectedRefusal};
ghost use Rattle.mysql_values.specs.StringUnits.{with_backslashes};
ghost use Rattle.mysql_params.specs.Errors.{to_params_refusal};
ghost use Rattle.mysql_params.specs.Given.{Given, given};
ghost use Rattle.mysql_params.specs.Isolation.{IsBoundText};
ghost use Rattle.mysql_params.specs.Tokens.{OnTokens};
ghost use Rattle.shop_example.specs.OrderQuery.{IsQueryRefusal, search_made};

use crate::day::Day;
use mysql_params::params::{Params, ToPairs, ToParamsError};
use mysql_params::{BindError, bind_text};
use std::alloc::Global;
use thiserror::Error;

/// Why there is no query.
#[derive(Debug, PartialEq, Drop, Error)]
pub enum QueryError {
    #[error(transparent)]
    Params(ToParamsError),
    #[error(transparent)]
    Bind(BindError),
}

/// A query of the caller's with its names `customer`, `from` and `text` bound.
pub fn search_orders(
    alloc: Global,
    query: &[u8],
    customer: u64,
    from: Day,
    text: &str,
) -> Result<Vec<u8>, QueryError>
    ensures bound { IfOk result (λ sql. (values : Given)
        × (search_made customer from text.now ≡ Ok values)
        × OnTokens with_backslashes query.now (λ ts.
        IsBoundText with_backslashes ts values sql.items)) }
    ensures refused { IfErr result (IsQueryRefusal query.now (search_made customer from text.now)) }
{
    let params = match search_params(alloc, customer, from, text) {
        Ok(params) => params,
        Err(error) => return Err(QueryError::Params(error)),
    };
    match bind_text(alloc, query, params) {
        Ok(sql) => Ok(sql),
        Err(error) => Err(QueryError::Bind(error)),
    }
}

// The parameters of a search.
fn search_params(
    alloc: Global,
    customer: u64,
    from: Day,
    text: &str,
) -> Result<Params, ToParamsError>
    ensures given { IfOk result (λ params. search_made customer from text.now ≡ Ok (given params)) }
    ensures refused { IfErr result (λ error.
        IsExpectedRefusal (search_made customer from text.now) ⊤ (to_params_refusal error)) }
{
    (("customer", customer), ("from", from), ("text", text)).to_named(alloc)
}

#[cfg(test)]
mod tests {
    use super::*;
    use crate::shared::{gives, same};
    use mysql_params::params::ParamsError;

    const SEARCH: &[u8] =
        b"SELECT id FROM orders WHERE customer = :customer AND day >= :from AND note = :text";

    const FOUND: &[u8] =
        b"SELECT id FROM orders WHERE customer = 42 AND day >= '2026-01-01' AND note = 'A\\'1'";

    const NEW_YEAR: Day = Day {
        year: 2026,
        month: 1,
        day: 1,
    };

    #[test]
    fn by_name(rt: HostRuntime) {
        gives(
            &rt,
            search_orders(rt.alloc(), SEARCH, 42, NEW_YEAR, "A'1"),
            FOUND,
        );
    }

    #[test]
    fn a_name_of_no_value(rt: HostRuntime) {
        let refusal = search_orders(rt.alloc(), b"SELECT :costumer", 42, NEW_YEAR, "").err();
        let is_missing = matches!(
            &refusal,
            Some(QueryError::Bind(BindError::Params(ParamsError::Missing(_))))
        );
        same(&rt, is_missing, true);
    }
}
