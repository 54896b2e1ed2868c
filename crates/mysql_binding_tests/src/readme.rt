//! The first call, to which README links: a query of texts that come as arguments, by name and by
//! position.
use mysql_params::params::{Params, ToParams, ToParamsError};
use mysql_params::{BindError, SteadyTextError, bind_text, bind_text_anywhere};
use mysql_values::value::convert::{ToValue, ToValueError};
use std::alloc::Global;
use thiserror::Error;

/// Why there is no query.
#[derive(Debug, Drop, Error)]
pub enum QueryError {
    #[error(transparent)]
    Value(#[from] ToValueError),
    #[error(transparent)]
    Params(#[from] ToParamsError),
    #[error(transparent)]
    Bind(#[from] BindError),
    #[error(transparent)]
    Anywhere(#[from] SteadyTextError),
}

/// The query for a customer.
pub fn customer(alloc: Global, id: u64, name: &str) -> Result<Vec<u8>, QueryError> {
    let pairs = [("id", id.to_value(alloc)?), ("name", name.to_value(alloc)?)];
    let params = Params::from_pairs(alloc, &pairs)?;
    Ok(bind_text(alloc, b"SELECT :id, ':id', :name", params)?)
}

/// The same by position.
pub fn customer_by_position(alloc: Global, id: u64, name: &str) -> Result<Vec<u8>, QueryError> {
    let params = (id, name).to_params(alloc)?;
    Ok(bind_text(alloc, b"SELECT ?, ':id', ?", params)?)
}

/// The query for a customer, for any server.
pub fn customer_anywhere(alloc: Global, id: u64) -> Result<Vec<u8>, QueryError> {
    let params = Params::from_pairs(alloc, &[("id", id.to_value(alloc)?)])?;
    Ok(bind_text_anywhere(alloc, b"SELECT :id", params)?)
}

#[cfg(test)]
mod tests {
    use super::*;
    use std::process::Abort;

    const HOSTILE: &str = "x' OR '1'='1";

    const BOUND: &[u8] = b"SELECT 42, ':id', 'x\\' OR \\'1\\'=\\'1'";

    // The text is this.
    fn gives(rt: &impl Abort, found: Result<Vec<u8>, QueryError>, wanted: &[u8]) {
        let text = found.expect(rt, "an error in place of a text");
        assert!(rt; text.as_slice() == wanted);
    }

    #[test]
    fn by_name(rt: HostRuntime) {
        gives(&rt, customer(rt.alloc(), 42, HOSTILE), BOUND);
    }

    #[test]
    fn for_any_server(rt: HostRuntime) {
        gives(&rt, customer_anywhere(rt.alloc(), 42), b"SELECT 42");
    }

    #[test]
    fn by_position(rt: HostRuntime) {
        gives(&rt, customer_by_position(rt.alloc(), 42, HOSTILE), BOUND);
    }
}
