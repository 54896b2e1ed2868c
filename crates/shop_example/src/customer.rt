//! The query for a customer.
ghost use Rattle.std.specs.Prelude.{◌≡◌, IfOk};
ghost use Rattle.shop_example.specs.Customer.{customer_text};

use mysql_params::fixed_query::bind_named;
use std::alloc::{AllocError, Global};

const CUSTOMER: &[u8] = b"SELECT * FROM customer WHERE id = :id AND name = :name";

/// The query for the customer of this number and name. Nothing but memory is refused.
pub fn customer_by_id(alloc: Global, id: u32, name: &str) -> Result<Vec<u8>, AllocError>
    ensures text { IfOk result (λ text. text.items ≡ customer_text id name.now) }
{
    bind_named(alloc, CUSTOMER, &(("id", id), ("name", name)))
}

#[cfg(test)]
mod tests {
    use super::*;
    use mysql_params::first_unportable;
    use std::test::Fail;

    #[test]
    fn hostile_name(rt: HostRuntime) -> Result<(), Fail> {
        let text = customer_by_id(rt.alloc(), 42, "x' OR '1'='1")?;
        assert_eq!(rt;
            text.as_slice(),
            b"SELECT * FROM customer WHERE id = 42 AND name = 'x\\' OR \\'1\\'=\\'1'".as_slice()
        );
        Ok(())
    }

    #[test]
    fn portable(rt: HostRuntime) -> Result<(), Fail> {
        assert_eq!(rt; first_unportable(CUSTOMER, false), None);
        Ok(())
    }
}
