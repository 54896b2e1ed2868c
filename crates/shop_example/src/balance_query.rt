//! A statement that is a constant, with a number that has a sign.
ghost use Rattle.std.specs.Prelude.{◌≡◌, IfOk};
ghost use Rattle.shop_example.specs.BalanceQuery.{balance_text};

use mysql_params::fixed_query::bind_named;
use std::alloc::{AllocError, Global};

const BALANCE: &[u8] = b"UPDATE account SET balance = balance + :change WHERE id = :id";

/// The statement that changes the balance of this account. It is refused for nothing but memory.
pub fn change_balance(alloc: Global, id: u32, change: i64) -> Result<Vec<u8>, AllocError>
    ensures text { IfOk result (λ text. text.items ≡ balance_text change id) }
{
    bind_named(alloc, BALANCE, &(("change", change), ("id", id)))
}

#[cfg(test)]
mod tests {
    use super::*;
    use crate::shared::gives;

    #[test]
    fn negative_change(rt: HostRuntime) {
        gives(
            &rt,
            change_balance(rt.alloc(), 7, -5),
            b"UPDATE account SET balance = balance + -5 WHERE id = 7",
        );
    }
}
