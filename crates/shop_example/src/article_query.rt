//! A query for an article that is a constant, with its values by position.
ghost use Rattle.std.specs.Prelude.{◌≡◌, [], ◌∷◌, IfOk};
ghost use Rattle.mysql_params.specs.FixedText.{bound_text};
ghost use Rattle.mysql_values.specs.StringUnits.{with_backslashes};
ghost use Rattle.mysql_values.specs.declared.value.Value.TheVariants.{Bytes, UInt};

use mysql_params::fixed_query::bind_positional;
use std::alloc::{AllocError, Global};

const IN_STOCK: &[u8] = b"SELECT name FROM article WHERE sku = ? AND stock >= ?;";

/// The query for the name of an article with at least so many in stock.
pub fn article_in_stock(alloc: Global, sku: &str, count: u32) -> Result<Vec<u8>, AllocError>
    ensures text { IfOk result (λ text. text.items ≡
        bound_text with_backslashes IN_STOCK.now (Bytes sku.now ∷ UInt count ∷ [])) }
{
    bind_positional(alloc, IN_STOCK, &(sku, count))
}

#[cfg(test)]
mod tests {
    use super::*;
    use crate::shared::gives;

    #[test]
    fn hostile_number(rt: HostRuntime) {
        gives(
            &rt,
            article_in_stock(rt.alloc(), "A'1", 3),
            b"SELECT name FROM article WHERE sku = 'A\\'1' AND stock >= 3;",
        );
    }
}
