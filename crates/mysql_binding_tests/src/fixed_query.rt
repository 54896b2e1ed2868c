//! Fixed queries: of each function the prover computes that its query is bindable, and of one its
//! text. The tests hold the texts against what was written by hand.
ghost use Rattle.std.specs.Prelude.{◌≡◌, ◌++◌, IfOk, codes};
ghost use Rattle.std.specs.Fmt.{decimal};
ghost use Rattle.mysql_values.specs.LiteralText.{bytes_literal};
ghost use Rattle.mysql_values.specs.StringUnits.{with_backslashes};
ghost use Rattle.mysql_params.specs.SteadyLiteral.{steady_bytes_literal};

use mysql_params::fixed_query::{
    bind_named, bind_named_for, bind_named_in, bind_positional, bind_positional_for,
    bind_positional_in,
};
use mysql_params::{Portability, Purpose, Scope};
use std::alloc::{AllocError, Global};

const CUSTOMER: &[u8] = b"SELECT ':id' FROM customer WHERE id=:id AND :name <> name";

/// For any connection to any server.
const ANYWHERE: Purpose = Purpose {
    scope: Scope::AnyConnection,
    portability: Portability::Servers,
    wide_names: false,
};

/// For either mode of one server.
const IN_BOTH_MODES: Purpose = Purpose {
    scope: Scope::EitherMode,
    portability: Portability::Any,
    wide_names: false,
};

/// For either mode of any server.
const ON_SERVERS: Purpose = Purpose {
    scope: Scope::EitherMode,
    portability: Portability::Servers,
    wide_names: false,
};

/// For one mode of any server.
const ONE_MODE_ON_SERVERS: Purpose = Purpose {
    scope: Scope::OneMode {
        no_backslash_escape: true,
    },
    portability: Portability::Servers,
    wide_names: false,
};

/// The query for a customer.
pub fn customer(alloc: Global, id: u32, name: &str) -> Result<Vec<u8>, AllocError>
    ensures { IfOk result (λ text. text.items
        ≡ codes "SELECT ':id' FROM customer WHERE id=" ++ (decimal id ++ (codes " AND "
        ++ (bytes_literal with_backslashes name.now ++ codes " <> name")))) }
{
    bind_named(alloc, CUSTOMER, &(("name", name), ("id", id)))
}

/// The same without backslash escapes.
pub fn customer_in(alloc: Global, id: u32, name: &str) -> Result<Vec<u8>, AllocError> {
    bind_named_in(alloc, CUSTOMER, &(("name", name), ("id", id)), true)
}

/// The same for any mode and any server.
pub fn customer_anywhere(alloc: Global, id: u32, name: &str) -> Result<Vec<u8>, AllocError>
    ensures { IfOk result (λ text. text.items
        ≡ codes "SELECT ':id' FROM customer WHERE id=" ++ (decimal id ++ (codes " AND "
        ++ (steady_bytes_literal name.now ++ codes " <> name")))) }
{
    bind_named_for(alloc, CUSTOMER, &(("name", name), ("id", id)), ANYWHERE)
}

/// Orders of a customer, of whom no name may be known.
pub fn orders(
    alloc: Global,
    least: i64,
    name: Option<&str>,
    paid: bool,
) -> Result<Vec<u8>, AllocError> {
    let things = (least, name, paid);
    bind_positional(
        alloc,
        b"SELECT * FROM orders -- ?\nWHERE total>? AND (name=? OR paid=?)",
        &things,
    )
}

/// Customers of a name, of whom no town may be known, for any mode and any server.
pub fn customers_of(alloc: Global, name: &str, town: Option<&str>) -> Result<Vec<u8>, AllocError> {
    bind_positional_for(
        alloc,
        b"SELECT * FROM customer /*! */ WHERE name=? AND town<=>?",
        &(name, town),
        ANYWHERE,
    )
}

// A query with bytes from 128 on, and a construct that servers read in different ways.
const SIZES: &[u8] =
    b"SELECT `gr\xc3\xb6\xc3\x9fe`, $$a$$ FROM shoe WHERE size >= :least AND kind = :kind";

/// Sizes of shoes, for either mode of one server.
pub fn sizes(alloc: Global, least: u8, kind: &str) -> Result<Vec<u8>, AllocError> {
    bind_named_for(
        alloc,
        SIZES,
        &(("least", least), ("kind", kind)),
        IN_BOTH_MODES,
    )
}

/// Shoes of a kind, for either mode of any server.
pub fn shoes(alloc: Global, kind: &str) -> Result<Vec<u8>, AllocError>
    ensures { IfOk result (λ text. text.items
        ≡ codes "SELECT * FROM shoe WHERE kind = " ++ steady_bytes_literal kind.now) }
{
    bind_positional_for(
        alloc,
        b"SELECT * FROM shoe WHERE kind = ?",
        &(kind,),
        ON_SERVERS,
    )
}

/// Folders, for one mode of any server.
pub fn folders(alloc: Global, folder: &str) -> Result<Vec<u8>, AllocError> {
    bind_positional_for(
        alloc,
        b"SELECT 'C:\\' FROM folder WHERE name = ?",
        &(folder,),
        ONE_MODE_ON_SERVERS,
    )
}

// With backslash escapes the string of this query would end after the mark.
const PATH: &[u8] = b"SELECT 'C:\\', ?";

/// A query in which a backslash ends a string, without backslash escapes.
pub fn path(alloc: Global, folder: &str) -> Result<Vec<u8>, AllocError> {
    bind_positional_in(alloc, PATH, &(folder,), true)
}

#[cfg(test)]
mod tests {
    use super::*;
    use crate::shared::{answer_of, is_text};

    const PAID_ORDERS: &[u8] = b"SELECT * FROM orders -- ?\nWHERE total>-3 \
        AND (name='x\\' OR \\'1\\'=\\'1' OR paid=1)";

    const HOSTILE: &str = "x' OR '1'='1";

    #[test]
    fn by_name(rt: HostRuntime) {
        let wanted = b"SELECT ':id' FROM customer WHERE id=42 AND 'x\\' OR \\'1\\'=\\'1' <> name";
        is_text(
            &rt,
            answer_of(&rt, customer(rt.alloc(), 42, HOSTILE)),
            wanted,
        );
    }

    #[test]
    fn by_name_without_backslashes(rt: HostRuntime) {
        let wanted = b"SELECT ':id' FROM customer WHERE id=42 AND '\\'' OR 1=1 -- ' <> name";
        is_text(
            &rt,
            answer_of(&rt, customer_in(rt.alloc(), 42, "\\' OR 1=1 -- ")),
            wanted,
        );
    }

    #[test]
    fn by_position(rt: HostRuntime) {
        is_text(
            &rt,
            answer_of(&rt, orders(rt.alloc(), -3, Some(HOSTILE), true)),
            PAID_ORDERS,
        );
        let wanted = b"SELECT * FROM orders -- ?\nWHERE total>0 AND (name=NULL OR paid=0)";
        is_text(
            &rt,
            answer_of(&rt, orders(rt.alloc(), 0, None, false)),
            wanted,
        );
    }

    #[test]
    fn by_position_without_backslashes(rt: HostRuntime) {
        is_text(
            &rt,
            answer_of(&rt, path(rt.alloc(), "D:\\it's")),
            b"SELECT 'C:\\', 'D:\\it''s'",
        );
    }

    #[test]
    fn by_name_anywhere(rt: HostRuntime) {
        let wanted = b"SELECT ':id' FROM customer WHERE id=42 \
            AND _utf8mb4'x'' OR ''1''=''1' <> name";
        is_text(
            &rt,
            answer_of(&rt, customer_anywhere(rt.alloc(), 42, HOSTILE)),
            wanted,
        );
    }

    #[test]
    fn by_position_anywhere(rt: HostRuntime) {
        is_text(
            &rt,
            answer_of(&rt, customers_of(rt.alloc(), "\u{e9}", None)),
            b"SELECT * FROM customer /*! */ WHERE name=_utf8mb4 0xC3A9 AND town<=>NULL",
        );
    }

    #[test]
    fn by_name_in_both_modes(rt: HostRuntime) {
        let wanted = b"SELECT `gr\xc3\xb6\xc3\x9fe`, $$a$$ FROM shoe \
            WHERE size >= 40 AND kind = _utf8mb4'x'' OR ''1''=''1'";
        is_text(&rt, answer_of(&rt, sizes(rt.alloc(), 40, HOSTILE)), wanted);
    }

    #[test]
    fn by_position_on_servers(rt: HostRuntime) {
        is_text(
            &rt,
            answer_of(&rt, shoes(rt.alloc(), "it's\\")),
            b"SELECT * FROM shoe WHERE kind = _utf8mb4 0x697427735C",
        );
        is_text(
            &rt,
            answer_of(&rt, folders(rt.alloc(), "it's\\")),
            b"SELECT 'C:\\' FROM folder WHERE name = 'it''s\\'",
        );
    }
}
