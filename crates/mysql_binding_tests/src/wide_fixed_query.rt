//! Fixed queries with capitals in their names: of each function the prover computes that its query
//! is bindable, and of two their text. The tests hold the texts against what was written by hand.
ghost use Rattle.std.specs.Prelude.{◌≡◌, ◌++◌, IfOk, codes};
ghost use Rattle.std.specs.Fmt.{decimal};
ghost use Rattle.mysql_values.specs.LiteralText.{bytes_literal};
ghost use Rattle.mysql_values.specs.StringUnits.{with_backslashes};
ghost use Rattle.mysql_params.specs.SteadyLiteral.{steady_bytes_literal};

use mysql_params::fixed_query::bind_named_for;
use mysql_params::{Portability, Purpose, Scope};
use std::alloc::{AllocError, Global};

/// For one server in the mode in which a backslash escapes, by wide names.
const WITH_BACKSLASHES: Purpose = Purpose {
    scope: Scope::OneMode {
        no_backslash_escape: false,
    },
    portability: Portability::Any,
    wide_names: true,
};

/// The same in the other mode.
const WITHOUT_BACKSLASHES: Purpose = Purpose {
    scope: Scope::OneMode {
        no_backslash_escape: true,
    },
    portability: Portability::Any,
    wide_names: true,
};

/// For any connection to any server, by wide names.
const ANYWHERE: Purpose = Purpose {
    scope: Scope::AnyConnection,
    portability: Portability::Servers,
    wide_names: true,
};

/// For either mode of any server, by wide names.
const IN_BOTH_MODES: Purpose = Purpose {
    scope: Scope::EitherMode,
    portability: Portability::Servers,
    wide_names: true,
};

const USER: &[u8] = b"SELECT ':Id' FROM user WHERE id = :userId AND :Name <> name";

/// The query for a user.
pub fn user(alloc: Global, id: u32, name: &str) -> Result<Vec<u8>, AllocError>
    ensures { IfOk result (λ text. text.items
        ≡ codes "SELECT ':Id' FROM user WHERE id = " ++ (decimal id ++ (codes " AND "
        ++ (bytes_literal with_backslashes name.now ++ codes " <> name")))) }
{
    bind_named_for(
        alloc,
        USER,
        &(("Name", name), ("userId", id)),
        WITH_BACKSLASHES,
    )
}

/// The same for any mode and any server.
pub fn user_anywhere(alloc: Global, id: u32, name: &str) -> Result<Vec<u8>, AllocError>
    ensures { IfOk result (λ text. text.items
        ≡ codes "SELECT ':Id' FROM user WHERE id = " ++ (decimal id ++ (codes " AND "
        ++ (steady_bytes_literal name.now ++ codes " <> name")))) }
{
    bind_named_for(alloc, USER, &(("Name", name), ("userId", id)), ANYWHERE)
}

/// The same without backslash escapes.
pub fn user_in(alloc: Global, id: u32, name: &str) -> Result<Vec<u8>, AllocError> {
    bind_named_for(
        alloc,
        USER,
        &(("Name", name), ("userId", id)),
        WITHOUT_BACKSLASHES,
    )
}

/// Names that differ by their case alone, one of them twice.
pub fn three_ids(alloc: Global, ids: (u8, i16, bool)) -> Result<Vec<u8>, AllocError> {
    let pairs = (("id", ids.0), ("Id", ids.1), ("ID", ids.2));
    bind_named_for(
        alloc,
        b"SELECT (:ID, :id-:Id) -- :Id\n, :id",
        &pairs,
        WITH_BACKSLASHES,
    )
}

// With backslash escapes the string of this query would end after the name.
const PATH: &[u8] = b"SELECT 'C:\\', :_Path";

/// A query in which a backslash ends a string, without backslash escapes.
pub fn path(alloc: Global, folder: &str) -> Result<Vec<u8>, AllocError> {
    bind_named_for(alloc, PATH, &(("_Path", folder),), WITHOUT_BACKSLASHES)
}

/// A query whose name has no capital, for any mode and any server.
pub fn lower_case(alloc: Global, town: Option<&str>) -> Result<Vec<u8>, AllocError> {
    bind_named_for(
        alloc,
        b"SELECT T.* /*! */ FROM T WHERE town<=>:town",
        &(("town", town),),
        ANYWHERE,
    )
}

/// A query with bytes from 128 on, for either mode of any server.
pub fn shoes(alloc: Global, least: u8) -> Result<Vec<u8>, AllocError> {
    bind_named_for(
        alloc,
        b"SELECT `gr\xc3\xb6\xc3\x9fe` FROM shoe WHERE size >= :atLeast",
        &(("atLeast", least),),
        IN_BOTH_MODES,
    )
}

#[cfg(test)]
mod tests {
    use super::*;
    use crate::shared::{answer_of, is_text};

    const HOSTILE: &str = "x' OR '1'='1";

    #[test]
    fn by_wide_name(rt: HostRuntime) {
        is_text(
            &rt,
            answer_of(&rt, user(rt.alloc(), 42, HOSTILE)),
            b"SELECT ':Id' FROM user WHERE id = 42 AND 'x\\' OR \\'1\\'=\\'1' <> name",
        );
    }

    #[test]
    fn by_wide_name_without_backslashes(rt: HostRuntime) {
        is_text(
            &rt,
            answer_of(&rt, user_in(rt.alloc(), 42, "\\' OR 1=1 -- ")),
            b"SELECT ':Id' FROM user WHERE id = 42 AND '\\'' OR 1=1 -- ' <> name",
        );
        is_text(
            &rt,
            answer_of(&rt, path(rt.alloc(), "D:\\it's")),
            b"SELECT 'C:\\', 'D:\\it''s'",
        );
    }

    #[test]
    fn by_wide_name_anywhere(rt: HostRuntime) {
        is_text(
            &rt,
            answer_of(&rt, user_anywhere(rt.alloc(), 42, HOSTILE)),
            b"SELECT ':Id' FROM user WHERE id = 42 AND _utf8mb4'x'' OR ''1''=''1' <> name",
        );
        is_text(
            &rt,
            answer_of(&rt, lower_case(rt.alloc(), Some("\u{e9}"))),
            b"SELECT T.* /*! */ FROM T WHERE town<=>_utf8mb4 0xC3A9",
        );
    }

    #[test]
    fn by_names_that_differ_by_case(rt: HostRuntime) {
        is_text(
            &rt,
            answer_of(&rt, three_ids(rt.alloc(), (1, -2, true))),
            b"SELECT (1, 1--2) -- :Id\n, 1",
        );
    }

    #[test]
    fn by_wide_name_in_both_modes(rt: HostRuntime) {
        is_text(
            &rt,
            answer_of(&rt, shoes(rt.alloc(), 40)),
            b"SELECT `gr\xc3\xb6\xc3\x9fe` FROM shoe WHERE size >= 40",
        );
    }
}
