//! Fixed queries: `bind_named` and `bind_positional`, and each in a mode and for a purpose.
use crate::outcome::{Case, Outcome, cases, judged, row};
use crate::purposes::{ANYWHERE, IN_BOTH_MODES, WIDE, WIDE_ANYWHERE, WIDE_WITHOUT_BACKSLASHES};
use mysql_params::fixed_query::{
    bind_named, bind_named_for, bind_named_in, bind_positional, bind_positional_for,
    bind_positional_in,
};
use std::alloc::{AllocError, Global};

/// A call that binds a fixed query.
#[derive(Clone, Copy)]
enum Call {
    ByName,
    ByNameIn,
    ByNameAnywhere,
    ByNameInBothModes,
    ByWideName,
    ByWideNameIn,
    ByWideNameAnywhere,
    ByPosition,
    WithoutPlaces,
    ByPositionIn,
    ByPositionAnywhere,
}

const CALLS: &[(&str, Call)] = cases! {
    "bind_named of a text and a number" => Call::ByName;
    "bind_named_in of a text without backslash escapes" => Call::ByNameIn;
    "bind_named_for any connection of a text and a number" => Call::ByNameAnywhere;
    "bind_named_for either mode of a text and a number" => Call::ByNameInBothModes;
    "bind_named_for by wide names of a text and a number" => Call::ByWideName;
    "bind_named_for by wide names of a text without backslash escapes" => Call::ByWideNameIn;
    "bind_named_for any connection by wide names of two pairs" => Call::ByWideNameAnywhere;
    "bind_positional of a text and a number" => Call::ByPosition;
    "bind_positional of a query without places" => Call::WithoutPlaces;
    "bind_positional_in of a text without backslash escapes" => Call::ByPositionIn;
    "bind_positional_for any connection of texts" => Call::ByPositionAnywhere;
};

/// How the call of this name went, if it stands here.
pub(crate) fn case(alloc: Global, name: &str) -> Option<Case> {
    let outcome = match row(CALLS, name)? {
        Call::ByName => by_name(alloc),
        Call::ByNameIn => by_name_in(alloc),
        Call::ByNameAnywhere => by_name_anywhere(alloc),
        Call::ByNameInBothModes => by_name_in_both_modes(alloc),
        Call::ByWideName => by_wide_name(alloc),
        Call::ByWideNameIn => by_wide_name_in(alloc),
        Call::ByWideNameAnywhere => by_wide_name_anywhere(alloc),
        Call::ByPosition => by_position(alloc),
        Call::WithoutPlaces => {
            is_bound(bind_positional(alloc, b"SELECT '?'", &()), b"SELECT '?'")
        }
        Call::ByPositionIn => by_position_in(alloc),
        Call::ByPositionAnywhere => by_position_anywhere(alloc),
    };
    Some(Ok(outcome))
}

/// The call returned this text.
fn is_bound(answer: Result<Vec<u8>, AllocError>, text: &[u8]) -> Outcome {
    judged(answer, Ok(text))
}

fn by_name(alloc: Global) -> Outcome {
    let pairs = (("id", 42u8), ("name", "it's"));
    let answer = bind_named(alloc, b"SELECT :name, :id", &pairs);
    is_bound(answer, b"SELECT 'it\\'s', 42")
}

fn by_name_in(alloc: Global) -> Outcome {
    let answer = bind_named_in(alloc, b"SELECT 'a\\', :b", &(("b", "it's\\"),), true);
    is_bound(answer, b"SELECT 'a\\', 'it''s\\'")
}

fn by_name_anywhere(alloc: Global) -> Outcome {
    let pairs = (("id", 42u8), ("name", "it's"));
    let answer = bind_named_for(alloc, b"SELECT :name, :id", &pairs, ANYWHERE);
    is_bound(answer, b"SELECT _utf8mb4'it''s', 42")
}

fn by_name_in_both_modes(alloc: Global) -> Outcome {
    let pairs = (("id", 42u8), ("name", "it's"));
    let answer = bind_named_for(alloc, b"SELECT '\xfc', :name, :id", &pairs, IN_BOTH_MODES);
    is_bound(answer, b"SELECT '\xfc', _utf8mb4'it''s', 42")
}

fn by_wide_name(alloc: Global) -> Outcome {
    let pairs = (("Id", 42u8), ("id", "it's"));
    let answer = bind_named_for(alloc, b"SELECT :id, :Id", &pairs, WIDE);
    is_bound(answer, b"SELECT 'it\\'s', 42")
}

fn by_wide_name_in(alloc: Global) -> Outcome {
    let answer = bind_named_for(
        alloc,
        b"SELECT 'a\\', :B",
        &(("B", "it's\\"),),
        WIDE_WITHOUT_BACKSLASHES,
    );
    is_bound(answer, b"SELECT 'a\\', 'it''s\\'")
}

// The query isn't copied to see that it is portable: that is proved.
fn by_wide_name_anywhere(alloc: Global) -> Outcome {
    let pairs = (("Id", 42u8), ("id", "it's"));
    let answer = bind_named_for(alloc, b"/*! */ :id, :Id", &pairs, WIDE_ANYWHERE);
    is_bound(answer, b"/*! */ _utf8mb4'it''s', 42")
}

fn by_position(alloc: Global) -> Outcome {
    let answer = bind_positional(alloc, b"SELECT ?, ?", &("it's", 42u8));
    is_bound(answer, b"SELECT 'it\\'s', 42")
}

fn by_position_in(alloc: Global) -> Outcome {
    let answer = bind_positional_in(alloc, b"SELECT 'a\\', ?", &("it's\\",), true);
    is_bound(answer, b"SELECT 'a\\', 'it''s\\'")
}

fn by_position_anywhere(alloc: Global) -> Outcome {
    let answer = bind_positional_for(alloc, b"SELECT ?, ?", &("it's\\", "x"), ANYWHERE);
    is_bound(answer, b"SELECT _utf8mb4 0x697427735C, _utf8mb4'x'")
}
