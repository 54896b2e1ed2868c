//! Purposes.
use mysql_bind_call::{Portability, Purpose, Scope};

/// With backslash escapes.
pub(crate) const BACKSLASHES: Scope = Scope::OneMode {
    no_backslash_escape: false,
};

/// Without backslash escapes.
pub(crate) const NO_BACKSLASHES: Scope = Scope::OneMode {
    no_backslash_escape: true,
};

/// Each of the three portabilities.
pub(crate) const PORTABILITIES: &[Portability] = &[
    Portability::Any,
    Portability::Servers,
    Portability::Clients,
];

/// A purpose.
pub(crate) fn purpose(scope: Scope, portability: Portability, wide_names: bool) -> Purpose {
    Purpose {
        scope,
        portability,
        wide_names,
    }
}
