//! Purposes.
use mysql_params::{Portability, Purpose, Scope};

/// For one server in the mode in which a backslash escapes.
pub(crate) const WITH_BACKSLASHES: Purpose = Purpose {
    wide_names: false,
    ..WIDE
};

/// The same by wide names.
pub(crate) const WIDE: Purpose = Purpose {
    scope: Scope::OneMode {
        no_backslash_escape: false,
    },
    portability: Portability::Any,
    wide_names: true,
};

/// The same in the other mode.
pub(crate) const WIDE_WITHOUT_BACKSLASHES: Purpose = Purpose {
    scope: Scope::OneMode {
        no_backslash_escape: true,
    },
    portability: Portability::Any,
    wide_names: true,
};

/// For any connection to any server, by wide names.
pub(crate) const WIDE_ANYWHERE: Purpose = Purpose {
    scope: Scope::AnyConnection,
    portability: Portability::Servers,
    wide_names: true,
};

/// For any connection to one server, by wide names.
pub(crate) const WIDE_IN_ANY_MODE: Purpose = Purpose {
    scope: Scope::AnyConnection,
    portability: Portability::Any,
    wide_names: true,
};

/// For either mode of any server, by wide names.
pub(crate) const WIDE_IN_BOTH_MODES: Purpose = Purpose {
    scope: Scope::EitherMode,
    portability: Portability::Servers,
    wide_names: true,
};

/// For any connection to any server.
pub(crate) const ANYWHERE: Purpose = Purpose {
    scope: Scope::AnyConnection,
    portability: Portability::Servers,
    wide_names: false,
};

/// For either mode of any server.
pub(crate) const IN_BOTH_MODES: Purpose = Purpose {
    scope: Scope::EitherMode,
    portability: Portability::Servers,
    wide_names: false,
};
