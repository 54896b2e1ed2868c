//! The options of a call, apart from the query and the values.
ghost use Rattle.std.specs.Prelude.{◌≡◌};
ghost use Rattle.mysql_bind_core.specs.Requests.{mode_of};

/// How the literals of values are written.
#[derive(Debug, Clone, Copy, PartialEq, Eq)]
pub enum Literals {
    /// So that the text reads the same in every mode and character set of a connection.
    Steady,
    /// For one mode of the server.
    Plain {
        /// Whether the connection's `sql_mode` has `NO_BACKSLASH_ESCAPES`.
        no_backslash_escape: bool,
    },
}

impl Literals {
    /// Whether the query is read in the mode `NO_BACKSLASH_ESCAPES`. With steady literals it is
    /// read with backslash escapes. A query that is taken for them reads the same in both modes.
    pub fn no_backslash_escape(self) -> bool
        ensures { result ≡ mode_of self }
    {
        match self {
            Literals::Steady => false,
            Literals::Plain {
                no_backslash_escape,
            } => no_backslash_escape,
        }
    }
}

/// Which queries are taken.
#[derive(Debug, Clone, Copy, PartialEq, Eq)]
pub enum Portability {
    /// Those that all servers and the clients `mysql` and `mariadb` read alike.
    Portable,
    /// All queries.
    Any,
}

/// The options of a call, apart from the query and the values.
#[derive(Debug, Clone, Copy, PartialEq, Eq)]
pub struct Request {
    /// How the literals of values are written.
    pub literals: Literals,
    /// Which queries are taken.
    pub portability: Portability,
}
