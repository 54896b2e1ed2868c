//! The two sides of a connection.
ghost use Rattle.std.specs.Prelude.{ℕ};

/// The side that writes values in binary form. The null bitmaps of the two sides begin at different
/// bits (MySQL client/server protocol, "Binary Protocol Resultset Row" and "COM_STMT_EXECUTE").
pub trait SerializationSide {
    /// The number of bits in a null bitmap before the bit of the first value.
    const BIT_OFFSET: usize;

    // the same number, for contracts
    ghost BIT_OFFSET: { ℕ };
}

/// A server, which writes the rows of a result.
#[derive(Debug, Clone, Copy, PartialEq, Eq)]
pub struct ServerSide;

impl SerializationSide for ServerSide {
    const BIT_OFFSET: usize = 2;

    ghost BIT_OFFSET = { 2 };
}

/// A client, which writes the parameters of a statement.
#[derive(Drop)]
pub struct ClientSide;

impl SerializationSide for ClientSide {
    const BIT_OFFSET: usize = 0;

    ghost BIT_OFFSET = { 0 };
}
