//! The kinds of answers.
use mysql_fragments::{FragmentFault, FragmentsError};
use mysql_params::params::{ParamsConfusionError, ParamsError};
use mysql_params::{
    BindError, BindPairsError, BothModesError, BothModesPairsError, SteadyPairsError,
    SteadyTextError,
};
use mysql_values::value::{AsSqlError, BinaryRowError, Value};
use mysql_wire_part::WireError;

/// A kind of answer.
#[derive(Clone, Copy, Debug)]
pub enum Kind {
    Done,
    Null,
    Refused,
    TooShort,
    Redefined,
    Unsteady,
    Unportable,
    Backslash,
    Mixed,
    Missing,
    NamesForMarks,
    ValuesForNames,
    MarkCount,
    NotAlone,
    Float,
    Memory,
    Empty,
    EmptyRow,
    RowLength,
    Number,
    EmptyName,
    ZeroByte,
    LongName,
    TrailingSpace,
    Keyword,
    EscapedBackquote,
    EndOfBuffer,
    LengthLead,
    Column,
    Header,
}

/// The number of kinds.
pub const KINDS: usize = 30;

/// What has a kind.
pub trait Answer {
    /// Its kind.
    fn kind(&self) -> Kind {
        Kind::Done
    }
}

impl Answer for u64 {}

impl Answer for u128 {}

impl Answer for &[u8] {}

impl Answer for String {}

impl<T> Answer for Vec<T> {}

impl<T: Answer, E: Answer> Answer for Result<T, E> {
    fn kind(&self) -> Kind {
        match self {
            Ok(answer) => answer.kind(),
            Err(error) => error.kind(),
        }
    }
}

impl<T: Answer> Answer for Option<T> {
    fn kind(&self) -> Kind {
        match self {
            Some(answer) => answer.kind(),
            None => Kind::Refused,
        }
    }
}

impl Answer for Value {
    fn kind(&self) -> Kind {
        match self {
            Value::NULL => Kind::Null,
            _ => Kind::Done,
        }
    }
}

impl Answer for AsSqlError {
    fn kind(&self) -> Kind {
        match self {
            AsSqlError::Float => Kind::Float,
            AsSqlError::Memory(_) => Kind::Memory,
        }
    }
}

impl Answer for WireError {
    fn kind(&self) -> Kind {
        match self {
            WireError::UnexpectedEof => Kind::EndOfBuffer,
            WireError::BadLengthLead(_) => Kind::LengthLead,
            WireError::UnsupportedColumn(_) => Kind::Column,
            WireError::Memory(_) => Kind::Memory,
        }
    }
}

impl Answer for BinaryRowError {
    fn kind(&self) -> Kind {
        match self {
            BinaryRowError::BadHeader(_) => Kind::Header,
            BinaryRowError::Wire(error) => error.kind(),
        }
    }
}

impl Answer for BindPairsError {
    fn kind(&self) -> Kind {
        match self {
            BindPairsError::Redefined { .. } => Kind::Redefined,
            BindPairsError::Bind(error) => error.kind(),
        }
    }
}

impl Answer for SteadyPairsError {
    fn kind(&self) -> Kind {
        match self {
            SteadyPairsError::Redefined { .. } => Kind::Redefined,
            SteadyPairsError::Bind(SteadyTextError::Unsteady { .. }) => Kind::Unsteady,
            SteadyPairsError::Bind(SteadyTextError::Unportable(_)) => Kind::Unportable,
            SteadyPairsError::Bind(SteadyTextError::Bind(error)) => error.kind(),
        }
    }
}

impl Answer for BothModesPairsError {
    fn kind(&self) -> Kind {
        match self {
            BothModesPairsError::Redefined { .. } => Kind::Redefined,
            BothModesPairsError::Bind(BothModesError::Backslash { .. }) => Kind::Backslash,
            BothModesPairsError::Bind(BothModesError::Unportable(_)) => Kind::Unportable,
            BothModesPairsError::Bind(BothModesError::Bind(error)) => error.kind(),
        }
    }
}

impl Answer for BindError {
    fn kind(&self) -> Kind {
        match self {
            BindError::Mixed => Kind::Mixed,
            BindError::Params(ParamsError::Missing(_)) => Kind::Missing,
            BindError::Params(ParamsError::Confusion(confusion)) => confusion.kind(),
            BindError::Params(ParamsError::Memory(_)) => Kind::Memory,
            BindError::MarkCount { .. } => Kind::MarkCount,
            BindError::NotAlone { .. } => Kind::NotAlone,
            BindError::Float { .. } => Kind::Float,
            BindError::Memory(_) => Kind::Memory,
        }
    }
}

impl Answer for ParamsConfusionError {
    fn kind(&self) -> Kind {
        match self {
            ParamsConfusionError::NamedParamsForPositionalQuery => Kind::NamesForMarks,
            ParamsConfusionError::PositionalParamsForNamedQuery => Kind::ValuesForNames,
        }
    }
}

impl Answer for FragmentsError {
    fn kind(&self) -> Kind {
        match self {
            FragmentsError::Mixed => Kind::Mixed,
            FragmentsError::Missing(_) => Kind::Missing,
            FragmentsError::Confusion(confusion) => confusion.kind(),
            FragmentsError::MarkCount { .. } => Kind::MarkCount,
            FragmentsError::NotAlone { .. } => Kind::NotAlone,
            FragmentsError::Float { .. } => Kind::Float,
            FragmentsError::Fault { fault, .. } => fault.kind(),
            FragmentsError::Memory(_) => Kind::Memory,
        }
    }
}

impl Answer for FragmentFault {
    fn kind(&self) -> Kind {
        match self {
            FragmentFault::Empty => Kind::Empty,
            FragmentFault::EmptyRow { .. } => Kind::EmptyRow,
            FragmentFault::RowLength { .. } => Kind::RowLength,
            FragmentFault::Number { .. } => Kind::Number,
            FragmentFault::EmptyName { .. } => Kind::EmptyName,
            FragmentFault::ZeroByte { .. } => Kind::ZeroByte,
            FragmentFault::LongName { .. } => Kind::LongName,
            FragmentFault::TrailingSpace { .. } => Kind::TrailingSpace,
            FragmentFault::Keyword => Kind::Keyword,
            FragmentFault::Backslash { .. } => Kind::EscapedBackquote,
        }
    }
}
