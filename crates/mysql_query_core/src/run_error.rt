//! Why a run of the program is refused.
ghost use Rattle.std.specs.Prelude.{◌≡◌};

use crate::words::WordsError;
use mysql_binding::BindError;
use mysql_io::readers_and_writers::{ReadError, WriteError};
use mysql_named_params::named_params::NamedParamsError;
use mysql_values::show::Shown;
use std::alloc::AllocError;
use thiserror::Error;

/// Why [`run`](crate::run) refused or failed. The message is one line.
#[derive(Debug, PartialEq, Drop, Error)]
pub enum RunError {
    /// The words aren't a command of the program. Nothing was read or written.
    #[error("usage: names, or bind NAME=VALUE..")]
    Usage,
    /// A name is given twice among the parameters. Nothing was read or written.
    #[error("Redefinition of named parameter `{}'", Shown(.0.as_slice()))]
    Redefined(Vec<u8>),
    /// The command is `names`, and the query has both names and marks. Nothing was written.
    #[error("Named and positional params in one query")]
    Mixed,
    /// The parameters can't be bound to the query. Nothing was written. The error is never out of
    /// memory, which is `Memory`.
    #[error(transparent)]
    Bind(BindError),
    /// A read failed. Nothing was written.
    #[error("cannot read")]
    Read,
    /// A write failed, or took no byte. A prefix of the output was written.
    #[error("cannot write")]
    Write,
    /// Out of memory. Nothing was written.
    #[error("out of memory")]
    Memory(AllocError),
}

impl RunError {
    ghost use Rattle.mysql_query_core.specs.RunErrors.{status_of};

    /// The exit status of the program: 1 if a name is redefined or the query is refused, otherwise
    /// 2.
    pub fn status(&self) -> u8
        ensures status { result ≡ status_of self.now }
    {
        match self {
            RunError::Redefined(_) | RunError::Mixed | RunError::Bind(_) => 1,
            RunError::Usage | RunError::Read | RunError::Write | RunError::Memory(_) => 2,
        }
    }
}

impl From<WordsError> for RunError {
    ghost use Rattle.std.specs.Prelude.{None, alloc_error, option_map};
    ghost use Rattle.mysql_query_core.specs.Program.{bad_words};
    ghost use Rattle.mysql_query_core.specs.RunErrors.{refusal_of};
    ghost use Rattle.mysql_query_core.specs.WordErrors.{words_refusal};
    ghost use Rattle.mysql_query_core.specs.declared.run_error.RunError.TheVariants.{Memory};

    ghost from_gives = { λ words error.
        (refusal_of error ≡ option_map bad_words (words_refusal words))
        × (words_refusal words ≡ None → error ≡ Memory alloc_error) };

    fn from(error: WordsError) -> RunError {
        match error {
            WordsError::Usage => RunError::Usage,
            WordsError::Redefined(name) => RunError::Redefined(name),
            WordsError::Memory(error) => RunError::Memory(error),
        }
    }
}

impl From<ReadError> for RunError {
    ghost use Rattle.mysql_query_core.specs.RunErrors.{run_error_of_read};

    ghost from_gives = { λ read error. error ≡ run_error_of_read read };

    fn from(error: ReadError) -> RunError {
        match error {
            ReadError::Read => RunError::Read,
            ReadError::Memory(error) => RunError::Memory(error),
        }
    }
}

impl From<NamedParamsError> for RunError {
    ghost use Rattle.mysql_query_core.specs.RunErrors.{run_error_of_names};

    ghost from_gives = { λ names error. error ≡ run_error_of_names names };

    fn from(error: NamedParamsError) -> RunError {
        match error {
            NamedParamsError::Mixed(_) => RunError::Mixed,
            NamedParamsError::Memory(error) => RunError::Memory(error),
        }
    }
}

impl From<BindError> for RunError {
    ghost use Rattle.std.specs.Prelude.{alloc_error, option_map};
    ghost use Rattle.mysql_binding.specs.BindErrors.{cause_of};
    ghost use Rattle.mysql_binding.specs.declared.bind_error.BindError.TheVariants as binding;
    ghost use Rattle.mysql_query_core.specs.Program.{binding_cause};
    ghost use Rattle.mysql_query_core.specs.RunErrors.{refusal_of};
    ghost use Rattle.mysql_query_core.specs.declared.run_error.RunError.TheVariants.{Memory};

    ghost from_gives = { λ refused error.
        (refusal_of error ≡ option_map binding_cause (cause_of refused))
        × (refused ≡ binding.Memory alloc_error → error ≡ Memory alloc_error) };

    fn from(error: BindError) -> RunError {
        match error {
            BindError::Memory(error) => RunError::Memory(error),
            error => RunError::Bind(error),
        }
    }
}

impl From<WriteError> for RunError {
    ghost use Rattle.mysql_query_core.specs.declared.run_error.RunError.TheVariants.{Write};

    ghost from_gives = { λ _ error. error ≡ Write };

    fn from(_error: WriteError) -> RunError {
        RunError::Write
    }
}

impl From<AllocError> for RunError {
    ghost use Rattle.std.specs.Prelude.{alloc_error};
    ghost use Rattle.mysql_query_core.specs.declared.run_error.RunError.TheVariants.{Memory};

    ghost from_gives = { λ _ error. error ≡ Memory alloc_error };

    fn from(error: AllocError) -> RunError {
        RunError::Memory(error)
    }
}
