//! Reading to the end, and writing the whole. A call that fails isn't repeated.
//!
//! For the programs `mysql_query` and `mysql_bind`.
ghost use Rattle.std.specs.Prelude.{IfOk, OnErr, OnOk};
ghost use Rattle.std.specs.Io.KnownBytes.{Appends};
ghost use Rattle.mysql_io.specs.ReadersAndWriters.{ReadsWhole, AppendsPrefix};

use std::alloc::{AllocError, Global};
use std::io;
use std::io::{Read, Write};

/// The error of reading to the end.
#[derive(Drop)]
pub enum ReadError {
    /// A read failed.
    Read,
    /// Memory was refused.
    Memory(AllocError),
}

impl From<io::Error> for ReadError {
    ghost use Rattle.std.specs.Prelude.{◌≡◌};
    ghost use Rattle.mysql_io.specs.declared.readers_and_writers.ReadError.TheVariants.{Read};

    ghost from_gives = { λ _ error. error ≡ Read };

    fn from(_error: io::Error) -> ReadError {
        ReadError::Read
    }
}

impl From<AllocError> for ReadError {
    ghost use Rattle.std.specs.Prelude.{◌≡◌, alloc_error};
    ghost use Rattle.mysql_io.specs.declared.readers_and_writers.ReadError.TheVariants.{Memory};

    ghost from_gives = { λ _ error. error ≡ Memory alloc_error };

    fn from(error: AllocError) -> ReadError {
        ReadError::Memory(error)
    }
}

/// Returns all bytes that the reader has left. It reads until a read returns no byte.
pub fn read_whole<R: Read>(alloc: Global, input: &mut R) -> Result<Vec<u8>, ReadError>
    ensures { IfOk result (λ bytes.
        ReadsWhole (R.remaining input.old) (R.remaining input.new) bytes.items) }
{
    let mut bytes = Vec::new(alloc);
    let mut chunk = [0u8; 4096];
    'reading: loop {
        let n = input.read(&mut chunk)?;
        if n == 0 {
            return Ok(bytes);
        }
        bytes.extend_from_slice(&chunk[..n])?;
    }
}

/// A write failed, or took no byte.
#[derive(Debug, Clone, Copy)]
pub struct WriteError;

impl From<io::Error> for WriteError {
    fn from(_error: io::Error) -> WriteError {
        WriteError
    }
}

/// Writes the whole text. On an error, the writer took only a prefix of it, and not the whole.
pub fn write_whole<W: Write>(output: &mut W, text: &[u8]) -> Result<(), WriteError>
    ensures ok { OnOk result (Appends (W.contents output.old) (W.contents output.new) text.now) }
    ensures prefix { OnErr result (
        AppendsPrefix (W.contents output.old) (W.contents output.new) text.now) }
{
    let mut done = 0;
    'writing: while done < text.len() {
        let n = output.write(&text[done..])?;
        if n == 0 {
            return Err(WriteError);
        }
        done += n;
    }
    Ok(())
}
