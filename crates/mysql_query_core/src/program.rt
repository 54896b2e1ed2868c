//! The program over any reader and writer: it checks the words, reads, and writes or refuses.
ghost use Rattle.std.specs.Prelude.{◌≡◌, ◌≢◌, ◌⊎◌, ◌++◌, ◌∷◌, [], ℕ, List, map, None, Some, Ok, Err, IsErrOf, IsErrAnd, IfOk, IfErr, OnErr, OnOk, IsOk, alloc_error, option_map};
ghost use Rattle.std.specs.Io.KnownBytes.{Appends};
ghost use Rattle.std.specs.Cow.{cow_slice_items};
ghost use Rattle.mysql_sql_text.specs.StringUnits.{with_backslashes};
ghost use Rattle.mysql_named_params.specs.Bytes.{newline};
ghost use Rattle.mysql_named_params.specs.Tokens.{OnTokens};
ghost use Rattle.mysql_params_core.specs.Given.{given};
ghost use Rattle.mysql_binding.specs.BindErrors.{cause_of};
ghost use Rattle.mysql_query_core.specs.Program.{Refusal, bad_words, binding_cause, lines_of, IsOutput, Answers};
ghost use Rattle.mysql_query_core.specs.RunErrors.{refusal_of, HoldsCause, IsOutputRefusal};
ghost use Rattle.mysql_io.specs.ReadersAndWriters.{ReadsWhole, AppendsPrefix};
ghost use Rattle.mysql_query_core.specs.WordErrors.{seen_command, words_refusal};
ghost use Rattle.mysql_query_core.specs.Words.{names_of_query, bound_query, usage, word_bytes, command_of, AsksToBind};

use crate::run_error::RunError;
use crate::words::{Command, judge};
use mysql_bind_call::bind_text;
use mysql_io::readers_and_writers::{read_whole, write_whole};
use mysql_named_params::named_params::ParsedNamedParams;
use mysql_params_core::params::Params;
use std::alloc::{AllocError, Global};
use std::borrow::CowSlice;
use std::io::{Read, Write};

/// Runs the program on its words, without its own name.
///
/// `names` writes the query with `?` in place of each name, a newline, and each name and a newline.
/// `bind` and words `NAME=VALUE` write the query with the values bound, as
/// [`bind_text`](mysql_bind_call::bind_text) binds them, and nothing else. A value is `null`, `i:`
/// or `u:` and a decimal number of 64 bits, or `s:` and a text. Without such words the query gets
/// no parameters. If all names are empty, the values are bound by position. If no name is empty,
/// they are bound by name. Otherwise the words are refused as `Usage`.
///
/// The words are checked first. Then the input is read to its end. The output is written only once
/// all of it is made. No failed read or write is repeated.
pub fn run<R: Read, W: Write>(
    alloc: Global,
    words: &[String],
    input: &mut R,
    output: &mut W,
) -> Result<(), RunError>
    // It read the whole input, and wrote the answer to it and nothing else.
    ensures ok { OnOk result ((bytes : List ℕ) × (text : List ℕ)
        × ReadsWhole (R.remaining input.old) (R.remaining input.new) bytes
        × Answers words.now bytes (Ok text)
        × Appends (W.contents output.old) (W.contents output.new) text) }

    // Words that are refused are refused before anything is read.
    ensures words { IfErr (command_of (word_bytes words.now)) (λ why.
        (input.new ≡ input.old) × IsErrAnd result (λ e.
        (e ≡ RunError.Memory alloc_error) ⊎ (refusal_of e ≡ Some (bad_words why)))) }

    // They allocate only if they ask to bind.
    ensures usage { command_of (word_bytes words.now) ≡ Err usage
        → (AsksToBind (word_bytes words.now) → ⊥) → IsErrOf result RunError.Usage }

    // If the words are accepted, a refusal of the query is the answer to the whole input.
    ensures refused { (why : Refusal) → IsErrAnd result (λ e. refusal_of e ≡ Some why)
        → IsOk (command_of (word_bytes words.now)) → (bytes : List ℕ)
        × ReadsWhole (R.remaining input.old) (R.remaining input.new) bytes
        × Answers words.now bytes (Err why) }

    // A failed write failed while the answer was being written.
    ensures write { IsErrOf result RunError.Write → (bytes : List ℕ) × (text : List ℕ)
        × ReadsWhole (R.remaining input.old) (R.remaining input.new) bytes
        × Answers words.now bytes (Ok text)
        × AppendsPrefix (W.contents output.old) (W.contents output.new) text }

    // Every other refusal leaves the writer unchanged.
    ensures unwritten { IfErr result (λ e. e ≢ RunError.Write → output.new ≡ output.old) }

    // Out of memory is an error of its own, also if binding ran out of memory.
    ensures cause { IfErr result HoldsCause }
{
    let command = judge(alloc, words)?;
    let query = read_whole(alloc, input)?;
    let text = command_output(alloc, command, &query)?;
    write_answer(output, &text)
}

// Writes the whole answer. On an error, which is `Write`, the writer took a prefix of it.
fn write_answer<W: Write>(output: &mut W, text: &[u8]) -> Result<(), RunError>
    ensures ok { OnOk result (Appends (W.contents output.old) (W.contents output.new) text.now) }
    ensures only_write { OnErr result (IsErrOf result RunError.Write) }
    ensures prefix { OnErr result (
        AppendsPrefix (W.contents output.old) (W.contents output.new) text.now) }
{
    write_whole(output, text)?;
    Ok(())
}

// The output of a command for a query.
fn command_output(alloc: Global, command: Command, query: &[u8]) -> Result<Vec<u8>, RunError>
    ensures ok { IfOk result (λ text. OnTokens with_backslashes query.now (λ ts.
        IsOutput (seen_command command) ts (Ok text.items))) }
    ensures refused { OnTokens with_backslashes query.now (λ ts.
        IfErr result (IsOutputRefusal (seen_command command) ts)) }
{
    match command {
        Command::Names => names_output(alloc, query),
        Command::Bind(params) => bound_output(alloc, query, params),
    }
}

// The output of `names` for a query.
fn names_output(alloc: Global, query: &[u8]) -> Result<Vec<u8>, RunError>
    ensures ok { IfOk result (λ text. OnTokens with_backslashes query.now (λ ts.
        IsOutput names_of_query ts (Ok text.items))) }
    ensures refused { OnTokens with_backslashes query.now (λ ts.
        IfErr result (IsOutputRefusal names_of_query ts)) }
{
    let parsed = ParsedNamedParams::parse(alloc, query)?;
    let text = names_text(alloc, &parsed)?;
    Ok(text)
}

// The parsed query and each of its names, each followed by a newline.
fn names_text(alloc: Global, parsed: &ParsedNamedParams<'_>) -> Result<Vec<u8>, AllocError>
    ensures { IfOk result (λ text.
        text.items ≡ lines_of (parsed.now.query ∷ parsed.now.params)) }
{
    let mut text = Vec::new(alloc);
    append_line(&mut text, parsed.query())?;
    append_names(&mut text, parsed.params())?;
    Ok(text)
}

// Appends each name and a newline.
fn append_names(text: &mut Vec<u8>, names: &[CowSlice<'_, u8>]) -> Result<(), AllocError>
    ensures { OnOk result (
        text.new.items ≡ text.old.items ++ lines_of (map cow_slice_items names.now)) }
{
    for name in names {
        append_line(text, name.as_slice())?;
    }
    Ok(())
}

// Appends a line and its newline.
fn append_line(text: &mut Vec<u8>, line: &[u8]) -> Result<(), AllocError>
    ensures { OnOk result (text.new.items ≡ text.old.items ++ (line.now ++ newline ∷ [])) }
{
    text.extend_from_slice(line)?;
    text.push(b'\n')?;
    Ok(())
}

// The output of `bind` for a query.
fn bound_output(alloc: Global, query: &[u8], params: Params) -> Result<Vec<u8>, RunError>
    ensures ok { IfOk result (λ text. OnTokens with_backslashes query.now (λ ts.
        IsOutput (bound_query (given params)) ts (Ok text.items))) }
    ensures refused { OnTokens with_backslashes query.now (λ ts.
        IfErr result (IsOutputRefusal (bound_query (given params)) ts)) }
{
    let text = bind_text(alloc, query, params)?;
    Ok(text)
}
