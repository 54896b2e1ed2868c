//! Why a request doesn't take a query, whatever is assigned to its names. The first reason is that
//! the query ends within a token: the text after the query would be part of that token.
ghost use Rattle.std.specs.Prelude.{◌≡◌, ◌≢◌, ◌++◌, IfErr, IfOk, IfSome, IsErrOf, OnErr, OnOk, alloc_error, ℕ, Some, None, [], length, true, false, IsTrue};
ghost use Rattle.mysql_sql_text.specs.StringUnits.{is_escape};
ghost use Rattle.mysql_named_params.specs.Bytes.{is_string_quote};
ghost use Rattle.mysql_named_params.specs.Tokens.{OnTokens, IsStringTail};
ghost use Rattle.mysql_named_params.specs.Reading.{wide_reading};
ghost use Rattle.mysql_bind_core.specs.Bound.{IsClosed, IsNamed, IsPortableIfWanted, IsPortableQuery, IsSteadyIfWanted, IsTaken};
ghost use Rattle.mysql_bind_core.specs.Refusals.{IsCopied, IsFoundInQuery, IsQueryRefusal};
ghost use Rattle.mysql_bind_core.specs.Requests.{mode_of};
ghost use Rattle.mysql_bind_core.specs.QueryEnd.{EndsWithDashes, end, long_end, long_end_from};

use crate::failure::Failure;
use crate::request::{Literals, Portability, Request};
use mysql_binding::{SurveyedQuery, place_after};
use mysql_named_params::places::Reading;
use mysql_named_params::tokens::first_token;
use mysql_portable::clear::is_clear_in_client;
use mysql_portable::portable::Unportable;
use mysql_portable::steady::first_unsteady;
use mysql_portable::wide::first_unportable_in_client_in;
use std::alloc::{AllocError, Global};

// Whether the request takes a query that is surveyed in its mode, by wide names. It asks for memory
// only for a copy of a query that ends with `--`.
pub(crate) fn check_surveyed(
    alloc: Global,
    query: &SurveyedQuery<'_>,
    request: Request,
) -> Result<(), Failure>
    requires reading { query.now.reading ≡ wide_reading (mode_of request.literals) }
    ensures taken { OnOk result (IsTaken request query.now.query.now) }
    ensures refused { IfErr result (IsQueryRefusal request query.now.query.now) }
    ensures only { IfErr result (λ e. e ≢ Failure.Write) }
    ensures memory { IsErrOf result (Failure.Memory alloc_error) →
        IsCopied request query.now.query.now }
{
    check_end(query, request)?;
    check_reading(alloc, query.query, request)?;
    check_named(query, request)?;
    Ok(())
}

// Whether the query doesn't end within a token.
fn check_end(query: &SurveyedQuery<'_>, request: Request) -> Result<(), Failure>
    requires reading { query.now.reading ≡ wide_reading (mode_of request.literals) }
    ensures closed { OnOk result (IsClosed request query.now.query.now) }
    ensures refused { IfErr result (IsQueryRefusal request query.now.query.now) }
    ensures only { IfErr result (λ e. e ≢ Failure.Write) }
    ensures without_memory { IfErr result (λ e. e ≢ Failure.Memory alloc_error) }
{
    match open_end(query) {
        None => Ok(()),
        Some(at) => Err(Failure::Open { at }),
    }
}

// Whether the query is steady and portable, if it has to be. Most queries that have to be both pass
// in one quick walk, which doesn't look at the end of a statement after the query.
fn check_reading(alloc: Global, query: &[u8], request: Request) -> Result<(), Failure>
    requires { IsClosed request query.now }
    ensures steady { OnOk result (IsSteadyIfWanted request query.now) }
    ensures portable { OnOk result (IsPortableIfWanted request query.now) }
    ensures refused { IfErr result (IsQueryRefusal request query.now) }
    ensures only { IfErr result (λ e. e ≢ Failure.Write) }
    ensures memory { IsErrOf result (Failure.Memory alloc_error) → IsCopied request query.now }
{
    match request.portability {
        Portability::Any => check_steady(query, request),
        Portability::Portable => {
            if !query.ends_with(b"--") && is_clear_in_client(query) {
                return Ok(());
            }
            check_steady(query, request)?;
            check_portable(alloc, query, request)
        }
    }
}

// Whether the query is steady, if it has to be.
fn check_steady(query: &[u8], request: Request) -> Result<(), Failure>
    requires { IsClosed request query.now }
    ensures steady { OnOk result (IsSteadyIfWanted request query.now) }
    ensures refused { IfErr result (IsQueryRefusal request query.now) }
    ensures only { IfErr result (λ e. e ≢ Failure.Write) }
    ensures without_memory { IfErr result (λ e. e ≢ Failure.Memory alloc_error) }
{
    match request.literals {
        Literals::Plain { .. } => Ok(()),
        Literals::Steady => match first_unsteady(query) {
            None => Ok(()),
            Some(at) => Err(Failure::Unsteady { at }),
        },
    }
}

// Whether the query is portable in a client, if it has to be.
fn check_portable(alloc: Global, query: &[u8], request: Request) -> Result<(), Failure>
    requires closed { IsClosed request query.now }
    requires steady { IsSteadyIfWanted request query.now }
    ensures portable { OnOk result (IsPortableIfWanted request query.now) }
    ensures refused { IfErr result (IsQueryRefusal request query.now) }
    ensures only { IfErr result (λ e. e ≢ Failure.Write) }
    ensures memory { IsErrOf result (Failure.Memory alloc_error) → IsCopied request query.now }
{
    match request.portability {
        Portability::Any => Ok(()),
        Portability::Portable => {
            let mode = request.literals.no_backslash_escape();
            match first_found(alloc, query, mode)? {
                None => Ok(()),
                Some(found) => Err(Failure::Unportable(found)),
            }
        }
    }
}

// The first construct of the query, or if it has none, of the query with the end of a statement.
// Only a query that ends with `--` may have one only with the end, so only such a query is copied.
fn first_found(
    alloc: Global,
    query: &[u8],
    no_backslash_escape: bool,
) -> Result<Option<Unportable>, AllocError>
    requires { OnTokens no_backslash_escape (query.now ++ end) (λ us. None ≡ long_end us) }
    ensures found { IfOk result (λ found. IfSome found
        (IsFoundInQuery no_backslash_escape query.now)) }
    ensures none { IfOk result (λ found. found ≡ None →
        IsPortableQuery no_backslash_escape query.now
        × IsPortableQuery no_backslash_escape (query.now ++ end)) }
    ensures memory { OnErr result
        (IsPortableQuery no_backslash_escape query.now × EndsWithDashes query.now) }
{
    let reading = Reading {
        no_backslash_escape,
        wide_names: true,
    };
    if let Some(found) = first_unportable_in_client_in(query, reading) {
        return Ok(Some(found));
    }
    if !query.ends_with(b"--") {
        return Ok(None);
    }
    let mut ended = Vec::from_slice(alloc, query)?;
    ended.extend_from_slice(b"\n;")?;
    Ok(first_unportable_in_client_in(ended.as_slice(), reading))
}

// Whether each place of the query has a name.
fn check_named(query: &SurveyedQuery<'_>, request: Request) -> Result<(), Failure>
    requires reading { query.now.reading ≡ wide_reading (mode_of request.literals) }
    requires closed { IsClosed request query.now.query.now }
    requires steady { IsSteadyIfWanted request query.now.query.now }
    requires portable { IsPortableIfWanted request query.now.query.now }
    ensures is_named { OnOk result (IsNamed request query.now.query.now) }
    ensures refused { IfErr result (IsQueryRefusal request query.now.query.now) }
    ensures only { IfErr result (λ e. e ≢ Failure.Write) }
    ensures without_memory { IfErr result (λ e. e ≢ Failure.Memory alloc_error) }
{
    if query.survey.marks > 0 {
        Err(Failure::Marks)
    } else {
        Ok(())
    }
}

// The index at which the query's last token begins, if it is open: a string, a quoted identifier or
// a block comment without its end. No place is open, so only the text after the last known place
// that isn't at the query's end is read. The last token's bytes decide, so no memory is needed.
pub(crate) fn open_end(surveyed: &SurveyedQuery<'_>) -> Option<usize>
    ensures { OnTokens surveyed.now.reading.no_backslash_escape (surveyed.now.query.now ++ end)
        (λ ts. result ≡ long_end ts) }
{
    let reading = surveyed.reading;
    let mode = reading.no_backslash_escape;
    let mut rest = surveyed.query;
    let mut passed = 0;
    'places: while passed < surveyed.known.len() {
        let Some(found) = place_after(surveyed.known, passed, rest, reading) else {
            break;
        };
        let (_, _, after) = found.cut(rest);
        if after.is_empty() {
            break;
        }
        rest = after;
        passed += 1;
    }
    'tokens: while !rest.is_empty() {
        let (_, len) = first_token(rest, mode);
        if len == rest.len() {
            return open_from(surveyed.query.len() - rest.len(), rest, mode);
        }
        rest = &rest[len..];
    }
    None
}

// The index at which the text begins, if it is one open token.
fn open_from(at: usize, text: &[u8], no_backslash_escape: bool) -> Option<usize>
    requires { OnTokens no_backslash_escape text.now (λ ts. length ts ≡ 1) }
    ensures { OnTokens no_backslash_escape (text.now ++ end) (λ us. result ≡ long_end_from at us) }
{
    if is_open(text, no_backslash_escape) {
        Some(at)
    } else {
        None
    }
}

// Whether the text, which is one token, is open.
fn is_open(text: &[u8], no_backslash_escape: bool) -> bool
    requires { OnTokens no_backslash_escape text.now (λ ts. length ts ≡ 1) }
    ensures open { result ≡ true → (at : ℕ) →
        OnTokens no_backslash_escape (text.now ++ end) (λ us. Some at ≡ long_end_from at us) }
    ensures closed { result ≡ false → (at : ℕ) →
        OnTokens no_backslash_escape (text.now ++ end) (λ us. None ≡ long_end_from at us) }
{
    let first = text[0];
    if first == b'\'' || first == b'"' {
        is_open_string(&text[1..], first, no_backslash_escape)
    } else if first == b'`' {
        !text[1..].ends_with(b"`")
    } else if first == b'/' && text.len() > 1 {
        !text[2..].ends_with(b"*/")
    } else {
        false
    }
}

// Whether a string without its opening quote is open.
fn is_open_string(tail: &[u8], quote: u8, no_backslash_escape: bool) -> bool
    requires quote { IsTrue (is_string_quote quote) }
    requires string { IsStringTail no_backslash_escape quote tail.now [] }
    ensures open { result ≡ true → IsStringTail no_backslash_escape quote (tail.now ++ end) [] }
    ensures closed { result ≡ false → IsStringTail no_backslash_escape quote tail.now end }
{
    let mut at = 0;
    'units: while at < tail.len() {
        let byte = tail[at];
        if byte == quote {
            return false;
        }
        at += 1;
        if is_escape(byte, no_backslash_escape) {
            at += 1;
        }
    }
    true
}

// Whether the byte escapes the one after it in a string.
fn is_escape(byte: u8, no_backslash_escape: bool) -> bool
    ensures { result ≡ is_escape no_backslash_escape byte }
{
    !no_backslash_escape && byte == b'\\'
}
