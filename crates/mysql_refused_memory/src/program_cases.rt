//! The program: `run` with both commands.
use crate::outcome::Memory::{Asked, Never};
use crate::outcome::{Case, Is, Memory, cases, judged, row};
use mysql_params::{RunError, run};
use std::alloc::{AllocError, Global};

/// How the call of this name went, if it stands here.
pub(crate) fn case(alloc: Global, name: &str) -> Option<Case> {
    Some(runs(alloc, row(RUNS, name)?))
}

/// The words, the query, what is written or the refusal, and whether the call asks for memory.
type Row = (
    &'static [&'static str],
    &'static [u8],
    Result<&'static [u8], &'static str>,
    Memory,
);

const BIND_A: &[&str] = &["bind", "a=i:1"];

const RUNS: &[(&str, Row)] = cases! {
    "run of names" => &["names"], b":a :b", Ok(b"? ?\na\nb\n"), Asked;
    "run of names on no names" => &["names"], b"", Ok(b"\n"), Asked;
    "run of names on names and marks" => &["names"], b":a ?", Err("Mixed"), Asked;
    "run of bind by name" => &["bind", "a=i:-3"], b"SELECT (:a-10)", Ok(b"SELECT (-3-10)"), Asked;
    "run of bind by position" =>
        &["bind", "=s:x", "=null"], b"VALUES (?,?)", Ok(b"VALUES ('x',NULL)"), Asked;
    "run of bind without words" => &["bind"], b"SELECT 1", Ok(b"SELECT 1"), Asked;
    "run of bind with a repeated name" =>
        &["bind", "a=i:1", "a=i:2"], b":a", Err("Redefined([97])"), Asked;
    "run of bind with a missing name" =>
        BIND_A, b":b", Err("Bind(Params(Missing(MissingNamedParameterError([98]))))"), Asked;
    "run of bind on names and marks" => BIND_A, b":a ?", Err("Bind(Mixed)"), Asked;
    "run of bind with names for marks" =>
        BIND_A, b"?", Err("Bind(Params(Confusion(NamedParamsForPositionalQuery)))"), Asked;
    "run of bind with values for names" =>
        &["bind", "=i:1"], b":a", Err("Bind(Params(Confusion(PositionalParamsForNamedQuery)))"),
        Asked;
    "run of bind with and without names" => &["bind", "a=i:1", "=null"], b":a", Err("Usage"), Asked;
    "run of bind with too few values" =>
        &["bind"], b"?", Err("Bind(MarkCount { marks: 1, values: 0 })"), Asked;
    "run of bind where a place runs on" =>
        BIND_A, b"x:a", Err("Bind(NotAlone { place: 0, at: 1 })"), Asked;
    "run of words that are refused" => &["names", "x"], b":a", Err("Usage"), Never;
};

fn words_made(alloc: Global, texts: &[&str]) -> Result<Vec<String>, AllocError> {
    let mut words = Vec::new(alloc);
    for text in texts {
        words.push(String::from_str(alloc, *text)?)?;
    }
    Ok(words)
}

/// What a run that succeeds left unread of its query, and what it wrote.
#[derive(Drop)]
struct Written<'a> {
    unread: usize,
    text: &'a [u8],
}

impl Is<&[u8]> for Written<'_> {
    fn is(&self, text: &[u8]) -> bool {
        self.unread == 0 && self.text == text
    }
}

fn runs(alloc: Global, (texts, query, wanted, memory): Row) -> Case {
    let words = words_made(alloc, texts)?;
    let mut input = query;
    let mut room = [0u8; 32];
    let mut output = room.as_mut_slice();
    let answer = run(alloc, &words, &mut input, &mut output);
    let unread = input.len();
    let len = 32usize.saturating_sub(output.len());
    let text = room.get(..len).unwrap_or(&room);
    let outcome = match answer {
        Ok(()) => judged(Ok::<Written, RunError>(Written { unread, text }), wanted),
        Err(error) => {
            let is_left = text.is_empty() && (is_read(wanted) || unread == query.len());
            judged(Err::<Written, RunError>(error), wanted).if_holds(is_left)
        }
    };
    Ok(outcome.with(memory))
}

/// Whether the query may have been read: it isn't if the words are refused.
fn is_read(wanted: Result<&[u8], &str>) -> bool {
    wanted != Err("Usage") && wanted != Err("Redefined([97])")
}
