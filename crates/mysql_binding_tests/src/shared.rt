//! Parameters and refusals as plain data, and what they stand for; the calls that bind.
use mysql_params::params::{MissingNamedParameterError, Params, ParamsConfusionError, ParamsError};
use mysql_params::{
    BindError, BindRefusal, ParsedQuery, Portability, Purpose, Scope, WideQuery, bind, bind_text,
    bind_text_in,
};
use mysql_values::bytes::Bytes;
use mysql_values::value::Value;
use std::alloc::Global;
use std::collections::HashMap;
use std::fmt::{Debug, Display};
use std::process::Abort;

/// The two are the same. A call is cheaper to prove than the message, which names the case.
pub(crate) fn same_in<T: Copy + Debug + PartialEq, C: Debug>(
    rt: &impl Abort,
    found: T,
    wanted: T,
    case: &C,
) {
    assert_eq!(rt; found, wanted, "of {case:?}");
}

/// The answer of a call. An error ends the test here, so that callers have none to meet: each `?`
/// would let go of all that lives there.
pub(crate) fn answer_of<T, E: Debug + Drop>(rt: &impl Abort, found: Result<T, E>) -> T {
    found.expect(rt, "an error in place of an answer")
}

/// The text is this.
pub(crate) fn is_text(rt: &impl Abort, text: Vec<u8>, wanted: &[u8]) {
    same_in(rt, text.as_slice(), wanted, &"a text");
}

/// The error prints the message.
pub(crate) fn says<E: Display + Drop>(rt: &impl Abort, alloc: Global, error: E, message: &str) {
    let printed = answer_of(rt, error.to_string(alloc));
    same_in(rt, printed.as_str(), message, &"a message");
}

/// A value.
#[derive(Clone, Copy)]
pub(crate) enum Plain<'a> {
    Null,
    Int(i64),
    UInt(u64),
    Float,
    Double,
    Day(u16, u8, u8),
    Text(&'a [u8]),
}

/// What is given to a query.
#[derive(Clone, Copy)]
pub(crate) enum Given<'a> {
    Nothing,
    Named(&'a [(&'a [u8], Plain<'a>)]),
    Positional(&'a [Plain<'a>]),
}

/// Why a query is refused.
#[derive(Clone, Copy)]
pub(crate) enum Refused<'a> {
    Mixed,
    Missing(&'a [u8]),
    NamedGiven,
    PositionalGiven,
    MarkCount(usize, usize),
    NotAlone(usize, usize),
    Float(usize),
}

/// The value that holds these bytes.
fn bytes(rt: &impl Abort, alloc: Global, text: &[u8]) -> Value {
    Value::Bytes(Bytes::from(answer_of(rt, Vec::from_slice(alloc, text))))
}

impl Plain<'_> {
    pub(crate) fn value(self, rt: &impl Abort, alloc: Global) -> Value {
        match self {
            Plain::Null => Value::NULL,
            Plain::Int(number) => Value::Int(number),
            Plain::UInt(number) => Value::UInt(number),
            Plain::Float => Value::Float(0),
            Plain::Double => Value::Double(0),
            Plain::Day(year, month, day) => Value::Date(year, month, day, 0, 0, 0, 0),
            Plain::Text(text) => bytes(rt, alloc, text),
        }
    }
}

fn named(rt: &impl Abort, alloc: Global, pairs: &[(&[u8], Plain<'_>)]) -> Params {
    let mut entries = HashMap::new(alloc);
    for (name, plain) in pairs {
        let name = answer_of(rt, Vec::from_slice(alloc, *name));
        answer_of(rt, entries.insert(name, plain.value(rt, alloc)));
    }
    Params::Named(entries)
}

fn positional(rt: &impl Abort, alloc: Global, plains: &[Plain<'_>]) -> Params {
    let mut values = Vec::new(alloc);
    for plain in plains {
        answer_of(rt, values.push(plain.value(rt, alloc)));
    }
    Params::Positional(values)
}

impl Given<'_> {
    pub(crate) fn params(self, rt: &impl Abort, alloc: Global) -> Params {
        match self {
            Given::Nothing => Params::Empty,
            Given::Named(pairs) => named(rt, alloc, pairs),
            Given::Positional(plains) => positional(rt, alloc, plains),
        }
    }
}

/// The refusal of a query whose params lack this name.
fn missing(rt: &impl Abort, alloc: Global, name: &[u8]) -> BindError {
    let missing = MissingNamedParameterError(answer_of(rt, Vec::from_slice(alloc, name)));
    BindError::Params(ParamsError::Missing(missing))
}

impl Refused<'_> {
    pub(crate) fn error(self, rt: &impl Abort, alloc: Global) -> BindError {
        match self {
            Refused::Mixed => BindError::Mixed,
            Refused::Missing(name) => missing(rt, alloc, name),
            Refused::NamedGiven => BindError::Params(ParamsError::Confusion(
                ParamsConfusionError::NamedParamsForPositionalQuery,
            )),
            Refused::PositionalGiven => BindError::Params(ParamsError::Confusion(
                ParamsConfusionError::PositionalParamsForNamedQuery,
            )),
            Refused::MarkCount(marks, values) => BindError::MarkCount { marks, values },
            Refused::NotAlone(place, at) => BindError::NotAlone { place, at },
            Refused::Float(place) => BindError::Float { place },
        }
    }
}

/// For one server in a mode.
pub(crate) fn in_mode(no_backslash_escape: bool) -> Purpose {
    Purpose {
        wide_names: false,
        ..wide_in(no_backslash_escape)
    }
}

/// For one server in a mode, by wide names.
pub(crate) fn wide_in(no_backslash_escape: bool) -> Purpose {
    Purpose {
        scope: Scope::OneMode {
            no_backslash_escape,
        },
        portability: Portability::Any,
        wide_names: true,
    }
}

/// A call that binds.
#[derive(Clone, Copy)]
pub(crate) enum Spelling {
    /// `bind_text`.
    BindText,
    /// `bind_text_in` with this flag.
    BindTextIn(bool),
    /// `bind` of the query that `ParsedQuery::parse_in` parsed with this flag.
    Parsed(bool),
    /// `bind` for one server in this mode, by wide names.
    BindWide(bool),
    /// `bind` of the query that `WideQuery::parse_in` parsed with this flag.
    WideParsed(bool),
}

/// The calls that bind in the mode in which a backslash escapes.
pub(crate) const WITH_BACKSLASHES: &[Spelling] = &[
    Spelling::BindText,
    Spelling::BindTextIn(false),
    Spelling::Parsed(false),
];

/// The calls that bind in the mode without backslash escapes.
pub(crate) const WITHOUT_BACKSLASHES: &[Spelling] = &[
    Spelling::BindTextIn(true),
    Spelling::Parsed(true),
];

/// Every call that binds.
pub(crate) const EITHER_MODE: &[Spelling] = &[
    Spelling::BindText,
    Spelling::BindTextIn(false),
    Spelling::BindTextIn(true),
    Spelling::Parsed(false),
    Spelling::Parsed(true),
];

/// Every call that binds by wide names.
pub(crate) const WIDE: &[Spelling] = &[
    Spelling::BindWide(false),
    Spelling::BindWide(true),
    Spelling::WideParsed(false),
    Spelling::WideParsed(true),
];

impl Spelling {
    /// The name of the call in messages.
    fn name(self) -> &'static str {
        match self {
            Spelling::BindText => "bind_text",
            Spelling::BindTextIn(false) => "bind_text_in(false)",
            Spelling::BindTextIn(true) => "bind_text_in(true)",
            Spelling::Parsed(false) => "parse_in(false)",
            Spelling::Parsed(true) => "parse_in(true)",
            Spelling::BindWide(false) => "bind(false)",
            Spelling::BindWide(true) => "bind(true)",
            Spelling::WideParsed(false) => "WideQuery(false)",
            Spelling::WideParsed(true) => "WideQuery(true)",
        }
    }

    /// What the call gives.
    pub(crate) fn bound(
        self,
        alloc: Global,
        query: &[u8],
        params: Params,
    ) -> Result<Vec<u8>, BindRefusal> {
        match self {
            Spelling::BindText => Ok(bind_text(alloc, query, params)?),
            Spelling::BindTextIn(mode) => Ok(bind_text_in(alloc, query, params, mode)?),
            Spelling::Parsed(mode) => match ParsedQuery::parse_in(alloc, query, mode) {
                Ok(parsed) => Ok(parsed.bind(alloc, params)?),
                Err(error) => Err(BindRefusal::Memory(error)),
            },
            Spelling::BindWide(mode) => bind(alloc, query, &params, wide_in(mode)),
            Spelling::WideParsed(mode) => match WideQuery::parse_in(alloc, query, mode) {
                Ok(parsed) => Ok(parsed.bind(alloc, params)?),
                Err(error) => Err(BindRefusal::Memory(error)),
            },
        }
    }
}

/// By each of the calls, the query is bound to the text, in a vector of exactly its length.
pub(crate) fn is_bound_by(
    rt: &impl Abort,
    alloc: Global,
    spellings: &[Spelling],
    query: &[u8],
    given: Given<'_>,
    wanted: &[u8],
) {
    for spelling in spellings {
        let params = given.params(rt, alloc);
        let text = answer_of(rt, spelling.bound(alloc, query, params));
        let found = (text.as_slice(), text.capacity());
        same_in(rt, found, (wanted, wanted.len()), &(query, spelling.name()));
    }
}

/// By each of the calls, each query is bound to its text.
pub(crate) fn are_bound_by(
    rt: &impl Abort,
    alloc: Global,
    spellings: &[Spelling],
    rows: &[(&[u8], Given<'_>, &[u8])],
) {
    for (query, given, wanted) in rows {
        is_bound_by(rt, alloc, spellings, *query, *given, *wanted);
    }
}

/// By each of the calls, the query, with this string for its one mark, is bound to the text.
pub(crate) fn string_is_bound_by(
    rt: &impl Abort,
    alloc: Global,
    spellings: &[Spelling],
    query: &[u8],
    string: &[u8],
    wanted: &[u8],
) {
    let values = [Plain::Text(string)];
    is_bound_by(
        rt,
        alloc,
        spellings,
        query,
        Given::Positional(&values),
        wanted,
    );
}

/// By each of the calls, the query is refused so.
pub(crate) fn is_refused_by(
    rt: &impl Abort,
    alloc: Global,
    spellings: &[Spelling],
    query: &[u8],
    given: Given<'_>,
    refused: Refused<'_>,
) {
    for spelling in spellings {
        let case = (query, spelling.name());
        let found = spelling.bound(alloc, query, given.params(rt, alloc)).err();
        let wanted = Some(BindRefusal::Values(refused.error(rt, alloc)));
        same_in(rt, &found, &wanted, &case);
    }
}

/// By each of the calls, each query is refused so.
pub(crate) fn are_refused_by(
    rt: &impl Abort,
    alloc: Global,
    spellings: &[Spelling],
    rows: &[(&[u8], Given<'_>, Refused<'_>)],
) {
    for (query, given, refused) in rows {
        is_refused_by(rt, alloc, spellings, *query, *given, *refused);
    }
}
