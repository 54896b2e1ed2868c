//! The command line: the command that the words of the program give.
ghost use Rattle.std.specs.Str.{bytes_eq};
ghost use Rattle.std.specs.Prelude.{◌∷◌, IsTrue, codes, ◌≡◌, Some, Ok, IfSome, IfNone, IsErrOf, alloc_error, map, ok_or, ⊤};
ghost use Rattle.mysql_values.specs.Answer.{IsAnswer};
ghost use Rattle.mysql_values.specs.declared.value.Value.TheVariants.{Bytes as BytesOf};
ghost use Rattle.std.specs.List.{list_all, list_any};
ghost use Rattle.mysql_params_core.specs.Given.{given, positional};
ghost use Rattle.mysql_query_core.specs.Words.{parts_of_word, int_of_text, uint_of_text, value_of_kind, value_of_null, parsed_value, pair_of_word, pairs_of_words, is_nameless, bound_query, command_made, given_by_name, command_of_pairs, bind_command, command_of, AsksToBind, usage, word_bytes};
ghost use Rattle.mysql_query_core.specs.WordErrors.{words_error_of_params, words_refusal, seen_pair, seen_command};
ghost use Rattle.mysql_query_core.specs.declared.words.WordsError.TheVariants.{Usage, Memory};

use mysql_params_core::params::{Params, ToParamsError};
use mysql_values::bytes::Bytes;
use mysql_values::value::Value;
use mysql_values::value::convert::{FromValueError, from_value_opt};
use std::alloc::{AllocError, AllocFailed, Global};

// A command.
#[derive(Drop)]
pub(crate) enum Command {
    // The names of a query.
    Names,
    // A query with these parameters bound.
    Bind(Params),
}

// Why words are refused.
#[derive(Drop)]
pub(crate) enum WordsError {
    // They aren't a command of the program.
    Usage,
    // This name is given twice.
    Redefined(Vec<u8>),
    // Out of memory.
    Memory(AllocError),
}

impl From<AllocError> for WordsError {
    ghost from_gives = { λ _ error. error ≡ Memory alloc_error };

    fn from(error: AllocError) -> WordsError {
        WordsError::Memory(error)
    }
}

impl<T: Drop> From<AllocFailed<T>> for WordsError {
    ghost from_gives = { λ _ error. error ≡ Memory alloc_error };

    fn from(_error: AllocFailed<T>) -> WordsError {
        WordsError::Memory(AllocError)
    }
}

impl From<ToParamsError> for WordsError {
    ghost from_gives = { λ refused error. error ≡ words_error_of_params refused };

    fn from(error: ToParamsError) -> WordsError {
        match error {
            ToParamsError::Redefined(name) => WordsError::Redefined(name),
            // No value is a duration that is too long.
            ToParamsError::Value(_) => WordsError::Usage,
            ToParamsError::Memory(error) => WordsError::Memory(error),
        }
    }
}

impl From<FromValueError> for WordsError {
    ghost from_gives = { λ _ error. error ≡ Usage };

    fn from(_error: FromValueError) -> WordsError {
        WordsError::Usage
    }
}

// Checks the words: only `names`, or `bind` and words of a name and a value.
pub(crate) fn judge(alloc: Global, words: &[String]) -> Result<Command, WordsError>
    ensures command { IsAnswer seen_command words_refusal
        (command_of (word_bytes words.now)) ⊤ result }
    // Only values are copied.
    ensures memory { IsErrOf result (WordsError.Memory alloc_error) →
        AsksToBind (word_bytes words.now) }
{
    match words {
        [] => Err(WordsError::Usage),
        [word, words @ ..] => command_of(alloc, word.as_str(), words),
    }
}

// The command of a first word and the words after it.
fn command_of(alloc: Global, word: &str, words: &[String]) -> Result<Command, WordsError>
    ensures command { IsAnswer seen_command words_refusal
        (command_of (word.now ∷ word_bytes words.now)) ⊤ result }
    ensures memory { IsErrOf result (WordsError.Memory alloc_error) →
        IsTrue (bytes_eq word.now (codes "bind")) }
{
    if word == "names" {
        return if words.is_empty() {
            Ok(Command::Names)
        } else {
            Err(WordsError::Usage)
        };
    }
    if word == "bind" {
        let params = params_of_words(alloc, words)?;
        return Ok(Command::Bind(params));
    }
    Err(WordsError::Usage)
}

// The parameters that words make.
fn params_of_words(alloc: Global, words: &[String]) -> Result<Params, WordsError>
    ensures { IsAnswer (λ params. bound_query (given params)) words_refusal
        (bind_command (pairs_of_words (word_bytes words.now))) ⊤ result }
{
    let pairs = pairs_of_words(alloc, words)?;
    params_of_pairs(alloc, pairs)
}

// The parameters that pairs make.
fn params_of_pairs(alloc: Global, pairs: Vec<(&[u8], Value)>) -> Result<Params, WordsError>
    ensures { IsAnswer (λ params. bound_query (given params)) words_refusal
        (command_of_pairs (map seen_pair pairs.entry.items)) ⊤ result }
{
    if pairs.is_empty() {
        return Ok(Params::Empty);
    }
    if all_nameless(&pairs) {
        return params_by_position(alloc, pairs);
    }
    if any_nameless(&pairs) {
        return Err(WordsError::Usage);
    }
    params_by_name(alloc, &pairs)
}

// The parameters that the values of pairs make by position.
fn params_by_position(alloc: Global, pairs: Vec<(&[u8], Value)>) -> Result<Params, WordsError>
    ensures { IsAnswer (λ params. bound_query (given params)) words_refusal
        (Ok (bound_query (positional (map (λ pair. pair.1) pairs.entry.items)))) ⊤ result }
{
    let mut values = Vec::new(alloc);
    for (_, value) in pairs {
        values.push(value)?;
    }
    Ok(Params::Positional(values))
}

// The parameters that pairs with names make.
fn params_by_name(alloc: Global, pairs: &[(&[u8], Value)]) -> Result<Params, WordsError>
    ensures { IsAnswer (λ params. bound_query (given params)) words_refusal
        (command_made (given_by_name (map seen_pair pairs.now))) ⊤ result }
{
    let params = Params::from_pairs(alloc, pairs)?;
    Ok(params)
}

// Whether all names are empty.
fn all_nameless(pairs: &[(&[u8], Value)]) -> bool
    ensures { result ≡ list_all (λ pair. is_nameless (seen_pair pair)) pairs.now }
{
    pairs.iter().all(|pair| pair.0.is_empty())
}

// Whether any name is empty.
fn any_nameless(pairs: &[(&[u8], Value)]) -> bool
    ensures { result ≡ list_any (λ pair. is_nameless (seen_pair pair)) pairs.now }
{
    pairs.iter().any(|pair| pair.0.is_empty())
}

// Name and value of each word.
fn pairs_of_words<'a>(
    alloc: Global,
    words: &'a [String],
) -> Result<Vec<(&'a [u8], Value)>, WordsError>
    ensures { IsAnswer (λ pairs. map seen_pair pairs.items) words_refusal
        (ok_or (pairs_of_words (word_bytes words.now)) usage) ⊤ result }
{
    let mut pairs = Vec::new(alloc);
    for word in words {
        let pair = pair_of_word(alloc, word.as_str())?;
        pairs.push(pair)?;
    }
    Ok(pairs)
}

// Name and value of a word.
fn pair_of_word<'a>(alloc: Global, word: &'a str) -> Result<(&'a [u8], Value), WordsError>
    ensures { IsAnswer seen_pair words_refusal
        (ok_or (pair_of_word word.now) usage) ⊤ result }
{
    match parts_of_word(word) {
        Some((name, text)) => {
            let value = parsed_value(alloc, text.as_bytes())?;
            Ok((name.as_bytes(), value))
        }
        None => Err(WordsError::Usage),
    }
}

// The parts of a word before and after its first `=`.
fn parts_of_word(word: &str) -> Option<(&str, &str)>
    ensures found { IfSome result (λ parts.
        parts_of_word word.now ≡ Some (parts.0.now, parts.1.now)) }
    ensures none { IfNone result (parts_of_word word.now ≡ None) }
{
    word.split_once('=')
}

// The value of a text.
fn parsed_value(alloc: Global, text: &[u8]) -> Result<Value, WordsError>
    ensures { IsAnswer (λ value. value) words_refusal
        (ok_or (parsed_value text.now) usage) ⊤ result }
{
    match text {
        [kind, b':', text @ ..] => value_of_kind(alloc, *kind, text),
        _ => value_of_null(text),
    }
}

// The value of a text after the letter of its kind and a colon.
fn value_of_kind(alloc: Global, kind: u8, text: &[u8]) -> Result<Value, WordsError>
    ensures { IsAnswer (λ value. value) words_refusal
        (ok_or (value_of_kind kind text.now) usage) ⊤ result }
{
    match kind {
        b'i' => int_of_text(alloc, text),
        b'u' => uint_of_text(alloc, text),
        b's' => bytes_of_text(alloc, text),
        _ => Err(WordsError::Usage),
    }
}

// The value of the text `null`.
fn value_of_null(text: &[u8]) -> Result<Value, WordsError>
    ensures { IsAnswer (λ value. value) words_refusal
        (ok_or (value_of_null text.now) usage) ⊤ result }
{
    if text == b"null".as_slice() {
        Ok(Value::NULL)
    } else {
        Err(WordsError::Usage)
    }
}

// The `Int` of a decimal text.
fn int_of_text(alloc: Global, text: &[u8]) -> Result<Value, WordsError>
    ensures { IsAnswer (λ value. value) words_refusal
        (ok_or (int_of_text text.now) usage) ⊤ result }
{
    let number = from_value_opt::<i64>(bytes_of_text(alloc, text)?)?;
    Ok(Value::Int(number))
}

// The `UInt` of a decimal text.
fn uint_of_text(alloc: Global, text: &[u8]) -> Result<Value, WordsError>
    ensures { IsAnswer (λ value. value) words_refusal
        (ok_or (uint_of_text text.now) usage) ⊤ result }
{
    let number = from_value_opt::<u64>(bytes_of_text(alloc, text)?)?;
    Ok(Value::UInt(number))
}

// The `Bytes` of a text.
fn bytes_of_text(alloc: Global, text: &[u8]) -> Result<Value, WordsError>
    ensures { IsAnswer (λ value. value) words_refusal (Ok (BytesOf text.now)) ⊤ result }
{
    let bytes = Vec::from_slice(alloc, text)?;
    Ok(Value::Bytes(Bytes::from(bytes)))
}
