//! The first list of those that the program didn't say are lists that stands where it could become
//! several arguments.
ghost use Rattle.std.specs.Prelude.{◌≡◌, ◌<◌, ℕ, List, None, Some, get_or, length};
ghost use Rattle.mysql_named_params.specs.FirstPlace.{IsFirstPlace};
ghost use Rattle.mysql_named_params.specs.Reading.{OnTokensIn};
ghost use Rattle.mysql_named_params.specs.Tokens.{OnTokens, Token};
ghost use Rattle.mysql_fragments.specs.Brackets.{AllMayStand, IsUnbracketed, Kinds, closes, first_unbracketed, is_comparison, is_separator, is_word_byte};
ghost use Rattle.mysql_fragments.specs.BracketWalk.{has_values, is_gap_at, may_begin_row_seen, may_open_seen, may_stand_seen, next_letters, past_first, past_letter, past_other, past_sign, past_tokens};
ghost use Rattle.mysql_fragments.specs.declared.brackets.Implicit.TheVariants as implicit;

use mysql_named_params::places::{FoundPlace, Reading, first_place_in};
use mysql_named_params::tokens::{first_token, is_white_space};

/// Whether the fragment for a place is a list only because a value was one, as a list in the JSON
/// of a request: the program gave it no type that says so.
#[derive(Clone, Copy, Debug, PartialEq, Eq)]
pub enum Implicit {
    /// It is no list, or the program said that it is one.
    No,
    /// It is such a list.
    List,
    /// It is such a list of lists.
    Rows,
}

/// What is kept of the tokens before a place. A gap is white space or a comment.
#[derive(Clone, Copy)]
struct Seen {
    // whether the last token that is no gap is a `(` that may hold a list
    opened: bool,
    // whether it is a `)`
    closed: bool,
    // whether it is a `(`, a `,`, or the end of a comparison behind a `)`
    row_sign: bool,
    // whether the last token is no byte of a word
    ended: bool,
    // whether the last token before the last word, apart from gaps, is a `)`
    word_after_close: bool,
    // whether a row may begin where the last word does
    word_begins_row: bool,
    // how many letters of IN the last word is; one more than IN has for another word
    in_letters: usize,
    // the same of ROW
    row_letters: usize,
    // the same of VALUES
    values_letters: usize,
}

/// Number and position of the first place that has an implicit list and doesn't stand alone between
/// brackets, or that has implicit rows and stands neither so nor directly after VALUES or VALUE.
/// White space and comments between don't count, except what a server may execute. `kinds` has an
/// item for each place, in order; a place without one may have any fragment.
///
/// The opening bracket counts only in these places:
///
/// - after IN or VALUES;
/// - after `,` or another `(`;
/// - after the comparison of a row, as in `(a, b) = (:pair)`;
/// - after VALUE behind a `)`, as in `t (a, b) VALUE (:row)`;
/// - after ROW where a row may begin: behind `(`, `,`, such a comparison, VALUES, or such a VALUE.
pub fn first_unbracketed(
    query: &[u8],
    reading: Reading,
    kinds: &[Implicit],
) -> Option<(usize, usize)>
    ensures { OnTokensIn reading query.now (λ ts.
        result ≡ first_unbracketed (λ place. get_or kinds.now place implicit.No) ts) }
{
    let mut seen = past_sign(false, false, false);
    let mut place = 0;
    let mut at = 0;
    while let Some(found) = first_place_in(&query[at..], reading) {
        let start = at + found.before;
        let end = start + found.len;
        match kind_at(kinds, place) {
            Implicit::No => {}
            kind => {
                let before = seen_before(&query[at..], found, reading, seen);
                if !may_stand(kind, before, &query[end..], reading) {
                    return Some((place, start));
                }
            }
        }
        seen = past_sign(false, false, false);
        place += 1;
        at = end;
    }
    None
}

// What is kept of the tokens before the first place of a text, after what was kept before.
fn seen_before(text: &[u8], found: FoundPlace, reading: Reading, seen: Seen) -> Seen
    requires { OnTokensIn reading text.now (λ ts. IsFirstPlace ts found) }
    ensures { OnTokensIn reading text.now (λ ts.
        (first : IsFirstPlace ts found) × (result ≡ past_tokens seen first.front)) }
{
    let mut now = seen;
    let mut at = 0;
    while at < found.before {
        let rest = &text[at..];
        let (_, len) = first_token(rest, reading.no_backslash_escape);
        now = past_first(now, rest, len);
        at += len;
    }
    now
}

// What is kept after the first token of this text, of this length.
fn past_first(seen: Seen, text: &[u8], len: usize) -> Seen
    requires { 0 < length text.now }
    ensures { result ≡ past_first seen text.now len }
{
    let first = text[0];
    if is_gap_at(text, len) {
        Seen {
            ended: true,
            ..seen
        }
    } else if is_word_byte(first) {
        past_letter(seen, first.to_ascii_lowercase())
    } else {
        past_other(seen, first)
    }
}

// What is kept after a byte of a word, in lower case.
fn past_letter(seen: Seen, lower: u8) -> Seen
    ensures { result ≡ past_letter seen lower }
{
    let word = if seen.ended {
        past_sign(false, seen.closed, may_begin_row(seen))
    } else {
        seen
    };
    Seen {
        opened: false,
        closed: false,
        row_sign: false,
        ended: false,
        word_after_close: word.word_after_close,
        word_begins_row: word.word_begins_row,
        in_letters: next_letters(b"in", word.in_letters, lower),
        row_letters: next_letters(b"row", word.row_letters, lower),
        values_letters: next_letters(b"values", word.values_letters, lower),
    }
}

// What is kept after a plain byte that is no gap and no byte of a word.
fn past_other(seen: Seen, byte: u8) -> Seen
    ensures { result ≡ past_other seen byte }
{
    past_sign(
        byte == b'(' && may_open(seen),
        byte == b')',
        is_separator(byte) || (is_comparison(byte) && (seen.closed || seen.row_sign)),
    )
}

// What is kept after a token that is no gap and no byte of a word.
fn past_sign(opened: bool, closed: bool, row_sign: bool) -> Seen
    ensures { result ≡ past_sign opened closed row_sign }
{
    Seen {
        opened,
        closed,
        row_sign,
        ended: true,
        word_after_close: closed,
        word_begins_row: row_sign,
        in_letters: 0,
        row_letters: 0,
        values_letters: 0,
    }
}

// Whether the first token of this text, of this length, is white space or a comment that no server
// executes.
fn is_gap_at(text: &[u8], len: usize) -> bool
    requires { 0 < length text.now }
    ensures { result ≡ is_gap_at text.now len }
{
    let first = text[0];
    is_white_space(first)
        || first == b'#'
        || (first == b'-' && 1 < len)
        || (first == b'/' && 1 < len && !(3 < text.len() && text[3] == b'!'))
}

// Whether the byte is one of a word, of a qualified name or of a variable.
fn is_word_byte(byte: u8) -> bool
    ensures { result ≡ is_word_byte byte }
{
    byte.is_ascii_lowercase()
        || byte == b'_'
        || byte.is_ascii_digit()
        || byte.is_ascii_uppercase()
        || byte == b'$'
        || 128 <= byte
        || byte == b'.'
        || byte == b'@'
}

// Whether the byte is a sign behind which `(` begins a row or another bracket, and no call.
fn is_separator(byte: u8) -> bool
    ensures { result ≡ is_separator byte }
{
    byte == b'(' || byte == b','
}

// Whether the byte is one of a comparison.
fn is_comparison(byte: u8) -> bool
    ensures { result ≡ is_comparison byte }
{
    byte == b'=' || byte == b'<' || byte == b'>' || byte == b'!'
}

// How many letters of this word the last word is with this byte in lower case.
fn next_letters(word: &[u8], letters: usize, lower: u8) -> usize
    ensures { result ≡ next_letters word.now letters lower }
{
    if letters < word.len() && lower == word[letters] {
        letters + 1
    } else {
        word.len() + 1
    }
}

// Whether a bracket after what was seen may hold a list.
fn may_open(seen: Seen) -> bool
    ensures { result ≡ may_open_seen seen }
{
    seen.row_sign
        || seen.in_letters == 2
        || (seen.row_letters == 3 && seen.word_begins_row)
        || has_values(seen)
}

// Whether a row may begin after what was seen.
fn may_begin_row(seen: Seen) -> bool
    ensures { result ≡ may_begin_row_seen seen }
{
    seen.row_sign || has_values(seen)
}

// Whether the last word is VALUES, or VALUE behind a `)`.
fn has_values(seen: Seen) -> bool
    ensures { result ≡ has_values seen }
{
    seen.values_letters == 6 || (seen.values_letters == 5 && seen.word_after_close)
}

// Whether the fragment may stand after what was seen, before this text.
fn may_stand(kind: Implicit, seen: Seen, after: &[u8], reading: Reading) -> bool
    ensures { OnTokensIn reading after.now (λ ts. result ≡ may_stand_seen kind seen ts) }
{
    match kind {
        Implicit::No => true,
        Implicit::List => seen.opened && closes_in(after, reading),
        Implicit::Rows => has_values(seen) || (seen.opened && closes_in(after, reading)),
    }
}

// What is known of a place.
fn kind_at(kinds: &[Implicit], place: usize) -> Implicit
    ensures { result ≡ get_or kinds.now place implicit.No }
{
    if place < kinds.len() {
        kinds[place]
    } else {
        Implicit::No
    }
}

// Whether a text that is read so begins with `)`, apart from gaps.
fn closes_in(text: &[u8], reading: Reading) -> bool
    ensures { OnTokensIn reading text.now (λ ts. result ≡ closes ts) }
{
    closes(text, reading.no_backslash_escape)
}

// Whether a text begins with `)`, apart from gaps.
fn closes(text: &[u8], no_backslash_escape: bool) -> bool
    ensures { OnTokens no_backslash_escape text.now (λ ts. result ≡ closes ts) }
{
    let mut at = 0;
    while at < text.len() {
        let rest = &text[at..];
        let (_, len) = first_token(rest, no_backslash_escape);
        if !is_gap_at(rest, len) {
            return rest[0] == b')';
        }
        at += len;
    }
    false
}

/// A law, not for calls: the place that `first_unbracketed` finds may not have its fragment, and if
/// it finds none, each place may.
pub fn unbracketed_places()
    ensures found { (kinds : Kinds) (ts : List Token) (place at : ℕ) →
        first_unbracketed kinds ts ≡ Some (place, at) → IsUnbracketed kinds ts place at }
    ensures none { (kinds : Kinds) (ts : List Token) →
        first_unbracketed kinds ts ≡ None → AllMayStand kinds ts }
{}
