//! The first construct for which a query isn't portable on servers, or for which the client `mysql`
//! or `mariadb` sends something other than the query.
ghost use Rattle.std.specs.Prelude.{◌≡◌, ◌↔◌, ◌≤◌, ◌<◌, false, length, None, IsTrue};
ghost use Rattle.mysql_named_params.specs.Tokens.{OnTokens};
ghost use Rattle.mysql_named_params.specs.Lanes.{EachPasses};
ghost use Rattle.mysql_portable.specs.NoConstruct.{begins_no_construct, StandBeforeNoExponent, StandBeforeNoSign};
ghost use Rattle.mysql_portable.specs.Client.{begins_opener, begins_end, holds_opener};
ghost use Rattle.mysql_portable.specs.FoundInClient.{begins_no_word, begins_delimiter_line, without_accent, letter_of, begins_word, ends_word, begins_whole_word, is_word_of_mariadb, is_word_of_mysql, is_client_word, is_joined, closes_before_joined, drops_line, begins_comment, stand_before_comment, ends_line, escapes_newline, found_in_quotes, found_in_comment, found_word, found_at_byte};
ghost use Rattle.mysql_portable.specs.FirstUnportableInClient.{first_unportable_in_client, IsPortableInClient};
ghost use Rattle.mysql_portable.specs.NothingInQuotes.{HoldsNothingInQuotes};
ghost use Rattle.mysql_portable.specs.FrontInClient.{are_comment, statement_after, line_after, found_in_bytes, found_or_zero, found_in_front};

use crate::jumps::{end_without, near_end_without};
use crate::no_construct::no_construct_len;
use crate::nothing_in_quotes::begin_nothing_in_quotes;
use crate::portable::{Construct, Unportable, begins_place, begins_special, front_construct};
use mysql_named_params::tokens::{first_token, is_white_space};

// Whether the bytes of a token are those of a comment.
fn are_comment(token: &[u8]) -> bool
    ensures { result ≡ are_comment token.now }
{
    matches!(token, [b'#', ..] | [b'-' | b'/', _, ..])
}

// Whether no word begins with the byte.
fn begins_no_word(byte: u8) -> bool
    ensures { result ≡ begins_no_word byte }
{
    byte <= b' ' || 128 <= byte
}

/// Whether a statement begins after this token. `before` says whether one begins before it.
pub(crate) fn statement_after(before: bool, token: &[u8]) -> bool
    ensures { result ≡ statement_after before token.now }
{
    match token {
        [b';'] => true,
        [b'#'] => before,
        [byte] => begins_no_word(*byte) && before,
        _ => are_comment(token) && before,
    }
}

/// Whether a line or a statement may begin after this token.
pub(crate) fn line_after(before: bool, token: &[u8]) -> bool
    ensures { result ≡ line_after before token.now }
{
    match token {
        [b';' | b'\n' | b'/' | b'#'] => true,
        [byte] => begins_no_word(*byte) && before,
        _ => are_comment(token),
    }
}

// Whether the text begins with `/*!`, `/*+` or `/*/`.
fn begins_opener(text: &[u8]) -> bool
    ensures { result ≡ begins_opener text.now }
{
    matches!(text, [b'/', b'*', b'!' | b'+' | b'/', ..])
}

// Whether the text begins with `*/`.
fn begins_end(text: &[u8]) -> bool
    ensures { result ≡ begins_end text.now }
{
    matches!(text, [b'*', b'/', ..])
}

// Whether the text of a comment has one of these openers.
#[inline(always)]
fn holds_opener(text: &[u8]) -> bool
    ensures { result ≡ holds_opener text.now }
{
    let mut at = end_without(text, 0, b'/', b'*');
    'stops: while at < text.len() {
        let rest = &text[at..];
        if begins_opener(rest) {
            return true;
        }
        if begins_end(rest) {
            return false;
        }
        at = near_end_without(text, at + 1, b'/', b'*');
    }
    false
}

// The lower-case letter for which a client takes a capital of latin1 with an accent.
fn without_accent(capital: u8) -> u8
    ensures { result ≡ without_accent capital }
{
    if capital < 196 {
        b'a'
    } else if capital < 199 {
        capital
    } else if capital == 199 {
        b'c'
    } else if capital < 204 {
        b'e'
    } else if capital < 208 {
        b'i'
    } else if capital == 208 {
        b'd'
    } else if capital == 209 {
        b'n'
    } else if capital < 214 {
        b'o'
    } else if capital < 217 {
        capital
    } else if capital < 220 {
        b'u'
    } else if capital < 222 {
        b'y'
    } else {
        capital
    }
}

// The lower-case letter for which a client takes the byte.
pub(crate) fn letter_of(byte: u8) -> u8
    ensures { result ≡ letter_of byte }
{
    if byte < 192 {
        byte.to_ascii_lowercase()
    } else if byte < 224 {
        without_accent(byte)
    } else {
        without_accent(byte - 32)
    }
}

// Whether the text begins with this word of lower-case letters.
pub(crate) fn begins_word(word: &[u8], text: &[u8]) -> bool
    ensures value { result ≡ begins_word word.now text.now }
    ensures in_range { IsTrue result → length word.now ≤ length text.now }
{
    for i in 0..word.len() {
        if text.len() <= i {
            return false;
        }
        if letter_of(text[i]) != word[i] {
            return false;
        }
    }
    true
}

// Whether the text begins with the whole word.
fn begins_whole_word(word: &[u8], text: &[u8]) -> bool
    ensures { result ≡ begins_whole_word word.now text.now }
{
    begins_word(word, text) && ends_word(&text[word.len()..])
}

// Whether the text doesn't begin with a byte that would be part of a word.
fn ends_word(text: &[u8]) -> bool
    ensures { result ≡ ends_word text.now }
{
    match text {
        [byte, ..] => *byte <= b' ' || *byte == b';',
        [] => true,
    }
}

// Whether the client joins the byte to the bytes before a comment.
fn is_joined(byte: u8) -> bool
    ensures { result ≡ is_joined byte }
{
    128 <= byte || byte == b'\\'
}

// Whether a `*` followed by this text closes a comment before such a byte.
fn closes_before_joined(text: &[u8]) -> bool
    ensures { result ≡ closes_before_joined text.now }
{
    match text {
        [b'/', byte, ..] => is_joined(*byte),
        _ => false,
    }
}

// Whether the client drops a line that begins with a `-` followed by this text.
fn drops_line(text: &[u8]) -> bool
    ensures { result ≡ drops_line text.now }
{
    match text {
        [b'-', ..] => true,
        _ => begins_place(text),
    }
}

// Whether the text begins with a comment.
fn begins_comment(text: &[u8]) -> bool
    ensures { result ≡ begins_comment text.now }
{
    match text {
        [b'#', ..] | [b'/', b'*', ..] | [b'-', b'-'] => true,
        [b'-', b'-', gap, ..] => is_white_space(*gap),
        _ => false,
    }
}

// Whether a `-` followed by this text is two signs directly before a comment.
pub(crate) fn stand_before_comment(text: &[u8]) -> bool
    ensures { result ≡ stand_before_comment text.now }
{
    match text {
        [b'-', rest @ ..] => begins_comment(rest),
        _ => false,
    }
}

// Whether the text begins with the end of a line, or is empty.
fn ends_line(text: &[u8]) -> bool
    ensures { result ≡ ends_line text.now }
{
    matches!(text, [] | [b'\n', ..] | [b'\r', b'\n', ..])
}

// Whether a backslash is at the end of a line of the text, or of the text.
#[inline(always)]
fn escapes_newline(text: &[u8]) -> bool
    ensures { result ≡ escapes_newline text.now }
{
    let mut at = end_without(text, 0, b'\\', b'\\');
    'stops: while at < text.len() {
        if text[at] == b'\\' && ends_line(&text[at + 1..]) {
            return true;
        }
        at = near_end_without(text, at + 1, b'\\', b'\\');
    }
    false
}

// Whether the letter followed by this text begins with a word that MariaDB's client runs itself.
fn is_word_of_mariadb(letter: u8, rest: &[u8]) -> bool
    ensures { result ≡ is_word_of_mariadb letter rest.now }
{
    match letter {
        b'c' => {
            begins_whole_word(b"harset", rest)
                || begins_whole_word(b"lear", rest)
                || begins_whole_word(b"onnect", rest)
                || begins_whole_word(b"osts", rest)
        }
        b'e' => {
            begins_whole_word(b"dit", rest)
                || begins_whole_word(b"go", rest)
                || begins_whole_word(b"xit", rest)
        }
        b'g' => begins_whole_word(b"o", rest),
        b'h' => begins_whole_word(b"elp", rest),
        b'n' => {
            begins_whole_word(b"opager", rest)
                || begins_whole_word(b"otee", rest)
                || begins_whole_word(b"owarning", rest)
        }
        b'p' => {
            begins_whole_word(b"ager", rest)
                || begins_whole_word(b"rint", rest)
                || begins_whole_word(b"rompt", rest)
        }
        b'q' => begins_whole_word(b"uit", rest),
        b'r' => begins_whole_word(b"ehash", rest),
        b's' => {
            begins_whole_word(b"andbox", rest)
                || begins_whole_word(b"ource", rest)
                || begins_whole_word(b"tatus", rest)
                || begins_whole_word(b"ystem", rest)
        }
        b't' => begins_whole_word(b"ee", rest),
        b'u' => begins_whole_word(b"se", rest),
        b'w' => begins_whole_word(b"arnings", rest),
        b'?' => ends_word(rest),
        _ => false,
    }
}

// Whether the letter followed by this text begins with a word that only MySQL's client runs itself.
fn is_word_of_mysql(letter: u8, rest: &[u8]) -> bool
    ensures { result ≡ is_word_of_mysql letter rest.now }
{
    match letter {
        b'q' => begins_whole_word(b"uery_attributes", rest),
        b'r' => begins_whole_word(b"esetconnection", rest),
        b's' => begins_whole_word(b"sl_session_data_print", rest),
        _ => false,
    }
}

// Whether the letter followed by this text begins with a word of one of the clients.
#[tactic(auto, unfolding(crate::specs::FoundInClient::is_client_word))]
pub(crate) fn is_client_word(letter: u8, rest: &[u8]) -> bool
    ensures { result ≡ is_client_word letter rest.now }
{
    is_word_of_mariadb(letter, rest) || is_word_of_mysql(letter, rest)
}

// Whether a line of the text after the first begins with the word `delimiter`.
fn begins_delimiter_line(text: &[u8]) -> bool
    ensures { result ≡ begins_delimiter_line text.now }
{
    let mut at = end_without(text, 0, b'\n', b'\n');
    'stops: while at < text.len() {
        if text[at] == b'\n' && begins_word(b"delimiter", &text[at + 1..]) {
            return true;
        }
        at = near_end_without(text, at + 1, b'\n', b'\n');
    }
    false
}

// The construct that is found at a plain byte before this text.
#[inline(always)]
fn found_at_byte(statement: bool, line: bool, byte: u8, rest: &[u8]) -> Option<Construct>
    ensures { result ≡ found_at_byte statement line byte rest.now }
{
    match byte {
        b'\\' if !matches!(rest, [b'N', ..]) => Some(Construct::ClientCommand),
        b'*' if closes_before_joined(rest) => Some(Construct::JoiningComment),
        b'-' if statement && drops_line(rest) => Some(Construct::DashInFront),
        b'-' if stand_before_comment(rest) => Some(Construct::DashesBeforeComment),
        _ => found_word(statement, line, letter_of(byte), rest),
    }
}

// The construct that is found at this lower-case letter, followed by this text.
#[inline(always)]
fn found_word(statement: bool, line: bool, letter: u8, rest: &[u8]) -> Option<Construct>
    ensures { result ≡ found_word statement line letter rest.now }
{
    if line && letter == b'd' && begins_word(b"elimiter", rest) {
        return Some(Construct::Delimiter);
    }
    if statement && is_client_word(letter, rest) {
        return Some(Construct::ClientWord);
    }
    None
}

/// The construct that is found in a token of these bytes, before this text. It is inlined, with
/// what it calls, as it was while it had one caller.
#[inline(always)]
pub(crate) fn found_in_bytes(
    statement: bool,
    line: bool,
    token: &[u8],
    rest: &[u8],
) -> Option<Construct>
    ensures { result ≡ found_in_bytes statement line token.now rest.now }
{
    match token {
        [byte] => found_at_byte(statement, line, *byte, rest),
        [b'/', _, tail @ ..] => found_in_comment(tail, rest),
        [b'\'' | b'"' | b'`', tail @ ..] => found_in_quotes(tail),
        _ => None,
    }
}

// The construct that is found in a block comment before this text.
#[inline(always)]
fn found_in_comment(tail: &[u8], rest: &[u8]) -> Option<Construct>
    ensures { result ≡ found_in_comment tail.now rest.now }
{
    if holds_opener(tail) {
        return Some(Construct::OpenerInComment);
    }
    match rest {
        [byte, ..] if is_joined(*byte) => Some(Construct::JoiningComment),
        _ if begins_special(tail) && begins_delimiter_line(tail) => Some(Construct::Delimiter),
        _ => None,
    }
}

// The construct that is found in a text in quotes or backquotes.
#[inline(always)]
fn found_in_quotes(tail: &[u8]) -> Option<Construct>
    ensures { result ≡ found_in_quotes tail.now }
{
    if escapes_newline(tail) {
        return Some(Construct::EscapedNewline);
    }
    if begins_delimiter_line(tail) {
        return Some(Construct::Delimiter);
    }
    None
}

/// Whether the token of the length `len` at the front of the text is a text in quotes or backquotes
/// in which nothing begins. Most such texts are like this, and nothing is found in them.
pub(crate) fn holds_nothing_in_quotes(text: &[u8], len: usize) -> bool
    requires { len ≤ length text.now }
    ensures { IsTrue result → HoldsNothingInQuotes text.now len }
{
    matches!(text, [b'\'' | b'"' | b'`', ..]) && len > 1 && begin_nothing_in_quotes(text, len)
}

// The construct that is found in the token at the front of the text, which has the length `len`.
fn found_in_front(statement: bool, line: bool, text: &[u8], len: usize) -> Option<Construct>
    requires some { 0 < len }
    requires in_range { len ≤ length text.now }
    ensures { result ≡ found_in_front statement line text.now len }
{
    if let Some(found) = front_construct(text, len) {
        return Some(found);
    }
    if holds_nothing_in_quotes(text, len) {
        return None;
    }
    let (token, rest) = text.split_at(len);
    if token.contains(&0) {
        return Some(Construct::ZeroByte);
    }
    found_in_bytes(statement, line, token, rest)
}

/// The number of bytes at the front of the text that begin no construct and are skipped at once. It
/// is 0 where a word of the client may begin.
pub(crate) fn passed_len(statement: bool, line: bool, text: &[u8]) -> usize
    ensures in_range { result ≤ length text.now }
    ensures no_construct { EachPasses begins_no_construct text.now 0 result }
    ensures no_exponent { StandBeforeNoExponent text.now result }
    ensures no_sign { StandBeforeNoSign text.now result }
    ensures no_word { 0 < result → (statement ≡ false) × (line ≡ false) }
{
    if statement || line {
        0
    } else {
        no_construct_len(text)
    }
}

/// The first construct for which a query isn't portable
/// ([`first_unportable`](crate::portable::first_unportable)), or for which the client `mysql` or
/// `mariadb` sends something other than the query.
///
/// It is for a query whose bound text goes through such a client with `--comments`, and without
/// `--binary-mode` and `--force`. An example is
/// `.. | mysql --comments --default-character-set=utf8mb4`. A program that sends the text itself
/// needs only `first_unportable`.
///
/// If there is none, the client reads the query like a server
/// ([`client_is_a_server`](crate::laws::client_is_a_server)). As a reader, it cuts each text that
/// is bound to the query into as many statements as the query has. The laws
/// `bound_texts_in_clients`, and those of steady texts and of fragments, say so. Only tests show
/// that the client does nothing else with the query, such as taking a line for a command.
///
/// It judges only the bytes that it is given. A bound text with names or keywords, or with strings
/// without backslash escapes, may have a construct that its query doesn't have. The client would
/// change such a text, so test the bound text too.
pub fn first_unportable_in_client(query: &[u8], no_backslash_escape: bool) -> Option<Unportable>
    ensures first { OnTokens no_backslash_escape query.now
        (λ ts. result ≡ first_unportable_in_client ts) }
    ensures none { OnTokens no_backslash_escape query.now
        (λ ts. (result ≡ None) ↔ IsPortableInClient ts) }
{
    let mut rest = query;
    let mut statement = true;
    let mut line = true;
    'tokens: loop {
        rest = &rest[passed_len(statement, line, rest)..];
        if rest.is_empty() {
            return None;
        }
        let (_, len) = first_token(rest, no_backslash_escape);
        if let Some(construct) = found_in_front(statement, line, rest, len) {
            return Some(Unportable {
                construct,
                at: query.len() - rest.len(),
            });
        }
        let token = &rest[..len];
        statement = statement_after(statement, token);
        line = line_after(line, token);
        rest = &rest[len..];
    }
}
