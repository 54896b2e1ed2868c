//! The first name or mark of a text, and the number of names and marks in a query. The crates above
//! walk from place to place by `first_place_in`; no user needs it.
ghost use Rattle.std.specs.Prelude.{◌≡◌, ◌+◌, ◌≤◌, ◌<◌, ◌&&◌, None, length, take, drop, IfSome};
ghost use Rattle.mysql_named_params.specs.Tokens.{OnTokens};
ghost use Rattle.mysql_named_params.specs.Places.{names, marks, place_count};
ghost use Rattle.mysql_named_params.specs.FirstPlace.{IsFirstPlace};
ghost use Rattle.mysql_named_params.specs.Reading.{OnTokensIn};
ghost use Rattle.mysql_named_params.specs.WidePlaces.{opens_wide_name};

use crate::tokens::{TokenKind, first_token, opens_wide_name, plain_end, wide_len};

/// The kind of a place of a query.
#[derive(Clone, Copy, Debug, PartialEq, Eq)]
pub enum PlaceKind {
    /// A name.
    Name,
    /// A mark.
    Mark,
}

/// The first name or mark of a text.
#[derive(Clone, Copy, Debug, PartialEq, Eq)]
pub struct FoundPlace {
    /// The number of bytes before it.
    pub before: usize,
    /// Whether it is a name or a mark.
    pub kind: PlaceKind,
    /// The number of its bytes. Those of a name include the colon.
    pub len: usize,
}

impl FoundPlace {
    /// Cuts the text at the place: the bytes before it, its own, and those after it.
    pub fn cut<'a>(&self, text: &'a [u8]) -> (&'a [u8], &'a [u8], &'a [u8])
        requires in_range { self.now.before + self.now.len ≤ length text.now }
        ensures before { result.0.now ≡ take self.now.before text.now }
        ensures place { result.1.now ≡ take self.now.len (drop self.now.before text.now) }
        ensures after { result.2.now ≡ drop (self.now.before + self.now.len) text.now }
    {
        let (before, from_place) = text.split_at(self.before);
        let (place, after) = from_place.split_at(self.len);
        (before, place, after)
    }
}

/// How a query is read: the mode, and the kind of names.
#[derive(Clone, Copy, Debug, PartialEq, Eq)]
pub struct Reading {
    /// Whether a backslash is a byte like any other in strings, as for an `sql_mode` with
    /// `NO_BACKSLASH_ESCAPES`.
    pub no_backslash_escape: bool,
    /// Whether names are wide names, which can have capitals, such as `:userId` and `:ID`.
    ///
    /// A wide name is a `:`, a letter of ASCII or `_`, and all such letters, digits and `_` that
    /// follow. Names are case-sensitive. Each `:` before a letter or `_` outside of strings, quoted
    /// names and comments begins a wide name, whatever comes before it.
    ///
    /// So `x::Text` and `lbl:LOOP` are refused as places that don't stand alone, and are left as
    /// they are without wide names. A query whose names have no capitals gives the same text either
    /// way.
    pub wide_names: bool,
}

/// The first name or mark of a text. Only this function, [`first_place_in`] and the searches of
/// `mysql_portable` divide a text into its tokens.
pub fn first_place(text: &[u8], no_backslash_escape: bool) -> Option<FoundPlace>
    ensures place { OnTokens no_backslash_escape text.now (λ ts. IfSome result (IsFirstPlace ts)) }
    ensures none { OnTokens no_backslash_escape text.now (λ ts.
        result ≡ None → place_count ts ≡ 0) }
    ensures in_range { IfSome result (λ found.
        (0 < found.len) × (found.before + found.len ≤ length text.now)) }
{
    first_place_read(
        text,
        Reading {
            no_backslash_escape,
            wide_names: false,
        },
    )
}

/// The first name or mark of a text in a reading. In a reading with wide names, a wide name is one
/// place.
pub fn first_place_in(text: &[u8], reading: Reading) -> Option<FoundPlace>
    ensures place { OnTokensIn reading text.now (λ ts. IfSome result (IsFirstPlace ts)) }
    ensures none { OnTokensIn reading text.now (λ ts. result ≡ None → place_count ts ≡ 0) }
    ensures in_range { IfSome result (λ found.
        (0 < found.len) × (found.before + found.len ≤ length text.now)) }
{
    if !reading.wide_names {
        return first_place(text, reading.no_backslash_escape);
    }
    first_place_read(
        text,
        Reading {
            no_backslash_escape: reading.no_backslash_escape,
            wide_names: true,
        },
    )
}

/// [`first_place_in`], inlined where no name is wide, for the loops that find most places of a
/// query. A query of 1,000 names takes 4 in a hundred fewer instructions by it. For the crates
/// above.
#[inline(always)]
pub fn first_place_inlined(text: &[u8], reading: Reading) -> Option<FoundPlace>
    ensures place { OnTokensIn reading text.now (λ ts. IfSome result (IsFirstPlace ts)) }
    ensures none { OnTokensIn reading text.now (λ ts. result ≡ None → place_count ts ≡ 0) }
    ensures in_range { IfSome result (λ found.
        (0 < found.len) × (found.before + found.len ≤ length text.now)) }
{
    if reading.wide_names {
        return first_place_in(text, reading);
    }
    let narrow = Reading {
        no_backslash_escape: reading.no_backslash_escape,
        wide_names: false,
    };
    first_place_read(text, narrow)
}

// The same. It is inlined, so that the walk without wide names doesn't test for them.
#[inline(always)]
fn first_place_read(text: &[u8], reading: Reading) -> Option<FoundPlace>
    ensures place { OnTokensIn reading text.now (λ ts. IfSome result (IsFirstPlace ts)) }
    ensures none { OnTokensIn reading text.now (λ ts. result ≡ None → place_count ts ≡ 0) }
    ensures in_range { IfSome result (λ found.
        (0 < found.len) × (found.before + found.len ≤ length text.now)) }
{
    let mut at = 0;
    while at < text.len() {
        at = plain_end(text, at);
        if at == text.len() {
            return None;
        }
        let rest = &text[at..];
        if opens_wide_name_in(rest, reading) {
            return Some(FoundPlace {
                before: at,
                kind: PlaceKind::Name,
                len: 1 + wide_len(&rest[1..]),
            });
        }
        let (kind, len) = first_token(rest, reading.no_backslash_escape);
        match kind {
            TokenKind::Name => return Some(FoundPlace {
                before: at,
                kind: PlaceKind::Name,
                len,
            }),
            TokenKind::Mark => return Some(FoundPlace {
                before: at,
                kind: PlaceKind::Mark,
                len,
            }),
            TokenKind::Other => at += len,
        }
    }
    None
}

// Whether the text begins with a wide name, and the reading has wide names.
#[inline(always)]
fn opens_wide_name_in(text: &[u8], reading: Reading) -> bool
    ensures { result ≡ (reading.wide_names && opens_wide_name text.now) }
{
    reading.wide_names && opens_wide_name(text)
}

/// The number of names and of marks in a query.
#[derive(Clone, Copy)]
pub(crate) struct PlaceCounts {
    /// Names, with repeats.
    pub(crate) names: usize,
    /// Marks.
    pub(crate) marks: usize,
}

/// Counts the names and marks of a query.
pub(crate) fn count_places(query: &[u8], no_backslash_escape: bool) -> PlaceCounts
    ensures { OnTokens no_backslash_escape query.now (λ ts.
        (result.names ≡ length (names ts)) × (result.marks ≡ marks ts)) }
{
    let mut names = 0;
    let mut marks = 0;
    let mut rest = query;
    while let Some(found) = first_place(rest, no_backslash_escape) {
        match found.kind {
            PlaceKind::Name => names += 1,
            PlaceKind::Mark => marks += 1,
        }
        rest = &rest[found.before + found.len..];
    }
    PlaceCounts { names, marks }
}
