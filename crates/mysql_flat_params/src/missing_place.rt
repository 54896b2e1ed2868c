//! The place of a name in a query.
ghost use Rattle.std.specs.Prelude.{◌≡◌, ◌<◌, ◌↔◌, None, length, drop, IfSome, IsTrue};
ghost use Rattle.std.specs.List.{Contains};
ghost use Rattle.mysql_named_params.specs.Tokens.{OnTokens};
ghost use Rattle.mysql_named_params.specs.Reading.{OnTokensIn};
ghost use Rattle.mysql_named_params.specs.Places.{names};
ghost use Rattle.mysql_flat_params.specs.NamePlace.{IsFirstOfName};

use mysql_named_params::places::{PlaceKind, Reading, first_place_in};

/// The first place of a query with this name: its number, and the index of the name's first byte,
/// after the colon.
pub fn name_place(query: &[u8], name: &[u8], no_backslash_escape: bool) -> Option<(usize, usize)>
    ensures found { OnTokens no_backslash_escape query.now (λ ts. IfSome result (λ found.
        IsFirstOfName ts name.now found.0 found.1)) }
    ensures none { OnTokens no_backslash_escape query.now (λ ts.
        result ≡ None → Contains (names ts) name.now → ⊥) }
{
    let reading = Reading {
        no_backslash_escape,
        wide_names: false,
    };
    name_place_read(query, name, reading)
}

/// [`name_place`] for a query in any reading.
pub fn name_place_read(query: &[u8], name: &[u8], reading: Reading) -> Option<(usize, usize)>
    ensures found { OnTokensIn reading query.now (λ ts. IfSome result (λ found.
        IsFirstOfName ts name.now found.0 found.1)) }
    ensures none { OnTokensIn reading query.now (λ ts.
        result ≡ None → Contains (names ts) name.now → ⊥) }
{
    let mut place = 0;
    let mut rest = query;
    while let Some(found) = first_place_in(rest, reading) {
        let (_, bytes, after) = found.cut(rest);
        if is_this_name(found.kind, bytes, name) {
            return Some((place, query.len() - rest.len() + found.before + 1));
        }
        place += 1;
        rest = after;
    }
    None
}

// Whether a place of this kind, with these bytes, is this name.
fn is_this_name(kind: PlaceKind, place: &[u8], name: &[u8]) -> bool
    requires { 0 < length place.now }
    ensures { IsTrue result ↔ ((kind ≡ PlaceKind.Name) × (drop 1 place.now ≡ name.now)) }
{
    match kind {
        PlaceKind::Name => &place[1..] == name,
        PlaceKind::Mark => false,
    }
}
