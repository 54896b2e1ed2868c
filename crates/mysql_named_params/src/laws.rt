//! Laws about the definitions that the contracts cite, and about equality. A function without a
//! result does nothing: it is called for its `ensures`.
ghost use Rattle.std.specs.Prelude.{◌≡◌, ℕ, ◌+◌, ◌↔◌, All, Bool, List, [], length, IsTrue};
ghost use Rattle.mysql_named_params.specs.Tokens.{Token, IsToken, IsTokens, text_of};
ghost use Rattle.mysql_named_params.specs.TokensOf.{tokens_of};
ghost use Rattle.mysql_named_params.specs.Locality.{LooksAlike};
ghost use Rattle.mysql_named_params.specs.LoweredNames.{lower_names};
ghost use Rattle.mysql_named_params.specs.Parsed.{parsed};
ghost use Rattle.mysql_named_params.specs.Places.{names, marks, with_marks, with_names};
ghost use Rattle.mysql_named_params.specs.Positions.{positions, HavePlacesAt, AscendFrom};
ghost use Rattle.mysql_named_params.specs.WideNames.{HasNoCapitals, IsWideName, widened};

use crate::named_params::{MixedParamsError, NamedParamsError, ParsedNamedParams};

/// No query has two token lists in the same mode.
pub fn one_token_list()
    ensures unique { (mode : Bool) (query : List ℕ) (ts us : List Token) →
        IsTokens mode query ts → IsTokens mode query us → ts ≡ us }
{}

/// Every query has tokens, and a function gives them. For a constant query it computes them.
pub fn tokens_exist()
    ensures tokens { (mode : Bool) (query : List ℕ) → IsTokens mode query (tokens_of mode query) }
    ensures unique { (mode : Bool) (query : List ℕ) (ts : List Token) →
        IsTokens mode query ts → tokens_of mode query ≡ ts }
{}

/// At most two bytes after a token decide whether it is one. For an open token, it also matters
/// whether any bytes follow. Apart from that, any bytes may follow the token.
pub fn locality()
    ensures local { (mode : Bool) (t : Token) (rest other : List ℕ) →
        LooksAlike mode t rest other → IsToken mode t rest → IsToken mode t other }
{}

/// The positions are those of the names and marks. There are as many, in ascending order, and at
/// each a name or mark begins.
pub fn positions_of_places()
    ensures count { (ts : List Token) → length (positions ts) ≡ length (names ts) + marks ts }
    ensures ascending { (ts : List Token) → AscendFrom 0 (positions ts) }
    ensures places { (ts : List Token) → HavePlacesAt ts (positions ts) }
{}

/// If a query has no marks, putting the names back in place of the marks undoes the renaming.
pub fn renaming_undone()
    ensures undone { (ts : List Token) → marks ts ≡ 0 → with_names (with_marks ts) (names ts) ≡ ts }
{}

/// If a query has no names, the query with marks is the query itself.
pub fn nameless_is_unchanged()
    ensures unchanged { (mode : Bool) (query : List ℕ) (ts : List Token) →
        IsTokens mode query ts → names ts ≡ [] → (parsed ts).query ≡ query }
{}

/// Wide names change neither the bytes of a query nor its marks. Each wide name is a letter or `_`,
/// and then letters, digits and `_`.
pub fn wide_names()
    ensures bytes { (ts : List Token) → text_of (widened ts) ≡ text_of ts }
    ensures marks { (ts : List Token) → marks (widened ts) ≡ marks ts }
    ensures names { (mode : Bool) (query : List ℕ) (ts : List Token) → IsTokens mode query ts →
        All IsWideName (names (widened ts)) }
{}

/// No wide name is cut short, and none is overlooked.
pub fn wide_names_are_whole()
    ensures whole { (ts : List Token) → HasNoCapitals (widened ts) }
    ensures again { (ts : List Token) → widened (widened ts) ≡ widened ts }
{}

/// A query without capitals after a colon or a name has the tokens of the grammar. So does a query
/// without wide names.
pub fn names_without_capitals()
    ensures same { (ts : List Token) → HasNoCapitals ts → widened ts ≡ ts }
    ensures nameless { (ts : List Token) → names (widened ts) ≡ [] → widened ts ≡ ts }
{}

/// Locality: with a mark in place of each wide name, a query keeps its tokens of the grammar,
/// except that this mark is in place of those of the wide name.
pub fn marked_wide_names()
    ensures tokens { (mode : Bool) (query : List ℕ) (ts : List Token) → IsTokens mode query ts →
        IsTokens mode (text_of (with_marks (widened ts))) (with_marks (widened ts)) }
{}

/// With its wide names in lower case, a query has tokens of the grammar: its own, with these names.
/// The text keeps its length, and with marks in place of names it is the same.
pub fn lowered_names()
    ensures tokens { (mode : Bool) (query : List ℕ) (ts : List Token) → IsTokens mode query ts →
        IsTokens mode (text_of (lower_names (widened ts))) (lower_names (widened ts)) }
    ensures marks { (ts : List Token) → with_marks (lower_names ts) ≡ with_marks ts }
    ensures len { (ts : List Token) →
        length (text_of (lower_names ts)) ≡ length (text_of ts) }
{}

/// Errors of mixed parameters are equal, since there is only one value.
pub fn mixed_error_equality(a: &MixedParamsError, b: &MixedParamsError) -> bool
    ensures same { IsTrue result ↔ (a.now ≡ b.now) }
    ensures member { result ≡ ⟦<MixedParamsError as PartialEq>⟧.eq a.now b.now }
{
    a == b
}

/// Errors of reading names are equal if and only if variant and field are.
pub fn named_params_error_equality(a: &NamedParamsError, b: &NamedParamsError) -> bool
    ensures same { IsTrue result ↔ (a.now ≡ b.now) }
    ensures member { result ≡ ⟦<NamedParamsError as PartialEq>⟧.eq a.now b.now }
{
    a == b
}

/// Parsed queries are equal if and only if the query with marks and the names are.
pub fn parsed_equality(a: &ParsedNamedParams<'_>, b: &ParsedNamedParams<'_>) -> bool
    ensures same { IsTrue result ↔ (a.now ≡ b.now) }
    ensures member { result ≡ ⟦<ParsedNamedParams<'static> as PartialEq>⟧.eq a.now b.now }
{
    a == b
}
