//! Laws about the definitions that the contracts cite, and about equality. No program needs to call
//! them.
ghost use Rattle.std.specs.Prelude.{◌≡◌, ◌↔◌, ℕ, Bool, List, [], None, Some, IsTrue, length, map, slice_get};
ghost use Rattle.mysql_values.specs.Content.{content_of};
ghost use Rattle.mysql_sql_text.specs.InLine.{AreInLine};
ghost use Rattle.mysql_sql_text.specs.StringUnits.{with_backslashes};
ghost use Rattle.mysql_named_params.specs.Tokens.{Token, IsTokens, text_of};
ghost use Rattle.mysql_named_params.specs.Places.{place_count, with_marks};
ghost use Rattle.mysql_named_params.specs.Positions.{positions};
ghost use Rattle.mysql_named_params.specs.WideNames.{HasNoCapitals, widened};
ghost use Rattle.mysql_portable.specs.Portable.{AreReadAlike, IsPortable, IsReadAs};
ghost use Rattle.mysql_portable.specs.Server.{Server, IsReadOn};
ghost use Rattle.mysql_portable.specs.Quiet.{IsHonest, DecidesWithin};
ghost use Rattle.mysql_portable.specs.Client.{Client, IsReadBy, HoldNoOpener};
ghost use Rattle.mysql_portable.specs.FirstUnportableInClient.{AreSentExceptMarks, IsPortableInClient};
ghost use Rattle.mysql_portable.specs.Statements.{statements};
ghost use Rattle.mysql_params_core.specs.Given.{Given, empty, positional};
ghost use Rattle.mysql_binding.specs.BindErrors.{AreEqualBindErrors};
ghost use Rattle.mysql_binding.specs.BoundPairs.{AreEqualBindPairsErrors};
ghost use Rattle.mysql_binding.specs.BoundStatements.{statements_with_literals};
ghost use Rattle.mysql_binding.specs.FirstCause.{first_cause};
ghost use Rattle.mysql_binding.specs.Isolation.{IsBoundText};
ghost use Rattle.mysql_binding.specs.Pieces.{pieces, joined_text};
ghost use Rattle.mysql_binding.specs.Replaced.{AreLiterals, AreTokensOf, with_literal_tokens};
ghost use Rattle.mysql_binding.specs.ReadOnServer.{AreReadOn};
ghost use Rattle.mysql_binding.specs.StandsAlone.{AllAlone, IsFirstNotAlone, first_not_alone};

use crate::bind_error::BindError;
use crate::bind_pairs_error::BindPairsError;
use crate::binding::{ParsedQuery, WideQuery};

/// Texts with the shape of literals, put in place of a query's names and marks, change no other
/// token. The tokens of the result are the query's, with those of each text in place of its name or
/// mark. No place is left among them.
pub fn isolation()
    ensures tokens { (mode : Bool) (query text : List ℕ) (ts : List Token)
        (literals : List (List ℕ)) (lists : List (List Token)) →
        IsTokens mode query ts → AreLiterals mode literals → AreTokensOf mode literals lists →
        joined_text (pieces ts) literals ≡ Some text →
        IsTokens mode text (with_literal_tokens ts lists) }
    ensures no_place { (mode : Bool) (text : List ℕ) (ts : List Token)
        (literals : List (List ℕ)) (lists : List (List Token)) →
        AreLiterals mode literals → AreTokensOf mode literals lists →
        joined_text (pieces ts) literals ≡ Some text →
        place_count (with_literal_tokens ts lists) ≡ 0 }
{}

/// A text that is bound to a portable query is portable (`portable`). Every honest server reads it
/// like the grammar, whatever its values contain. Its tokens are the query's, with those of one
/// literal in place of each name and mark. Only `--` before a newline and the content of quiet
/// comments may differ (`read`). A server may decide about a quiet comment only by the comment's
/// own text. Then it reads exactly the tokens that it reads in the query, with those of the
/// literals in the places (`tokens`).
pub fn bound_texts_on_servers()
    ensures portable { (mode : Bool) (query text : List ℕ) (ts : List Token) (given : Given) →
        IsTokens mode query ts → (b : IsBoundText mode ts given text) → AreReadAlike ts →
        IsPortable (with_literal_tokens ts b.literal_tokens) }
    ensures read { (server : Server) (mode : Bool) (query text : List ℕ) (ts vs : List Token)
        (given : Given) → IsHonest server → IsTokens mode query ts →
        (b : IsBoundText mode ts given text) → AreReadAlike ts → IsReadOn server mode text vs →
        IsReadAs (with_literal_tokens ts b.literal_tokens) vs }
    ensures tokens { (server : Server) (mode : Bool) (query text : List ℕ) (ts us : List Token)
        (given : Given) → IsHonest server → DecidesWithin server → IsTokens mode query ts →
        (b : IsBoundText mode ts given text) → AreReadAlike ts → IsReadOn server mode query us →
        IsReadOn server mode text (with_literal_tokens us b.literal_tokens) }
    ensures literals { (server : Server) (mode : Bool) (ts : List Token) (given : Given)
        (text : List ℕ) → (b : IsBoundText mode ts given text) →
        AreReadOn server mode b.literals b.literal_tokens }
{}

/// A client that keeps comments cuts a text that is bound to a portable query into as many
/// statements as the query has (`count`). The values of the text make no difference. The query must
/// have no `/*!`, `/*+` or `/*/` in a block comment; then the text has none there either
/// (`no_opener`). The client reads the text like the grammar. Only `--` before a newline and the
/// content of quiet comments may differ (`read`). A client may decide about a quiet comment only by
/// the comment's own text. Then it reads the tokens that it reads in the query, with those of the
/// literals in the places (`tokens`). Its statements are then those of the query, with literals in
/// their places (`statements`).
pub fn bound_texts_in_clients()
    ensures no_opener { (mode : Bool) (text : List ℕ) (ts : List Token) (given : Given) →
        (b : IsBoundText mode ts given text) → HoldNoOpener ts →
        HoldNoOpener (with_literal_tokens ts b.literal_tokens) }
    ensures read { (client : Client) (mode : Bool) (query text : List ℕ) (ts vs : List Token)
        (given : Given) → IsHonest client.reader → IsTokens mode query ts →
        (b : IsBoundText mode ts given text) → AreReadAlike ts → HoldNoOpener ts →
        IsReadBy client mode text vs → IsReadAs (with_literal_tokens ts b.literal_tokens) vs }
    ensures count { (client : Client) (mode : Bool) (query text : List ℕ) (ts vs : List Token)
        (given : Given) → IsHonest client.reader → IsTokens mode query ts →
        IsBoundText mode ts given text → AreReadAlike ts → HoldNoOpener ts →
        IsReadBy client mode text vs → length (statements vs) ≡ length (statements ts) }
    ensures tokens { (client : Client) (mode : Bool) (query text : List ℕ) (ts us : List Token)
        (given : Given) → IsHonest client.reader → DecidesWithin client.reader →
        IsTokens mode query ts → (b : IsBoundText mode ts given text) → AreReadAlike ts →
        HoldNoOpener ts → IsReadBy client mode query us →
        IsReadBy client mode text (with_literal_tokens us b.literal_tokens) }
    ensures statements { (mode : Bool) (text : List ℕ) (ts us : List Token) (given : Given) →
        (b : IsBoundText mode ts given text) →
        statements (with_literal_tokens us b.literal_tokens) ≡
        statements_with_literals (statements us) b.literal_tokens }
{}

/// If a query is portable in a client, except at its marks, and no literal has a newline or a byte
/// 0, a text that is bound to the query is portable there too (`portable`). With backslash escapes
/// no literal has one (`escaped`). Without them, a string has those of its value, and a client may
/// drop one. In this case the bound text itself has to be tested.
pub fn bound_texts_are_sent()
    ensures portable { (mode : Bool) (query text : List ℕ) (ts : List Token) (given : Given) →
        IsTokens mode query ts → (b : IsBoundText mode ts given text) → AreInLine b.literals →
        AreReadAlike ts → HoldNoOpener ts → AreSentExceptMarks ts →
        IsPortableInClient (with_literal_tokens ts b.literal_tokens) }
    ensures escaped { (ts : List Token) (given : Given) (text : List ℕ) →
        (b : IsBoundText with_backslashes ts given text) → AreInLine b.literals }
{
    bound_texts_on_servers();
    bound_texts_in_clients();
}

/// No name and no mark is left in a bound text.
pub fn no_place_is_left()
    ensures none { (mode : Bool) (ts us : List Token) (given : Given) (text : List ℕ) →
        IsBoundText mode ts given text → IsTokens mode text us → place_count us ≡ 0 }
{}

/// A bound text that is bound again with no parameters isn't refused and stays as it is.
pub fn bound_again_is_the_same()
    ensures same { (mode : Bool) (ts us : List Token) (given : Given) (text : List ℕ) →
        IsBoundText mode ts given text → IsTokens mode text us → IsBoundText mode us empty text }
{}

/// The query with a mark in place of each name, bound to the same values by position, is not
/// refused and gives the same text.
pub fn by_position_is_the_same()
    ensures tokens { (mode : Bool) (query : List ℕ) (ts : List Token) →
        IsTokens mode query ts → IsTokens mode (text_of (with_marks ts)) (with_marks ts) }
    ensures same { (mode : Bool) (query text : List ℕ) (ts : List Token) (given : Given) →
        IsTokens mode query ts → (bound : IsBoundText mode ts given text) →
        IsBoundText mode (with_marks ts) (positional bound.values) text }
{}

/// A query has exactly one bound text for the same parameters.
pub fn one_bound_text()
    ensures same { (mode : Bool) (ts : List Token) (given : Given) (a b : List ℕ) →
        IsBoundText mode ts given a → IsBoundText mode ts given b → a ≡ b }
{}

/// For a query without capitals after a colon or a name, wide names make no difference. They give
/// the same text as the names of the grammar, or the same cause of refusal.
pub fn wide_names_without_capitals()
    ensures cause { (ts : List Token) (given : Given) → HasNoCapitals ts →
        first_cause (widened ts) given ≡ first_cause ts given }
    ensures text { (mode : Bool) (ts : List Token) (given : Given) (a b : List ℕ) →
        HasNoCapitals ts → IsBoundText mode ts given a → IsBoundText mode (widened ts) given b →
        a ≡ b }
{}

/// If one query gives the same text for two sets of parameters, their values have the same contents
/// at every place.
pub fn equal_texts_say_the_same()
    ensures same { (mode : Bool) (query text : List ℕ) (ts us : List Token) (a b : Given) →
        IsTokens mode query ts → IsTokens mode query us →
        (x : IsBoundText mode ts a text) → (y : IsBoundText mode us b text) →
        map content_of x.values ≡ map content_of y.values }
{}

/// `first_not_alone` finds a number and a position; the position is that of the place with this
/// number.
pub fn position_of_first_not_alone()
    ensures position { (ts : List Token) (place position : ℕ) →
        first_not_alone ts ≡ Some (place, position) →
        slice_get (positions ts) place ≡ Some position }
{}

/// The place that `first_not_alone` finds is the first that doesn't stand alone. If it finds none,
/// each place stands alone.
pub fn first_not_alone_is_first()
    ensures found { (ts : List Token) (place position : ℕ) →
        first_not_alone ts ≡ Some (place, position) → IsFirstNotAlone ts place position }
    ensures none { (ts : List Token) → first_not_alone ts ≡ None → AllAlone ts [] }
{}

/// Errors of binding are equal if and only if variant and fields are.
pub fn bind_error_equality(a: &BindError, b: &BindError) -> bool
    ensures same { IsTrue result ↔ AreEqualBindErrors a.now b.now }
    ensures member { result ≡ ⟦<BindError as PartialEq>⟧.eq a.now b.now }
{
    a == b
}

/// Errors of binding by pairs are equal if and only if variant and fields are.
pub fn bind_pairs_error_equality(a: &BindPairsError, b: &BindPairsError) -> bool
    ensures same { IsTrue result ↔ AreEqualBindPairsErrors a.now b.now }
    ensures member { result ≡ ⟦<BindPairsError as PartialEq>⟧.eq a.now b.now }
{
    a == b
}

/// Parsed queries are equal if and only if mode and query are.
pub fn parsed_query_equality(a: &ParsedQuery<'_>, b: &ParsedQuery<'_>) -> bool
    ensures same { IsTrue result ↔ (a.now ≡ b.now) }
    ensures member { result ≡ ⟦<ParsedQuery<'static> as PartialEq>⟧.eq a.now b.now }
{
    a == b
}

/// Queries with wide names are equal if and only if mode and query are.
pub fn wide_query_equality(a: &WideQuery<'_>, b: &WideQuery<'_>) -> bool
    ensures same { IsTrue result ↔ (a.now ≡ b.now) }
    ensures member { result ≡ ⟦<WideQuery<'static> as PartialEq>⟧.eq a.now b.now }
{
    a == b
}
