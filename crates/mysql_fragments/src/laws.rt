//! Laws of fragments. No program needs to call them.
ghost use Rattle.std.specs.Prelude.{◌≡◌, ◌++◌, ◌∷◌, ℕ, ℤ, Bool, true, List, None, Some, Ok, IsTrue, codes, length, map, option_map, pos, neg_ℤ};
ghost use Rattle.std.specs.Global.{Global};
ghost use Rattle.std.specs.Str.Parse.{digits_value};
ghost use Rattle.mysql_values.specs.Literal.{literal_of};
ghost use Rattle.mysql_values.specs.declared.value.Value.{Value};
ghost use Rattle.mysql_sql_text.specs.LiteralEnd.{BeginsWithout};
ghost use Rattle.mysql_sql_text.specs.LiteralShape.{AreDigits};
ghost use Rattle.mysql_named_params.specs.Tokens.{Token, AreTokensBefore, IsTokens, Plain};
ghost use Rattle.mysql_named_params.specs.Places.{names};
ghost use Rattle.mysql_portable.specs.Portable.{AreReadAlike, AreReadAlikeBefore, IsPortable, IsReadAs};
ghost use Rattle.mysql_portable.specs.Quiet.{IsHonest, DecidesWithin};
ghost use Rattle.mysql_portable.specs.Server.{Server, IsReadOn};
ghost use Rattle.mysql_portable.specs.Client.{Client, IsReadBy, HoldNoOpener};
ghost use Rattle.mysql_portable.specs.FirstUnportableInClient.{AreSentExceptMarks, IsPortableInClient};
ghost use Rattle.mysql_portable.specs.Statements.{statements};
ghost use Rattle.mysql_params_core.specs.Given.{Given};
ghost use Rattle.mysql_params_core.specs.Lookup.{lookup};
ghost use Rattle.mysql_binding.specs.BoundStatements.{statements_with_literals};
ghost use Rattle.mysql_binding.specs.FirstCause as bound;
ghost use Rattle.mysql_sql_text.specs.InLine.{AreInLine};
ghost use Rattle.mysql_binding.specs.Isolation.{IsBoundText};
ghost use Rattle.mysql_binding.specs.Pieces.{pieces, joined_text};
ghost use Rattle.mysql_binding.specs.Replaced.{AreTokensOf, with_literal_tokens};
ghost use Rattle.mysql_binding.specs.StandsAlone.{first_not_alone, may_stand_after, none_or_first};
ghost use Rattle.mysql_steady_text.specs.GuardedLiteral.{guarded_literal_of};
ghost use Rattle.mysql_steady_text.specs.SteadyLiteral.{steady_literal_of};
ghost use Rattle.mysql_float_literal.specs.DoubleShape.{IsDouble};
ghost use Rattle.mysql_fragments.specs.BorrowedFragments.{AreSaid, HaveFewCells};
ghost use Rattle.mysql_fragments.specs.Expanded.{IsBoundFragments, IsExpanded};
ghost use Rattle.mysql_fragments.specs.FragmentErrors as fragments;
ghost use Rattle.mysql_fragments.specs.FragmentFaults.{is_decimal};
ghost use Rattle.mysql_fragments.specs.FragmentShape.{AreFragments};
ghost use Rattle.mysql_fragments.specs.FragmentsInPlace.{ReadAsThemselves};
ghost use Rattle.mysql_fragments.specs.FragmentText.{fragment_text, identifier_text, joined, mark_number};
ghost use Rattle.mysql_fragments.specs.GivenFragments.{GivenFragments, fragments_for};
ghost use Rattle.mysql_fragments.specs.GuardedFragments.{IsGuardedFragments};
ghost use Rattle.mysql_fragments.specs.ReadFragment.{AreReadAsNames, ReadsAsOne, is_backquote, read_exact, read_identifier};
ghost use Rattle.mysql_fragments.specs.SentFragments.{BeginNoWords};
ghost use Rattle.mysql_fragments.specs.SteadyFragments.{IsSteadyFragments};
ghost use Rattle.mysql_fragments.specs.ValueFragments.{same_cause};
ghost use Rattle.mysql_fragments.specs.declared.fragment.Fragment as said_fragment;
ghost use Rattle.mysql_fragments.specs.declared.fragment.Fragment.TheVariants as fragment;
ghost use Rattle.mysql_fragments.specs.declared.fragment_ref.FragmentRef as borrowed;

mod filled;
mod steady;

pub use filled::{texts_of_fragments_are_bound, texts_of_fragments_have_shapes};
use mysql_binding::laws::{bound_texts_are_sent, bound_texts_in_clients, bound_texts_on_servers};
pub use steady::{
    anywhere_fragments_on_servers, steady_fragments_are_sent, steady_fragments_in_clients,
};

/// For borrowed fragments there are fragments of the same content, of any allocator, if no list and
/// no rows have 2^63 cells or more. So a promise about all such fragments is never empty.
pub fn said_fragments_exist()
    ensures exist { (alloc : Global) (fragments : List borrowed.FragmentRef) →
        HaveFewCells fragments → (said : List said_fragment.Fragment) × AreSaid fragments said }
{}

/// The text of each fragment of an expanded query has the shape of a fragment, with a mark for each
/// of its values.
pub fn fragments_have_shapes()
    ensures { (as_literals mode : Bool) (ts : List Token) (given : GivenFragments)
        (text : List ℕ) → (x : IsExpanded as_literals mode ts given text) →
        AreFragments mode (map mark_number x.fragments) (map fragment_text x.fragments) }
{}

/// For a query whose places stand alone, and any texts of the shape of fragments in these places:
/// the tokens are the query's, with those of each text in place of its name or mark (`tokens`). The
/// places that the texts bring stand alone too (`alone`).
pub fn fragments_isolated()
    ensures tokens { (mode : Bool) (query text : List ℕ) (ts : List Token) (counts : List ℕ)
        (texts : List (List ℕ)) (lists : List (List Token)) → IsTokens mode query ts →
        first_not_alone ts ≡ None → AreFragments mode counts texts →
        AreTokensOf mode texts lists → joined_text (pieces ts) texts ≡ Some text →
        IsTokens mode text (with_literal_tokens ts lists) }
    ensures alone { (mode : Bool) (query text : List ℕ) (ts : List Token) (counts : List ℕ)
        (texts : List (List ℕ)) (lists : List (List Token)) → IsTokens mode query ts →
        first_not_alone ts ≡ None → AreFragments mode counts texts →
        AreTokensOf mode texts lists → joined_text (pieces ts) texts ≡ Some text →
        first_not_alone (with_literal_tokens ts lists) ≡ None }
{}

/// If each token of the query passes its test, like those of a portable query, then so does each
/// token of the text (`portable`). Every honest server reads the tokens that the grammar reads,
/// except for `--` before a newline and the contents of quiet comments (`read`). If the server
/// decides about a quiet comment by its own text, it reads the tokens that it reads in the query,
/// with those of each text in place of its name or mark (`tokens`).
pub fn fragments_on_servers()
    ensures portable { (mode : Bool) (query text : List ℕ) (ts : List Token) (counts : List ℕ)
        (texts : List (List ℕ)) (lists : List (List Token)) → IsTokens mode query ts →
        AreReadAlike ts → first_not_alone ts ≡ None → AreFragments mode counts texts →
        AreTokensOf mode texts lists → joined_text (pieces ts) texts ≡ Some text →
        AreReadAlike (with_literal_tokens ts lists) }
    ensures read { (server : Server) (mode : Bool) (query text : List ℕ) (ts vs : List Token)
        (counts : List ℕ) (texts : List (List ℕ)) (lists : List (List Token)) → IsHonest server →
        IsTokens mode query ts → AreReadAlike ts → first_not_alone ts ≡ None →
        AreFragments mode counts texts → AreTokensOf mode texts lists →
        joined_text (pieces ts) texts ≡ Some text → IsReadOn server mode text vs →
        IsReadAs (with_literal_tokens ts lists) vs }
    ensures tokens { (server : Server) (mode : Bool) (query text : List ℕ) (ts us : List Token)
        (counts : List ℕ) (texts : List (List ℕ)) (lists : List (List Token)) → IsHonest server →
        DecidesWithin server → IsTokens mode query ts → AreReadAlike ts →
        first_not_alone ts ≡ None → AreFragments mode counts texts →
        AreTokensOf mode texts lists → joined_text (pieces ts) texts ≡ Some text →
        IsReadOn server mode query us → IsReadOn server mode text (with_literal_tokens us lists) }
{}

/// If each token of the query passes its test and no block comment in it holds `/*!`, `/*+` or
/// `/*/`, a client that keeps comments cuts the text into as many statements as the query
/// (`count`). The text has none of the three in a block comment either (`no_opener`). The client
/// reads it as the grammar does, except for `--` before a newline and the contents of quiet
/// comments (`read`).
///
/// If the client decides about a quiet comment by the comment only, it reads the tokens that it
/// reads in the query, with those of one fragment in place of each name and mark (`tokens`). The
/// statements are then those of the query, with fragments in their places (`statements`).
pub fn fragments_in_clients()
    ensures no_opener { (mode : Bool) (ts : List Token) (counts : List ℕ) (texts : List (List ℕ))
        (lists : List (List Token)) → AreFragments mode counts texts →
        AreTokensOf mode texts lists → HoldNoOpener ts →
        HoldNoOpener (with_literal_tokens ts lists) }
    ensures read { (client : Client) (mode : Bool) (query text : List ℕ) (ts vs : List Token)
        (counts : List ℕ) (texts : List (List ℕ)) (lists : List (List Token)) →
        IsHonest client.reader → IsTokens mode query ts → AreReadAlike ts → HoldNoOpener ts →
        first_not_alone ts ≡ None → AreFragments mode counts texts →
        AreTokensOf mode texts lists → joined_text (pieces ts) texts ≡ Some text →
        IsReadBy client mode text vs → IsReadAs (with_literal_tokens ts lists) vs }
    ensures count { (client : Client) (mode : Bool) (query text : List ℕ) (ts vs : List Token)
        (counts : List ℕ) (texts : List (List ℕ)) (lists : List (List Token)) →
        IsHonest client.reader → IsTokens mode query ts → AreReadAlike ts → HoldNoOpener ts →
        first_not_alone ts ≡ None → AreFragments mode counts texts →
        AreTokensOf mode texts lists → joined_text (pieces ts) texts ≡ Some text →
        IsReadBy client mode text vs → length (statements vs) ≡ length (statements ts) }
    ensures tokens { (client : Client) (mode : Bool) (query text : List ℕ) (ts us : List Token)
        (counts : List ℕ) (texts : List (List ℕ)) (lists : List (List Token)) →
        IsHonest client.reader → DecidesWithin client.reader → IsTokens mode query ts →
        AreReadAlike ts → HoldNoOpener ts → first_not_alone ts ≡ None →
        AreFragments mode counts texts → AreTokensOf mode texts lists →
        joined_text (pieces ts) texts ≡ Some text → IsReadBy client mode query us →
        IsReadBy client mode text (with_literal_tokens us lists) }
    ensures statements { (mode : Bool) (us : List Token) (counts : List ℕ)
        (texts : List (List ℕ)) (lists : List (List Token)) → AreFragments mode counts texts →
        AreTokensOf mode texts lists → statements (with_literal_tokens us lists)
        ≡ statements_with_literals (statements us) lists }
{}

/// A text that is bound to a portable query with fragments is portable (`portable`). Its tokens are
/// those of the query, replaced: each name and mark by the tokens of one fragment, and then each
/// mark of a fragment by the tokens of one literal. Every honest server reads these tokens, except
/// for `--` before a newline and the contents of quiet comments (`read`). If the server decides
/// about a quiet comment by its own text, it reads the tokens that it reads in the query, replaced
/// (`tokens`).
pub fn bound_fragments_on_servers()
    ensures portable { (mode : Bool) (query text : List ℕ) (ts : List Token)
        (given : GivenFragments) → IsTokens mode query ts →
        (b : IsBoundFragments mode ts given text) → AreReadAlike ts →
        IsPortable (with_literal_tokens (with_literal_tokens ts b.expanded.lists)
        b.bound.literal_tokens) }
    ensures read { (server : Server) (mode : Bool) (query text : List ℕ) (ts vs : List Token)
        (given : GivenFragments) → IsHonest server → IsTokens mode query ts →
        (b : IsBoundFragments mode ts given text) → AreReadAlike ts →
        IsReadOn server mode text vs →
        IsReadAs (with_literal_tokens (with_literal_tokens ts b.expanded.lists)
        b.bound.literal_tokens) vs }
    ensures tokens { (server : Server) (mode : Bool) (query text : List ℕ) (ts us : List Token)
        (given : GivenFragments) → IsHonest server → DecidesWithin server →
        IsTokens mode query ts → (b : IsBoundFragments mode ts given text) → AreReadAlike ts →
        IsReadOn server mode query us → IsReadOn server mode text
        (with_literal_tokens (with_literal_tokens us b.expanded.lists) b.bound.literal_tokens) }
{
    fragments_on_servers();
    bound_texts_on_servers();
}

/// If a query has none of the constructs of a client, and no fragment has a byte 0 or a newline or
/// begins with a letter, as keywords do, the text has none of these constructs either. A mark may
/// be one in both: values replace it.
pub fn fragments_are_sent()
    ensures { (mode : Bool) (query text : List ℕ) (ts : List Token) (counts : List ℕ)
        (texts : List (List ℕ)) (lists : List (List Token)) → IsTokens mode query ts →
        AreSentExceptMarks ts → first_not_alone ts ≡ None → AreFragments mode counts texts →
        AreInLine texts → BeginNoWords texts → AreTokensOf mode texts lists →
        joined_text (pieces ts) texts ≡ Some text →
        AreSentExceptMarks (with_literal_tokens ts lists) }
{}

/// If no block comment of a portable query holds `/*!`, `/*+` or `/*/`, a client that keeps
/// comments cuts each text that is bound to it with fragments into as many statements as the query
/// (`count`). This holds for all fragments and values. The text has none of the three in a block
/// comment either (`no_opener`). The client reads it as the grammar does, except for `--` before a
/// newline and the contents of quiet comments (`read`).
///
/// If the client decides about a quiet comment by the comment only, it reads the tokens that it
/// reads in the query, replaced (`tokens`). The statements are then those of the query, replaced
/// (`statements`).
pub fn bound_fragments_in_clients()
    ensures no_opener { (mode : Bool) (text : List ℕ) (ts : List Token)
        (given : GivenFragments) → (b : IsBoundFragments mode ts given text) → HoldNoOpener ts →
        HoldNoOpener (with_literal_tokens (with_literal_tokens ts b.expanded.lists)
        b.bound.literal_tokens) }
    ensures read { (client : Client) (mode : Bool) (query text : List ℕ) (ts vs : List Token)
        (given : GivenFragments) → IsHonest client.reader → IsTokens mode query ts →
        (b : IsBoundFragments mode ts given text) → AreReadAlike ts → HoldNoOpener ts →
        IsReadBy client mode text vs →
        IsReadAs (with_literal_tokens (with_literal_tokens ts b.expanded.lists)
        b.bound.literal_tokens) vs }
    ensures count { (client : Client) (mode : Bool) (query text : List ℕ) (ts vs : List Token)
        (given : GivenFragments) → IsHonest client.reader → IsTokens mode query ts →
        IsBoundFragments mode ts given text → AreReadAlike ts → HoldNoOpener ts →
        IsReadBy client mode text vs → length (statements vs) ≡ length (statements ts) }
    ensures tokens { (client : Client) (mode : Bool) (query text : List ℕ) (ts us : List Token)
        (given : GivenFragments) → IsHonest client.reader → DecidesWithin client.reader →
        IsTokens mode query ts → (b : IsBoundFragments mode ts given text) → AreReadAlike ts →
        HoldNoOpener ts → IsReadBy client mode query us → IsReadBy client mode text
        (with_literal_tokens (with_literal_tokens us b.expanded.lists) b.bound.literal_tokens) }
    ensures statements { (mode : Bool) (text : List ℕ) (ts us : List Token)
        (given : GivenFragments) → (b : IsBoundFragments mode ts given text) → statements
        (with_literal_tokens (with_literal_tokens us b.expanded.lists) b.bound.literal_tokens)
        ≡ statements_with_literals (statements_with_literals (statements us) b.expanded.lists)
        b.bound.literal_tokens }
{
    fragments_on_servers();
    fragments_in_clients();
    bound_texts_in_clients();
}

/// If a query is portable in a client, no fragment and no literal has a newline or a byte 0, and no
/// fragment begins with a letter, as keywords do, then the text that is bound to it is portable in
/// the client too.
pub fn bound_fragments_are_sent()
    ensures { (mode : Bool) (query text : List ℕ) (ts : List Token) (given : GivenFragments) →
        IsTokens mode query ts → IsPortableInClient ts →
        (b : IsBoundFragments mode ts given text) →
        AreInLine (map fragment_text b.expanded.fragments) →
        BeginNoWords (map fragment_text b.expanded.fragments) → AreInLine b.bound.literals →
        IsPortableInClient (with_literal_tokens (with_literal_tokens ts b.expanded.lists)
        b.bound.literal_tokens) }
{
    fragments_on_servers();
    fragments_in_clients();
    fragments_are_sent();
    bound_texts_are_sent();
}

/// Identifiers and exact numbers in a place read as themselves, by readers of identifiers and of
/// exact numbers. An identifier reads as its name before any text that doesn't begin with a
/// backquote (`name`). Names with points between them read as these names before any text that may
/// follow a place (`names`). There an exact number reads as one number (`number`): its digits as a
/// number, with as many of them after the point as it has (`whole`, `fraction`). After `-` it is
/// the negative of that number (`negative`, `negative_fraction`).
pub fn fragments_read_back()
    ensures name { (name rest : List ℕ) → BeginsWithout is_backquote rest →
        read_identifier (identifier_text name ++ rest) ≡ Some (name, rest) }
    ensures names { (name : List ℕ) (names : List (List ℕ)) (rest : List ℕ) →
        IsTrue (none_or_first may_stand_after rest) → AreReadAsNames
        (joined (codes ".") (map identifier_text (name ∷ names)) ++ rest) (name ∷ names) rest }
    ensures number { (text : List ℕ) → IsTrue (is_decimal text) → ReadsAsOne text }
    ensures whole { (digits rest : List ℕ) → AreDigits digits →
        IsTrue (none_or_first may_stand_after rest) →
        read_exact (digits ++ rest) ≡ Some ((pos (digits_value 10 digits), 0), rest) }
    ensures fraction { (whole fraction rest : List ℕ) → AreDigits whole → AreDigits fraction →
        IsTrue (none_or_first may_stand_after rest) →
        read_exact ((whole ++ (codes "." ++ fraction)) ++ rest)
        ≡ Some ((pos (digits_value 10 (whole ++ fraction)), length fraction), rest) }
    ensures negative { (digits rest : List ℕ) → AreDigits digits →
        IsTrue (none_or_first may_stand_after rest) → read_exact ((codes "-" ++ digits) ++ rest)
        ≡ Some ((neg_ℤ (pos (digits_value 10 digits)), 0), rest) }
    ensures negative_fraction { (whole fraction rest : List ℕ) → AreDigits whole →
        AreDigits fraction → IsTrue (none_or_first may_stand_after rest) →
        read_exact ((codes "-" ++ (whole ++ (codes "." ++ fraction))) ++ rest)
        ≡ Some ((neg_ℤ (pos (digits_value 10 (whole ++ fraction))), length fraction), rest) }
{}

/// The text that is bound to a query with fragments is the query's pieces with a text for each
/// fragment between them. Each identifier, exact number and double in it, followed by the rest of
/// the text, reads as itself and leaves exactly that rest, also within a list or rows. Each value
/// is its literal, and each keyword is its bytes. So it is with plain literals (`plain`), steady
/// ones (`steady`) and guarded ones (`guarded`).
pub fn fragments_read_in_place()
    ensures plain { (mode : Bool) (ts : List Token) (given : GivenFragments) (text : List ℕ) →
        (b : IsBoundFragments mode ts given text) → (texts : List (List ℕ))
        × (joined_text (pieces ts) texts ≡ Some text)
        × ReadAsThemselves (literal_of mode) (pieces ts) b.expanded.fragments texts }
    ensures steady { (ts : List Token) (given : GivenFragments) (text : List ℕ) →
        (b : IsSteadyFragments ts given text) → (texts : List (List ℕ))
        × (joined_text (pieces ts) texts ≡ Some text)
        × ReadAsThemselves steady_literal_of (pieces ts) b.expanded.fragments texts }
    ensures guarded { (mode : Bool) (ts : List Token) (given : GivenFragments)
        (text : List ℕ) → (b : IsGuardedFragments mode ts given text) →
        (texts : List (List ℕ)) × (joined_text (pieces ts) texts ≡ Some text)
        × ReadAsThemselves (guarded_literal_of mode) (pieces ts) b.expanded.fragments texts }
{}

/// A query has exactly one text for the same fragments: with plain literals of a mode (`plain`),
/// with steady ones (`steady`), and with guarded ones of a mode (`guarded`).
pub fn one_text_with_fragments()
    ensures plain { (mode : Bool) (ts : List Token) (given : GivenFragments) (a b : List ℕ) →
        IsBoundFragments mode ts given a → IsBoundFragments mode ts given b → a ≡ b }
    ensures steady { (ts : List Token) (given : GivenFragments) (a b : List ℕ) →
        IsSteadyFragments ts given a → IsSteadyFragments ts given b → a ≡ b }
    ensures guarded { (mode : Bool) (ts : List Token) (given : GivenFragments)
        (a b : List ℕ) → IsGuardedFragments mode ts given a →
        IsGuardedFragments mode ts given b → a ≡ b }
{}

/// If the fragments for the places are all values, then `bind_fragments_in` does the same as
/// `bind_text_in`. Each text that is bound to the fragments is also bound to the values (`text`),
/// and the first cause that refuses the fragments is the one that refuses the values (`causes`).
pub fn values_bind_as_text()
    ensures text { (mode : Bool) (ts : List Token) (given : GivenFragments) (params : Given)
        (values : List Value) (text : List ℕ) →
        fragments_for given (names ts) ≡ Ok (map (λ value. fragment.Value value) values) →
        lookup params (names ts) ≡ Ok values → IsBoundFragments mode ts given text →
        IsBoundText mode ts params text }
    ensures causes { (ts : List Token) (given : GivenFragments) (params : Given)
        (values : List Value) →
        fragments_for given (names ts) ≡ Ok (map (λ value. fragment.Value value) values) →
        lookup params (names ts) ≡ Ok values → fragments.first_cause true ts given
        ≡ option_map same_cause (bound.first_cause ts params) }
{}

/// Each byte of a double's number is a token of its own, a plain byte, in both modes and before
/// every text (`tokens`), and every honest server reads it so (`alike`).
pub fn doubles_are_plain()
    ensures tokens { (mode : Bool) (text rest : List ℕ) → IsDouble text →
        AreTokensBefore mode rest (map Plain text) }
    ensures alike { (text rest : List ℕ) → IsDouble text →
        AreReadAlikeBefore rest (map Plain text) }
{}
