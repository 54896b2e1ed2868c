//! Laws of the definitions. They do nothing: each is called for what it ensures.
ghost use Rattle.std.specs.Prelude.{◌≡◌, ◌↔◌, ℕ, Bool, List, None, Some, IsTrue, length, map};
ghost use Rattle.mysql_values.specs.Content.{content_of};
ghost use Rattle.mysql_sql_text.specs.InLine.{AreInLine};
ghost use Rattle.mysql_named_params.specs.Tokens.{Token, IsTokens};
ghost use Rattle.mysql_named_params.specs.Places.{place_count, with_marks};
ghost use Rattle.mysql_portable.specs.Portable.{AreReadAlike, IsReadAs};
ghost use Rattle.mysql_portable.specs.Server.{Server, IsReadOn};
ghost use Rattle.mysql_portable.specs.Quiet.{IsHonest, DecidesWithin};
ghost use Rattle.mysql_portable.specs.Client.{Client, IsReadBy, HoldNoOpener};
ghost use Rattle.mysql_portable.specs.FirstUnportableInClient.{AreSentAsTheyAre, AreSentExceptMarks, IsPortableInClient};
ghost use Rattle.mysql_portable.specs.Statements.{statements};
ghost use Rattle.mysql_portable.specs.Steady.{IsSteady};
ghost use Rattle.mysql_portable.specs.CharacterSet.{CharacterSet, seen};
ghost use Rattle.mysql_params_core.specs.Given.{Given, empty, positional};
ghost use Rattle.mysql_binding.specs.BoundStatements.{statements_with_literals};
ghost use Rattle.mysql_binding.specs.Pieces.{pieces, joined_text};
ghost use Rattle.mysql_binding.specs.Replaced.{AreTokensOf, with_literal_tokens};
ghost use Rattle.mysql_binding.specs.StandsAlone.{first_not_alone};
ghost use Rattle.mysql_steady_text.specs.BothModesErrors.{AreEqualBothModesErrors};
ghost use Rattle.mysql_steady_text.specs.BothModesText.{IsTextInBothModes};
ghost use Rattle.mysql_steady_text.specs.SteadyLiterals.{AreSteadyLiterals};
ghost use Rattle.mysql_steady_text.specs.SteadyPairs.{AreEqualBothModesPairsErrors, AreEqualSteadyPairsErrors};
ghost use Rattle.mysql_steady_text.specs.SteadyText.{IsSteadyText};
ghost use Rattle.mysql_steady_text.specs.SteadyTextErrors.{AreEqualSteadyTextErrors};

mod anywhere;
mod guarded;
mod literals;

use crate::both_modes_error::BothModesError;
use crate::both_modes_pairs_error::BothModesPairsError;
use crate::steady_pairs_error::SteadyPairsError;
use crate::steady_text_error::SteadyTextError;
pub use anywhere::{
    anywhere_texts_on_servers, contents_of_steady_texts, texts_in_both_modes_on_servers,
};
pub use guarded::{
    borrowed_guarded_literals, bound_guarded_texts, bound_guarded_texts_on_servers, client_sets,
    guarded_isolation, guarded_literals, guarded_texts_on_servers, guarded_texts_over_sets,
    one_content, one_guarded_text,
};
pub use literals::{borrowed_steady_literals, steady_literals};

/// For a query whose places stand alone, and any texts of the shape of steady literals in these
/// places: in either mode the tokens are the query's, with those of each text in place of its name
/// or mark (`tokens`). No place is left among them (`no_place`).
pub fn steady_isolation()
    ensures tokens { (mode : Bool) (query text : List ℕ) (ts : List Token)
        (literals : List (List ℕ)) (lists : List (List Token)) → IsTokens mode query ts →
        first_not_alone ts ≡ None → AreSteadyLiterals literals → AreTokensOf mode literals lists →
        joined_text (pieces ts) literals ≡ Some text →
        IsTokens mode text (with_literal_tokens ts lists) }
    ensures no_place { (mode : Bool) (text : List ℕ) (ts : List Token)
        (literals : List (List ℕ)) (lists : List (List Token)) → first_not_alone ts ≡ None →
        AreSteadyLiterals literals → AreTokensOf mode literals lists →
        joined_text (pieces ts) literals ≡ Some text →
        place_count (with_literal_tokens ts lists) ≡ 0 }
    // The tokens of steady literals are the same in both modes.
    ensures modes { (mode other : Bool) (literals : List (List ℕ)) (lists : List (List Token)) →
        AreSteadyLiterals literals → AreTokensOf mode literals lists →
        AreTokensOf other literals lists }
{}

/// If each token of the query passes its test, like those of a portable query, then so does each
/// token of the text (`portable`). Every honest server, in either mode, reads the tokens that the
/// grammar reads, except for `--` before a newline and the contents of quiet comments (`read`). If
/// the server decides about a quiet comment by its own text, it reads exactly the tokens that it
/// reads in the query, with those of each literal in place of its name or mark (`tokens`). If the
/// query is steady, every character set shows the text as it is (`seen`).
pub fn steady_texts_on_servers()
    ensures portable { (mode : Bool) (query text : List ℕ) (ts : List Token)
        (literals : List (List ℕ)) (lists : List (List Token)) → IsTokens mode query ts →
        AreReadAlike ts → first_not_alone ts ≡ None → AreSteadyLiterals literals →
        AreTokensOf mode literals lists → joined_text (pieces ts) literals ≡ Some text →
        AreReadAlike (with_literal_tokens ts lists) }
    ensures read { (server : Server) (mode : Bool) (query text : List ℕ) (ts vs : List Token)
        (literals : List (List ℕ)) (lists : List (List Token)) → IsHonest server →
        IsTokens mode query ts → AreReadAlike ts → first_not_alone ts ≡ None →
        AreSteadyLiterals literals → AreTokensOf mode literals lists →
        joined_text (pieces ts) literals ≡ Some text → IsReadOn server mode text vs →
        IsReadAs (with_literal_tokens ts lists) vs }
    ensures tokens { (server : Server) (mode : Bool) (query text : List ℕ) (ts us : List Token)
        (literals : List (List ℕ)) (lists : List (List Token)) → IsHonest server →
        DecidesWithin server → IsTokens mode query ts → AreReadAlike ts →
        first_not_alone ts ≡ None → AreSteadyLiterals literals → AreTokensOf mode literals lists →
        joined_text (pieces ts) literals ≡ Some text → IsReadOn server mode query us →
        IsReadOn server mode text (with_literal_tokens us lists) }
    ensures seen { (set : CharacterSet) (mode : Bool) (query text : List ℕ) (ts : List Token)
        (literals : List (List ℕ)) → IsTokens mode query ts → IsSteady query →
        AreSteadyLiterals literals → joined_text (pieces ts) literals ≡ Some text →
        seen set text ≡ text }
{}

/// If each token of the query passes its test and no block comment in it holds `/*!`, `/*+` or
/// `/*/`, a client that keeps comments cuts the text into as many statements as the query
/// (`count`). The text has none of the three in a block comment either (`no_opener`). The client
/// reads it as the grammar does, except for `--` before a newline and the contents of quiet
/// comments (`read`).
///
/// If the client decides about a quiet comment by the comment only, it reads the tokens that it
/// reads in the query, with those of one literal in place of each name and mark (`tokens`). The
/// statements are then those of the query, with literals in their places (`statements`).
pub fn steady_texts_in_clients()
    ensures no_opener { (mode : Bool) (ts : List Token) (literals : List (List ℕ))
        (lists : List (List Token)) → AreSteadyLiterals literals →
        AreTokensOf mode literals lists → HoldNoOpener ts →
        HoldNoOpener (with_literal_tokens ts lists) }
    ensures read { (client : Client) (mode : Bool) (query text : List ℕ) (ts vs : List Token)
        (literals : List (List ℕ)) (lists : List (List Token)) → IsHonest client.reader →
        IsTokens mode query ts → AreReadAlike ts → HoldNoOpener ts → first_not_alone ts ≡ None →
        AreSteadyLiterals literals → AreTokensOf mode literals lists →
        joined_text (pieces ts) literals ≡ Some text → IsReadBy client mode text vs →
        IsReadAs (with_literal_tokens ts lists) vs }
    ensures count { (client : Client) (mode : Bool) (query text : List ℕ) (ts vs : List Token)
        (literals : List (List ℕ)) (lists : List (List Token)) → IsHonest client.reader →
        IsTokens mode query ts → AreReadAlike ts → HoldNoOpener ts → first_not_alone ts ≡ None →
        AreSteadyLiterals literals → AreTokensOf mode literals lists →
        joined_text (pieces ts) literals ≡ Some text → IsReadBy client mode text vs →
        length (statements vs) ≡ length (statements ts) }
    ensures tokens { (client : Client) (mode : Bool) (query text : List ℕ) (ts us : List Token)
        (literals : List (List ℕ)) (lists : List (List Token)) → IsHonest client.reader →
        DecidesWithin client.reader → IsTokens mode query ts → AreReadAlike ts →
        HoldNoOpener ts → first_not_alone ts ≡ None → AreSteadyLiterals literals →
        AreTokensOf mode literals lists → joined_text (pieces ts) literals ≡ Some text →
        IsReadBy client mode query us → IsReadBy client mode text (with_literal_tokens us lists) }
    ensures statements { (mode : Bool) (us : List Token) (literals : List (List ℕ))
        (lists : List (List Token)) → AreSteadyLiterals literals →
        AreTokensOf mode literals lists → statements (with_literal_tokens us lists)
        ≡ statements_with_literals (statements us) lists }
{}

/// [`steady_texts_in_clients`] for the steady text of a query and the parameters that are given to
/// it.
pub fn bound_steady_texts_in_clients()
    ensures no_opener { (text : List ℕ) (ts : List Token) (given : Given) →
        (b : IsSteadyText ts given text) → HoldNoOpener ts →
        HoldNoOpener (with_literal_tokens ts b.literal_tokens) }
    ensures read { (client : Client) (mode : Bool) (query text : List ℕ) (ts vs : List Token)
        (given : Given) → IsHonest client.reader → IsTokens mode query ts →
        (b : IsSteadyText ts given text) → AreReadAlike ts → HoldNoOpener ts →
        IsReadBy client mode text vs → IsReadAs (with_literal_tokens ts b.literal_tokens) vs }
    ensures count { (client : Client) (mode : Bool) (query text : List ℕ) (ts vs : List Token)
        (given : Given) → IsHonest client.reader → IsTokens mode query ts →
        IsSteadyText ts given text → AreReadAlike ts → HoldNoOpener ts →
        IsReadBy client mode text vs → length (statements vs) ≡ length (statements ts) }
    ensures tokens { (client : Client) (mode : Bool) (query text : List ℕ) (ts us : List Token)
        (given : Given) → IsHonest client.reader → DecidesWithin client.reader →
        IsTokens mode query ts → (b : IsSteadyText ts given text) → AreReadAlike ts →
        HoldNoOpener ts → IsReadBy client mode query us →
        IsReadBy client mode text (with_literal_tokens us b.literal_tokens) }
    ensures statements { (text : List ℕ) (ts us : List Token) (given : Given) →
        (b : IsSteadyText ts given text) →
        statements (with_literal_tokens us b.literal_tokens) ≡
        statements_with_literals (statements us) b.literal_tokens }
{
    steady_texts_in_clients();
}

/// If a query has none of the constructs of a client, except at its marks, and no literal a newline
/// or a byte 0, the text has none of these constructs (`sent`). If the query is also portable in
/// the client, so is the text (`portable`).
pub fn steady_texts_are_sent()
    ensures sent { (mode : Bool) (query text : List ℕ) (ts : List Token)
        (literals : List (List ℕ)) (lists : List (List Token)) → IsTokens mode query ts →
        AreSentExceptMarks ts → first_not_alone ts ≡ None → AreSteadyLiterals literals →
        AreInLine literals → AreTokensOf mode literals lists →
        joined_text (pieces ts) literals ≡ Some text →
        AreSentAsTheyAre (with_literal_tokens ts lists) }
    ensures portable { (mode : Bool) (query text : List ℕ) (ts : List Token)
        (literals : List (List ℕ)) (lists : List (List Token)) → IsTokens mode query ts →
        AreReadAlike ts → HoldNoOpener ts → AreSentExceptMarks ts → first_not_alone ts ≡ None →
        AreSteadyLiterals literals → AreInLine literals → AreTokensOf mode literals lists →
        joined_text (pieces ts) literals ≡ Some text →
        IsPortableInClient (with_literal_tokens ts lists) }
{}

/// [`steady_texts_are_sent`] for the steady text of a query and the parameters that are given to
/// it. It requires nothing of the literals, because no steady literal of a value has a newline or a
/// byte 0.
pub fn bound_steady_texts_are_sent()
    ensures { (mode : Bool) (query text : List ℕ) (ts : List Token) (given : Given) →
        IsTokens mode query ts → (b : IsSteadyText ts given text) → AreReadAlike ts →
        HoldNoOpener ts → AreSentExceptMarks ts →
        IsPortableInClient (with_literal_tokens ts b.literal_tokens) }
{
    steady_texts_are_sent();
}

/// No name and no mark is left in a steady text (`none`), so bound again with no parameters it
/// stays as it is (`same`). The query with a mark in place of each name, bound to the same values
/// by position, gives the same text (`by_position`). If one query gives the same text for two sets
/// of parameters, their values have the same contents at every place (`equal`).
pub fn bound_steady_texts()
    ensures none { (mode : Bool) (ts us : List Token) (given : Given) (text : List ℕ) →
        IsSteadyText ts given text → IsTokens mode text us → place_count us ≡ 0 }
    ensures same { (mode : Bool) (ts us : List Token) (given : Given) (text : List ℕ) →
        IsSteadyText ts given text → IsTokens mode text us → IsSteadyText us empty text }
    ensures by_position { (mode : Bool) (query text : List ℕ) (ts : List Token) (given : Given) →
        IsTokens mode query ts → (bound : IsSteadyText ts given text) →
        IsSteadyText (with_marks ts) (positional bound.values) text }
    ensures equal { (mode : Bool) (query text : List ℕ) (ts us : List Token) (a b : Given) →
        IsTokens mode query ts → IsTokens mode query us →
        (x : IsSteadyText ts a text) → (y : IsSteadyText us b text) →
        map content_of x.values ≡ map content_of y.values }
{}

/// [`bound_steady_texts`] for a text for both modes.
pub fn bound_texts_in_both_modes()
    ensures none { (mode : Bool) (ts us : List Token) (given : Given) (text : List ℕ) →
        IsTextInBothModes ts given text → IsTokens mode text us → place_count us ≡ 0 }
    ensures same { (mode : Bool) (ts us : List Token) (given : Given) (text : List ℕ) →
        IsTextInBothModes ts given text → IsTokens mode text us →
        IsTextInBothModes us empty text }
    ensures by_position { (mode : Bool) (query text : List ℕ) (ts : List Token) (given : Given) →
        IsTokens mode query ts → (bound : IsTextInBothModes ts given text) →
        IsTextInBothModes (with_marks ts) (positional bound.values) text }
    ensures equal { (mode : Bool) (query text : List ℕ) (ts us : List Token) (a b : Given) →
        IsTokens mode query ts → IsTokens mode query us →
        (x : IsTextInBothModes ts a text) → (y : IsTextInBothModes us b text) →
        map content_of x.values ≡ map content_of y.values }
    // A text for any mode is one for both.
    ensures steady { (ts : List Token) (given : Given) (text : List ℕ) →
        IsSteadyText ts given text → IsTextInBothModes ts given text }
{}

/// A query has exactly one steady text for the same parameters (`steady`), and exactly one text for
/// both modes (`both_modes`).
pub fn one_steady_text()
    ensures steady { (ts : List Token) (given : Given) (a b : List ℕ) →
        IsSteadyText ts given a → IsSteadyText ts given b → a ≡ b }
    ensures both_modes { (ts : List Token) (given : Given) (a b : List ℕ) →
        IsTextInBothModes ts given a → IsTextInBothModes ts given b → a ≡ b }
{}

/// Errors of binding to a steady text are equal if and only if variant and fields are.
pub fn steady_text_error_equality(a: &SteadyTextError, b: &SteadyTextError) -> bool
    ensures same { IsTrue result ↔ AreEqualSteadyTextErrors a.now b.now }
    ensures member { result ≡ ⟦<SteadyTextError as PartialEq>⟧.eq a.now b.now }
{
    a == b
}

/// Errors of binding to a text for both modes are equal if and only if variant and fields are.
pub fn both_modes_error_equality(a: &BothModesError, b: &BothModesError) -> bool
    ensures same { IsTrue result ↔ AreEqualBothModesErrors a.now b.now }
    ensures member { result ≡ ⟦<BothModesError as PartialEq>⟧.eq a.now b.now }
{
    a == b
}

/// Errors of binding pairs to a steady text are equal if and only if variant and fields are.
pub fn steady_pairs_error_equality(a: &SteadyPairsError, b: &SteadyPairsError) -> bool
    ensures same { IsTrue result ↔ AreEqualSteadyPairsErrors a.now b.now }
    ensures member { result ≡ ⟦<SteadyPairsError as PartialEq>⟧.eq a.now b.now }
{
    a == b
}

/// Errors of binding pairs to a text for both modes are equal if and only if variant and fields
/// are.
pub fn both_modes_pairs_error_equality(a: &BothModesPairsError, b: &BothModesPairsError) -> bool
    ensures same { IsTrue result ↔ AreEqualBothModesPairsErrors a.now b.now }
    ensures member { result ≡ ⟦<BothModesPairsError as PartialEq>⟧.eq a.now b.now }
{
    a == b
}
