//! Laws of guarded literals and texts. They do nothing: each is called for what it ensures.
ghost use Rattle.std.specs.Prelude.{◌≡◌, ℕ, Bool, List, None, Some, IfSome, is_none};
ghost use Rattle.mysql_sql_text.specs.ReadLiteral.{Content};
ghost use Rattle.mysql_named_params.specs.Tokens.{Token, IsTokens};
ghost use Rattle.mysql_named_params.specs.Places.{place_count, with_marks};
ghost use Rattle.mysql_portable.specs.CharacterSet.{CharacterSet, seen};
ghost use Rattle.mysql_portable.specs.Portable.{AreReadAlike, IsReadAs};
ghost use Rattle.mysql_portable.specs.Server.{Server, IsReadOn};
ghost use Rattle.mysql_portable.specs.Quiet.{IsHonest, DecidesWithin};
ghost use Rattle.mysql_portable.specs.Steady.{IsSteady};
ghost use Rattle.mysql_binding.specs.Isolation.{IsBoundText};
ghost use Rattle.mysql_binding.specs.Pieces.{pieces, joined_text};
ghost use Rattle.mysql_binding.specs.Replaced.{AreTokensOf, with_literal_tokens};
ghost use Rattle.mysql_binding.specs.StandsAlone.{first_not_alone};
ghost use Rattle.mysql_steady_text.specs.ReadSteadyLiteral.{read_steady_literal};
ghost use Rattle.mysql_params_core.specs.Given.{Given, empty, positional};
ghost use Rattle.mysql_steady_text.specs.ClientSet.{IsClientSet, single_bytes};
ghost use Rattle.mysql_steady_text.specs.GuardedText.{IsGuardedText};
ghost use Rattle.mysql_steady_text.specs.KnownSets.{big5, euckr, gb18030, gb2312, gbk, set_of, sjis, ujis, utf8mb4};
ghost use Rattle.mysql_steady_text.specs.SeenText.{IsSeenInPlaces};
ghost use Rattle.mysql_values.specs.BorrowedValue.{owned};
ghost use Rattle.mysql_values.specs.Literal.{is_float};
ghost use Rattle.mysql_steady_text.specs.GuardedLiteral.{guarded_literal_of};
ghost use Rattle.mysql_steady_text.specs.GuardedShape.{AreGuardedLiterals, AreKeptApart, IsGuardedLiteral, KeepsApart};
ghost use Rattle.mysql_steady_text.specs.ReadGuarded.{IsReadIn, ReadsGuardedAs, read_in};

use mysql_values::laws::{borrowed_fields_in_range, fields_in_range};
use mysql_values::value::{Value, ValueRef};

/// The guarded literal of a value has the shape of guarded literals, and over every client set it
/// reads in its mode as the content of the value, and in the other mode up to doubled backslashes.
/// Floats have none, and only floats.
pub fn guarded_literals(value: &Value, no_backslash_escape: bool)
    ensures shape { IfSome (guarded_literal_of no_backslash_escape value.now) IsGuardedLiteral }
    ensures apart { IfSome (guarded_literal_of no_backslash_escape value.now) KeepsApart }
    ensures reads_back { IfSome (guarded_literal_of no_backslash_escape value.now)
        (ReadsGuardedAs no_backslash_escape value.now) }
    ensures float { is_none (guarded_literal_of no_backslash_escape value.now)
        ≡ is_float value.now }
{
    fields_in_range(value);
}

/// The same for a borrowed value.
pub fn borrowed_guarded_literals(value: ValueRef<'_>, no_backslash_escape: bool)
    ensures shape { IfSome (guarded_literal_of no_backslash_escape (owned value.entry))
        IsGuardedLiteral }
    ensures apart { IfSome (guarded_literal_of no_backslash_escape (owned value.entry))
        KeepsApart }
    ensures reads_back { IfSome (guarded_literal_of no_backslash_escape (owned value.entry))
        (ReadsGuardedAs no_backslash_escape (owned value.entry)) }
    ensures float { is_none (guarded_literal_of no_backslash_escape (owned value.entry))
        ≡ is_float (owned value.entry) }
{
    borrowed_fields_in_range(value);
}

/// For a query whose places stand alone, and any texts of the shape of guarded literals in these
/// places: in either mode the tokens are the query's, with those of each text in place of its name
/// or mark (`tokens`). No place is left among them (`no_place`).
pub fn guarded_isolation()
    ensures tokens { (mode : Bool) (query text : List ℕ) (ts : List Token)
        (literals : List (List ℕ)) (lists : List (List Token)) → IsTokens mode query ts →
        first_not_alone ts ≡ None → AreGuardedLiterals literals → AreTokensOf mode literals lists →
        joined_text (pieces ts) literals ≡ Some text →
        IsTokens mode text (with_literal_tokens ts lists) }
    ensures no_place { (mode : Bool) (text : List ℕ) (ts : List Token)
        (literals : List (List ℕ)) (lists : List (List Token)) → first_not_alone ts ≡ None →
        AreGuardedLiterals literals → AreTokensOf mode literals lists →
        joined_text (pieces ts) literals ≡ Some text →
        place_count (with_literal_tokens ts lists) ≡ 0 }
    // The tokens of guarded literals are the same in both modes.
    ensures modes { (mode other : Bool) (literals : List (List ℕ)) (lists : List (List Token)) →
        AreGuardedLiterals literals → AreTokensOf mode literals lists →
        AreTokensOf other literals lists }
{}

/// A text and the rest that is left of it determine the content that is read between them, over
/// every set and in both modes.
pub fn one_content()
    ensures { (set : CharacterSet) (mode : Bool) (text rest : List ℕ) (content other : Content) →
        IsReadIn set mode text content rest → IsReadIn set mode text other rest →
        content ≡ other }
{}

/// If the query is steady, then over every client set a server sees the pieces of the query, and in
/// the place of each literal a text as long, which again has the shape of a guarded literal.
pub fn guarded_texts_over_sets()
    ensures { (set : CharacterSet) (mode : Bool) (query text : List ℕ) (ts : List Token)
        (literals : List (List ℕ)) → IsClientSet set → IsTokens mode query ts → IsSteady query →
        AreGuardedLiterals literals → AreKeptApart literals →
        joined_text (pieces ts) literals ≡ Some text →
        IsSeenInPlaces set ts literals text }
{}

/// If each token of the query passes its test, like those of a portable query, then so does each
/// token of the text (`portable`). Every honest server, in either mode, reads the tokens that the
/// grammar reads, except for `--` before a newline and the contents of quiet comments (`read`). If
/// the server decides about a quiet comment by its own text, it reads exactly the tokens that it
/// reads in the query, with those of each literal in place of its name or mark (`tokens`).
pub fn guarded_texts_on_servers()
    ensures portable { (mode : Bool) (query text : List ℕ) (ts : List Token)
        (literals : List (List ℕ)) (lists : List (List Token)) → IsTokens mode query ts →
        AreReadAlike ts → first_not_alone ts ≡ None → AreGuardedLiterals literals →
        AreTokensOf mode literals lists → joined_text (pieces ts) literals ≡ Some text →
        AreReadAlike (with_literal_tokens ts lists) }
    ensures read { (server : Server) (mode : Bool) (query text : List ℕ) (ts vs : List Token)
        (literals : List (List ℕ)) (lists : List (List Token)) → IsHonest server →
        IsTokens mode query ts → AreReadAlike ts → first_not_alone ts ≡ None →
        AreGuardedLiterals literals → AreTokensOf mode literals lists →
        joined_text (pieces ts) literals ≡ Some text → IsReadOn server mode text vs →
        IsReadAs (with_literal_tokens ts lists) vs }
    ensures tokens { (server : Server) (mode : Bool) (query text : List ℕ) (ts us : List Token)
        (literals : List (List ℕ)) (lists : List (List Token)) → IsHonest server →
        DecidesWithin server → IsTokens mode query ts → AreReadAlike ts →
        first_not_alone ts ≡ None → AreGuardedLiterals literals →
        AreTokensOf mode literals lists → joined_text (pieces ts) literals ≡ Some text →
        IsReadOn server mode query us → IsReadOn server mode text (with_literal_tokens us lists) }
{}

/// The sets of MySQL and MariaDB with longer characters are client sets, and so is every set of
/// single bytes. Over this one literals are read as the grammar reads them.
pub fn client_sets()
    ensures gbk { IsClientSet (set_of gbk) }
    ensures big5 { IsClientSet (set_of big5) }
    ensures sjis { IsClientSet (set_of sjis) }
    ensures euckr { IsClientSet (set_of euckr) }
    ensures gb2312 { IsClientSet (set_of gb2312) }
    ensures gb18030 { IsClientSet (set_of gb18030) }
    ensures ujis { IsClientSet (set_of ujis) }
    ensures utf8mb4 { IsClientSet (set_of utf8mb4) }
    ensures single { IsClientSet single_bytes }
    ensures reads { (mode : Bool) (text : List ℕ) →
        read_in single_bytes mode text ≡ read_steady_literal mode text }
{}

/// For the guarded text of a query each of whose tokens passes its test, like those of a portable
/// query: over every client set, every honest server, in either mode, reads the tokens that the
/// grammar reads, except for `--` before a newline and the contents of quiet comments (`read`). If
/// the server decides about a quiet comment by its own text, it reads exactly the tokens that it
/// reads in the query, with those of each literal, as it is seen, in place of its name or mark
/// (`tokens`).
pub fn bound_guarded_texts_on_servers()
    ensures read { (server : Server) (set : CharacterSet) (mode written : Bool)
        (query text : List ℕ) (ts vs : List Token) (given : Given) → IsHonest server →
        (client : IsClientSet set) → IsTokens mode query ts → AreReadAlike ts →
        (b : IsGuardedText written ts given text) → IsReadOn server mode (seen set text) vs →
        IsReadAs (with_literal_tokens ts (b.isolated_over set client).shown_tokens) vs }
    ensures tokens { (server : Server) (set : CharacterSet) (mode written : Bool)
        (query text : List ℕ) (ts us : List Token) (given : Given) → IsHonest server →
        DecidesWithin server → (client : IsClientSet set) → IsTokens mode query ts →
        AreReadAlike ts → (b : IsGuardedText written ts given text) →
        IsReadOn server mode query us → IsReadOn server mode (seen set text)
        (with_literal_tokens us (b.isolated_over set client).shown_tokens) }
{}

/// No name and no mark is left in a guarded text (`none`). So bound again with no parameters by
/// `bind_text`, in either mode, it stays as it is (`same`). The query with a mark in place of each
/// name, bound to the same values by position, gives the same text (`by_position`).
pub fn bound_guarded_texts()
    ensures none { (mode written : Bool) (ts us : List Token) (given : Given) (text : List ℕ) →
        IsGuardedText written ts given text → IsTokens mode text us → place_count us ≡ 0 }
    ensures same { (mode written : Bool) (ts us : List Token) (given : Given) (text : List ℕ) →
        IsGuardedText written ts given text → IsTokens mode text us →
        IsBoundText mode us empty text }
    ensures by_position { (mode written : Bool) (query text : List ℕ) (ts : List Token)
        (given : Given) → IsTokens mode query ts → (bound : IsGuardedText written ts given text) →
        IsGuardedText written (with_marks ts) (positional bound.values) text }
{}

/// A query has exactly one text with guarded literals of a mode for the same parameters.
pub fn one_guarded_text()
    ensures { (mode : Bool) (ts : List Token) (given : Given) (a b : List ℕ) →
        IsGuardedText mode ts given a → IsGuardedText mode ts given b → a ≡ b }
{}
