//! Laws of the definitions. They do nothing: each is called for what it ensures.
ghost use Rattle.std.specs.Prelude.{◌≡◌, ℕ, Bool, List, length, map};
ghost use Rattle.mysql_sql_text.specs.InLine.{AreInLine};
ghost use Rattle.mysql_named_params.specs.LoweredNames.{lower_names};
ghost use Rattle.mysql_named_params.specs.Reading.{IsTokensIn, wide_reading};
ghost use Rattle.mysql_named_params.specs.Tokens.{Token, IsTokens, text_of};
ghost use Rattle.mysql_portable.specs.Portable.{AreReadAlike, IsReadAs};
ghost use Rattle.mysql_portable.specs.Quiet.{IsHonest, DecidesWithin};
ghost use Rattle.mysql_portable.specs.Client.{Client, IsReadBy, HoldNoOpener};
ghost use Rattle.mysql_portable.specs.FirstUnportableInClient.{IsPortableInClient};
ghost use Rattle.mysql_portable.specs.Statements.{statements};
ghost use Rattle.mysql_portable.specs.Steady.{IsSteady};
ghost use Rattle.mysql_binding.specs.BoundStatements.{statements_with_literals};
ghost use Rattle.mysql_binding.specs.Replaced.{with_literal_tokens};
ghost use Rattle.mysql_steady_text.specs.OnServers.{IsReadAnywhere};
ghost use Rattle.mysql_fragments.specs.FragmentText.{fragment_text};
ghost use Rattle.mysql_fragments.specs.GivenFragments.{GivenFragments};
ghost use Rattle.mysql_fragments.specs.SentFragments.{BeginNoWords};
ghost use Rattle.mysql_fragments.specs.SteadyFragments.{IsAnywhereFragments, IsSteadyFragments};
ghost use Rattle.mysql_fragments.specs.WideSteadyFragments.{IsWideAnywhereFragments};

use crate::laws::{fragments_are_sent, fragments_in_clients, fragments_on_servers};
use mysql_steady_text::laws::{bound_steady_texts_are_sent, bound_steady_texts_in_clients};

/// Every honest server, in either mode and over every character set, reads in a text for any server
/// the tokens of the query, replaced (`narrow`). Each name and mark is replaced by the tokens of
/// one fragment, and then each mark of a fragment by the tokens of one literal. By wide names it
/// reads those of the query with its names in lower case, replaced in the same way (`wide`).
pub fn anywhere_fragments_on_servers()
    ensures narrow { (mode : Bool) (query text : List ℕ) (ts : List Token)
        (given : GivenFragments) → IsTokens mode query ts →
        (b : IsAnywhereFragments ts given text) → IsReadAnywhere query ts (λ us.
        with_literal_tokens (with_literal_tokens us b.steady_text.expanded.lists)
        b.steady_text.bound.literal_tokens) text }
    ensures wide { (mode : Bool) (query text : List ℕ) (ts : List Token)
        (given : GivenFragments) → IsTokensIn (wide_reading mode) query ts →
        (b : IsWideAnywhereFragments ts given text) →
        IsReadAnywhere (text_of (lower_names ts)) ts (λ us.
        with_literal_tokens (with_literal_tokens us b.steady_text.expanded.lists)
        b.steady_text.bound.literal_tokens) text }
{}

/// If no block comment of a steady portable query holds `/*!`, `/*+` or `/*/`, a client that keeps
/// comments cuts each steady text that is bound to it with fragments into as many statements as the
/// query, in either mode (`count`). This holds for all fragments and values. The text has none of
/// the three in a block comment either (`no_opener`). The client reads it as the grammar does,
/// except for `--` before a newline and the contents of quiet comments (`read`).
///
/// If the client decides about a quiet comment by the comment only, it reads the tokens that it
/// reads in the query, replaced (`tokens`). The statements are then those of the query, replaced
/// (`statements`).
pub fn steady_fragments_in_clients()
    ensures no_opener { (text : List ℕ) (ts : List Token) (given : GivenFragments) →
        (b : IsSteadyFragments ts given text) → HoldNoOpener ts →
        HoldNoOpener (with_literal_tokens (with_literal_tokens ts b.expanded.lists)
        b.bound.literal_tokens) }
    ensures read { (client : Client) (mode : Bool) (query text : List ℕ) (ts vs : List Token)
        (given : GivenFragments) → IsHonest client.reader → IsTokens mode query ts →
        IsSteady query → (b : IsSteadyFragments ts given text) → AreReadAlike ts →
        HoldNoOpener ts → IsReadBy client mode text vs →
        IsReadAs (with_literal_tokens (with_literal_tokens ts b.expanded.lists)
        b.bound.literal_tokens) vs }
    ensures count { (client : Client) (mode : Bool) (query text : List ℕ) (ts vs : List Token)
        (given : GivenFragments) → IsHonest client.reader → IsTokens mode query ts →
        IsSteady query → IsSteadyFragments ts given text → AreReadAlike ts → HoldNoOpener ts →
        IsReadBy client mode text vs → length (statements vs) ≡ length (statements ts) }
    ensures tokens { (client : Client) (mode : Bool) (query text : List ℕ) (ts us : List Token)
        (given : GivenFragments) → IsHonest client.reader → DecidesWithin client.reader →
        IsTokens mode query ts → IsSteady query → (b : IsSteadyFragments ts given text) →
        AreReadAlike ts → HoldNoOpener ts → IsReadBy client mode query us →
        IsReadBy client mode text
        (with_literal_tokens (with_literal_tokens us b.expanded.lists) b.bound.literal_tokens) }
    ensures statements { (text : List ℕ) (ts us : List Token) (given : GivenFragments) →
        (b : IsSteadyFragments ts given text) → statements
        (with_literal_tokens (with_literal_tokens us b.expanded.lists) b.bound.literal_tokens)
        ≡ statements_with_literals (statements_with_literals (statements us) b.expanded.lists)
        b.bound.literal_tokens }
{
    fragments_on_servers();
    fragments_in_clients();
    bound_steady_texts_in_clients();
}

/// If a steady query is portable in a client, and no fragment has a newline or a byte 0 or begins
/// with a letter, as keywords do, then the steady text that is bound to it is portable in the
/// client too, in either mode.
pub fn steady_fragments_are_sent()
    ensures { (mode : Bool) (query text : List ℕ) (ts : List Token) (given : GivenFragments) →
        IsTokens mode query ts → IsSteady query → IsPortableInClient ts →
        (b : IsSteadyFragments ts given text) →
        AreInLine (map fragment_text b.expanded.fragments) →
        BeginNoWords (map fragment_text b.expanded.fragments) →
        IsPortableInClient (with_literal_tokens (with_literal_tokens ts b.expanded.lists)
        b.bound.literal_tokens) }
{
    fragments_on_servers();
    fragments_in_clients();
    fragments_are_sent();
    bound_steady_texts_are_sent();
}
