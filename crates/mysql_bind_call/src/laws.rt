//! Laws of accepted queries and of their texts. They do nothing: each is called for what it
//! ensures.
ghost use Rattle.std.specs.Prelude.{◌≡◌, ℕ, Bool, List, None, true};
ghost use Rattle.mysql_named_params.specs.LoweredNames.{lower_names};
ghost use Rattle.mysql_named_params.specs.Reading.{IsTokensIn, reading_with, wide_reading};
ghost use Rattle.mysql_named_params.specs.Tokens.{Token, IsTokens};
ghost use Rattle.mysql_portable.specs.FirstUnportableInClient.{IsPortableInClient};
ghost use Rattle.mysql_portable.specs.Portable.{IsPortable};
ghost use Rattle.mysql_portable.specs.Steady.{HoldNoEscapes, IsSteady};
ghost use Rattle.mysql_params_core.specs.Given.{Given};
ghost use Rattle.mysql_binding.specs.BoundAgain.{IsSameByPosition};
ghost use Rattle.mysql_binding.specs.Isolation.{IsBoundText};
ghost use Rattle.mysql_steady_text.specs.BothModesText.{IsByPositionInBothModes, IsPortableInBothModes, IsTextInBothModes};
ghost use Rattle.mysql_steady_text.specs.Purposes.{query_refusal};
ghost use Rattle.mysql_steady_text.specs.SteadyAgain.{IsSteadyByPosition};
ghost use Rattle.mysql_steady_text.specs.SteadyText.{IsAnywhereText, IsSteadyText};
ghost use Rattle.mysql_steady_text.specs.WideAnywhere.{IsWideAnywhereText};
ghost use Rattle.mysql_steady_text.specs.WideBothModes.{IsWideTextInBothModes};
ghost use Rattle.mysql_steady_text.specs.declared.purpose.Portability.TheVariants as portability;
ghost use Rattle.mysql_steady_text.specs.declared.purpose.Purpose.{Purpose};
ghost use Rattle.mysql_steady_text.specs.declared.purpose.Scope.TheVariants as scope;
ghost use Rattle.mysql_fragments.specs.GivenFragments.{GivenFragments};
ghost use Rattle.mysql_fragments.specs.SteadyFragments.{IsAnywhereFragments, IsSteadyFragments};
ghost use Rattle.mysql_fragments.specs.WideSteadyFragments.{IsWideAnywhereFragments};

/// A query that is accepted for servers is portable on them (`servers`), and one that is accepted
/// for clients is portable in them too (`clients`), each with its names in lower case. One that is
/// accepted for any connection is steady (`any_connection`), and no string of one for either mode
/// has a backslash (`either_mode`).
pub fn accepted_queries()
    ensures servers { (purpose : Purpose) (query : List ℕ) (ts : List Token) →
        query_refusal purpose query ts ≡ None → purpose.portability ≡ portability.Servers →
        IsPortable (lower_names ts) }
    ensures clients { (purpose : Purpose) (query : List ℕ) (ts : List Token) →
        query_refusal purpose query ts ≡ None → purpose.portability ≡ portability.Clients →
        IsPortableInClient (lower_names ts) }
    ensures any_connection { (purpose : Purpose) (query : List ℕ) (ts : List Token) →
        query_refusal purpose query ts ≡ None → purpose.scope ≡ scope.AnyConnection →
        IsSteady query }
    ensures either_mode { (purpose : Purpose) (query : List ℕ) (ts : List Token) →
        query_refusal purpose query ts ≡ None → purpose.scope ≡ scope.EitherMode →
        HoldNoEscapes ts }
{}

/// The text of a portable query for any connection is one for all servers (`anywhere`,
/// `wide_anywhere`). So is the text for either mode (`in_both_modes`, `wide_in_both_modes`). The
/// laws `anywhere_texts_on_servers` and `texts_in_both_modes_on_servers` of `mysql_steady_text` say
/// how the servers read it.
pub fn texts_of_portable_queries()
    ensures anywhere { (mode : Bool) (query text : List ℕ) (ts : List Token) (given : Given) →
        IsTokens mode query ts → IsSteady query → IsPortable ts → IsSteadyText ts given text →
        IsAnywhereText ts given text }
    ensures wide_anywhere { (mode : Bool) (query text : List ℕ) (ts : List Token)
        (given : Given) → IsTokensIn (wide_reading mode) query ts → IsSteady query →
        IsPortable (lower_names ts) → IsSteadyText ts given text →
        IsWideAnywhereText ts given text }
    ensures in_both_modes { (query text : List ℕ) (ts : List Token) (given : Given) →
        IsTokens true query ts → IsPortable ts → IsTextInBothModes ts given text →
        IsPortableInBothModes ts given text }
    ensures wide_in_both_modes { (query text : List ℕ) (ts : List Token) (given : Given) →
        IsTokensIn (wide_reading true) query ts → IsPortable (lower_names ts) →
        IsTextInBothModes ts given text → IsWideTextInBothModes ts given text }
{}

/// The query with a mark in place of each name, bound by position to the values of the names, isn't
/// refused and gives the same text. So it is by either kind of names: for one mode (`one_mode`),
/// for any connection (`any_connection`) and for either mode (`either_mode`).
pub fn texts_by_position()
    ensures one_mode { (wide mode : Bool) (query text : List ℕ) (ts : List Token)
        (given : Given) → IsTokensIn (reading_with wide mode) query ts →
        IsBoundText mode ts given text → IsSameByPosition mode ts given text }
    ensures any_connection { (wide mode : Bool) (query text : List ℕ) (ts : List Token)
        (given : Given) → IsTokensIn (reading_with wide mode) query ts →
        IsSteadyText ts given text → IsSteadyByPosition mode ts given text }
    ensures either_mode { (wide mode : Bool) (query text : List ℕ) (ts : List Token)
        (given : Given) → IsTokensIn (reading_with wide mode) query ts →
        IsTextInBothModes ts given text → IsByPositionInBothModes mode ts given text }
{}
