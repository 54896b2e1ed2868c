//! Laws of texts for any mode and for both modes: what their literals say, and how every server
//! reads them. They do nothing: each is called for what it ensures.
ghost use Rattle.std.specs.Prelude.{ℕ, Bool, List};
ghost use Rattle.mysql_named_params.specs.LoweredNames.{lower_names};
ghost use Rattle.mysql_named_params.specs.Reading.{IsTokensIn, wide_reading};
ghost use Rattle.mysql_named_params.specs.Tokens.{Token, IsTokens, text_of};
ghost use Rattle.mysql_params_core.specs.Given.{Given};
ghost use Rattle.mysql_binding.specs.Replaced.{with_literal_tokens};
ghost use Rattle.mysql_steady_text.specs.BothModesText.{IsPortableInBothModes, IsTextInBothModes};
ghost use Rattle.mysql_steady_text.specs.OnServers.{IsReadAnywhere, IsReadInBothModes};
ghost use Rattle.mysql_steady_text.specs.SteadyContents.{SayTheValues};
ghost use Rattle.mysql_steady_text.specs.SteadyText.{IsAnywhereText, IsSteadyText};
ghost use Rattle.mysql_steady_text.specs.WideAnywhere.{IsWideAnywhereText};
ghost use Rattle.mysql_steady_text.specs.WideBothModes.{IsWideTextInBothModes};

/// Each literal of a text for any mode has the shape of a steady literal, and reads in its place,
/// in either mode, as the content of its value. So the text gives back exactly the contents of the
/// values (`steady`). The same holds of a text for both modes (`both_modes`).
pub fn contents_of_steady_texts()
    ensures steady { (ts : List Token) (given : Given) (text : List ℕ) →
        (b : IsSteadyText ts given text) → SayTheValues ts b.values b.literals text }
    ensures both_modes { (ts : List Token) (given : Given) (text : List ℕ) →
        (b : IsTextInBothModes ts given text) → SayTheValues ts b.values b.literals text }
{}

/// Every honest server, in either mode and over every character set, reads in a text for any server
/// the tokens of the query, with those of one literal in place of each name and mark (`narrow`). By
/// wide names it reads those of the query with its names in lower case, replaced in the same way
/// (`wide`).
pub fn anywhere_texts_on_servers()
    ensures narrow { (mode : Bool) (query text : List ℕ) (ts : List Token) (given : Given) →
        IsTokens mode query ts → (b : IsAnywhereText ts given text) → IsReadAnywhere query ts
        (λ us. with_literal_tokens us b.steady_text.literal_tokens) text }
    ensures wide { (mode : Bool) (query text : List ℕ) (ts : List Token) (given : Given) →
        IsTokensIn (wide_reading mode) query ts → (b : IsWideAnywhereText ts given text) →
        IsReadAnywhere (text_of (lower_names ts)) ts
        (λ us. with_literal_tokens us b.steady_text.literal_tokens) text }
{}

/// The same for a text for both modes. Here a server reads the bytes that are sent.
pub fn texts_in_both_modes_on_servers()
    ensures narrow { (mode : Bool) (query text : List ℕ) (ts : List Token) (given : Given) →
        IsTokens mode query ts → (b : IsPortableInBothModes ts given text) →
        IsReadInBothModes query ts
        (λ us. with_literal_tokens us b.text_in_both_modes.literal_tokens) text }
    ensures wide { (mode : Bool) (query text : List ℕ) (ts : List Token) (given : Given) →
        IsTokensIn (wide_reading mode) query ts → (b : IsWideTextInBothModes ts given text) →
        IsReadInBothModes (text_of (lower_names ts)) ts
        (λ us. with_literal_tokens us b.text_in_both_modes.literal_tokens) text }
{}
