//! Laws of texts of fragments. They do nothing: each is called for what it ensures.
ghost use Rattle.std.specs.Prelude.{◌≡◌, ℕ, Bool, List, None, map, ⊤};
ghost use Rattle.mysql_values.specs.Literal.{literal_text};
ghost use Rattle.mysql_named_params.specs.Reading.{IsTokensIn, reading_with};
ghost use Rattle.mysql_named_params.specs.Tokens.{Token};
ghost use Rattle.mysql_named_params.specs.declared.places.Reading as declared;
ghost use Rattle.mysql_portable.specs.SteadyBytes.{IsSteady};
ghost use Rattle.mysql_binding.specs.StandsAlone.{first_not_alone};
ghost use Rattle.mysql_steady_text.specs.SteadyLiteral.{steady_literal_text};
ghost use Rattle.mysql_fragments.specs.Expanded.{IsBoundFragments};
ghost use Rattle.mysql_fragments.specs.FragmentShape.{AreFragments};
ghost use Rattle.mysql_fragments.specs.FragmentText.{filled_text};
ghost use Rattle.mysql_fragments.specs.GivenFragments.{GivenFragments};
ghost use Rattle.mysql_fragments.specs.SteadyFragments.{IsSteadyFragments, first_unsteady_from};
ghost use Rattle.mysql_fragments.specs.TextOfFragments.{IsTextOfFragments};

/// In a text of fragments the text of each fragment has the shape of a fragment without marks, with
/// the plain literals of a mode (`plain`) and with steady ones (`steady`). The places of its query
/// stand alone (`plain_alone`, `steady_alone`). So
/// [`fragments_in_clients`](crate::laws::fragments_in_clients) and the other laws of such shapes
/// hold of it. In a steady text each fragment is steady (`each_steady`).
pub fn texts_of_fragments_have_shapes()
    ensures plain { (mode : Bool) (ts : List Token) (given : GivenFragments) (text : List ℕ) →
        (x : IsTextOfFragments (literal_text mode) (λ own. mode ≡ own) ts given text) →
        AreFragments mode (map (λ fragment. 0) x.fragments)
        (map (filled_text (literal_text mode)) x.fragments) }
    ensures plain_alone { (mode : Bool) (ts : List Token) (given : GivenFragments)
        (text : List ℕ) → IsTextOfFragments (literal_text mode) (λ own. mode ≡ own) ts given text →
        first_not_alone ts ≡ None }
    ensures steady { (mode : Bool) (ts : List Token) (given : GivenFragments) (text : List ℕ) →
        (x : IsTextOfFragments steady_literal_text (λ own. ⊤) ts given text) → AreFragments mode
        (map (λ fragment. 0) x.fragments) (map (filled_text steady_literal_text) x.fragments) }
    ensures steady_alone { (ts : List Token) (given : GivenFragments) (text : List ℕ) →
        IsTextOfFragments steady_literal_text (λ own. ⊤) ts given text →
        first_not_alone ts ≡ None }
    ensures each_steady { (ts : List Token) (given : GivenFragments) (text : List ℕ) →
        (x : IsTextOfFragments steady_literal_text (λ own. ⊤) ts given text) → IsSteady text →
        first_unsteady_from 0 x.fragments ≡ None }
{}

/// A text of fragments is the one that is bound to the expanded query and its values: with the
/// plain literals of a mode (`plain`), and with steady ones if the text is steady (`steady`). Each
/// text that is bound so is a text of fragments (`plain_filled`, `steady_filled`).
pub fn texts_of_fragments_are_bound()
    ensures plain { (reading : declared.Reading) (query text : List ℕ) (ts : List Token)
        (given : GivenFragments) → IsTokensIn reading query ts →
        IsTextOfFragments (literal_text reading.no_backslash_escape)
        (λ mode. reading.no_backslash_escape ≡ mode) ts given text →
        IsBoundFragments reading.no_backslash_escape ts given text }
    ensures plain_filled { (reading : declared.Reading) (query text : List ℕ) (ts : List Token)
        (given : GivenFragments) → IsTokensIn reading query ts →
        IsBoundFragments reading.no_backslash_escape ts given text →
        IsTextOfFragments (literal_text reading.no_backslash_escape)
        (λ mode. reading.no_backslash_escape ≡ mode) ts given text }
    ensures steady { (wide mode : Bool) (query text : List ℕ) (ts : List Token)
        (given : GivenFragments) → IsTokensIn (reading_with wide mode) query ts →
        IsTextOfFragments steady_literal_text (λ own. ⊤) ts given text → IsSteady text →
        IsSteadyFragments ts given text }
    ensures steady_filled { (reading : declared.Reading) (query text : List ℕ) (ts : List Token)
        (given : GivenFragments) → IsTokensIn reading query ts →
        IsSteadyFragments ts given text →
        IsTextOfFragments steady_literal_text (λ own. ⊤) ts given text }
{}
