//! Laws of texts that are written for assignments. They do nothing: each is called for its
//! `ensures` clauses.
ghost use Rattle.std.specs.Prelude.{◌≡◌, ℕ, Bool, false, List, Ok, Some};
ghost use Rattle.mysql_values.specs.declared.value.Value.{Value};
ghost use Rattle.mysql_named_params.specs.NamesAndMarks.{names};
ghost use Rattle.mysql_named_params.specs.Reading.{OnWideTokens};
ghost use Rattle.mysql_params_core.specs.GivenValues.{Given};
ghost use Rattle.mysql_binding.specs.Isolation.{IsBoundText};
ghost use Rattle.mysql_steady_text.specs.SteadyText.{IsSteadyText};
ghost use Rattle.mysql_steady_text.specs.WideAnywhere.{IsWideAnywhereText};
ghost use Rattle.mysql_fragments.specs.Expanded.{IsBoundFragments};
ghost use Rattle.mysql_fragments.specs.GivenFragments.{named};
ghost use Rattle.mysql_fragments.specs.SteadyFragments.{IsSteadyFragments};
ghost use Rattle.mysql_fragments.specs.WideSteadyFragments.{IsWideAnywhereFragments};
ghost use Rattle.mysql_bind_core.specs.Assignments.{given_of, pairs_of};
ghost use Rattle.mysql_bind_core.specs.Bound.{IsWritten};
ghost use Rattle.mysql_bind_core.specs.Contents.{has_fragment};
ghost use Rattle.mysql_bind_core.specs.Entries.{given_to};
ghost use Rattle.mysql_bind_core.specs.RowItems.{RowsSaid};
ghost use Rattle.mysql_bind_core.specs.RowsBound.{IsRowsWritten};
ghost use Rattle.mysql_bind_core.specs.TakenQuery.{RequestedQuery};
ghost use Rattle.mysql_bind_core.specs.declared.assignment.Assignment.{Assignment};
ghost use Rattle.mysql_bind_core.specs.declared.request.Literals.TheVariants as literals;
ghost use Rattle.mysql_bind_core.specs.declared.request.Portability.TheVariants as portability;
ghost use Rattle.mysql_bind_core.specs.declared.request.Request.{Request};

/// If all assignments are values, the written text is the one that is bound to the query and these
/// values. With the literals of a mode it is that of `bind_text_in` by wide names (`plain`). With
/// steady literals it is that of `bind_text_in_any_mode` by wide names (`steady`). So the laws of
/// those calls hold of it: each value is in one literal, and nothing else of the query changes.
pub fn values_are_bound()
    ensures plain { (mode : Bool) (request : Request) (query text : List ℕ)
        (assignments : List Assignment) → request.literals ≡ literals.Plain mode →
        has_fragment assignments ≡ false → IsWritten request query assignments text →
        (pairs : List (List ℕ × Value)) × (given : Given) × (pairs_of assignments ≡ Some pairs)
        × (given_of pairs ≡ Ok given)
        × OnWideTokens mode query (λ ts. IsBoundText mode ts given text) }
    ensures steady { (request : Request) (query text : List ℕ)
        (assignments : List Assignment) → request.literals ≡ literals.Steady →
        has_fragment assignments ≡ false → IsWritten request query assignments text →
        (pairs : List (List ℕ × Value)) × (given : Given) × (pairs_of assignments ≡ Some pairs)
        × (given_of pairs ≡ Ok given)
        × OnWideTokens false query (λ ts. IsSteadyText ts given text) }
{}

/// For the same assignments a request writes one text: two such texts are the same.
pub fn one_written_text()
    ensures { (request : Request) (query a b : List ℕ) (assignments : List Assignment) →
        IsWritten request query assignments a → IsWritten request query assignments b → a ≡ b }
{}

/// For all assignments the written text is the one that is bound to the query and their fragments.
/// With the literals of a mode it is that of `bind_fragments_in` by wide names (`plain`). With
/// steady literals it is that of `bind_fragments_in_any_mode` by wide names (`steady`). So is the
/// statement of rows in one place (`plain_rows`, `steady_rows`). So the laws of those calls hold of
/// it. Each fragment is in its place, and each value in one literal. Nothing else of the query
/// changes.
pub fn fragments_are_bound()
    ensures plain { (mode : Bool) (request : Request) (query text : List ℕ)
        (assignments : List Assignment) → request.literals ≡ literals.Plain mode →
        (w : IsWritten request query assignments text) → OnWideTokens mode query (λ ts.
        IsBoundFragments mode ts (given_to assignments w.assigned.entries (names ts)) text) }
    ensures steady { (request : Request) (query text : List ℕ)
        (assignments : List Assignment) → request.literals ≡ literals.Steady →
        (w : IsWritten request query assignments text) → OnWideTokens false query (λ ts.
        IsSteadyFragments ts (given_to assignments w.assigned.entries (names ts)) text) }
    ensures plain_rows { (mode : Bool) (query : RequestedQuery) (fixed : List Assignment)
        (rows : RowsSaid) (text : List ℕ) → query.request.literals ≡ literals.Plain mode →
        (w : IsRowsWritten query fixed rows text) → OnWideTokens mode query.query (λ ts.
        IsBoundFragments mode ts (named w.text_is.entries) text) }
    ensures steady_rows { (query : RequestedQuery) (fixed : List Assignment)
        (rows : RowsSaid) (text : List ℕ) → query.request.literals ≡ literals.Steady →
        (w : IsRowsWritten query fixed rows text) → OnWideTokens false query.query (λ ts.
        IsSteadyFragments ts (named w.text_is.entries) text) }
{}

/// With steady literals, and unless all queries are taken, the written text is one for any server.
/// If all assignments are values, it is that text of these values (`values`). For all assignments
/// it is that of `bind_fragments_anywhere` by wide names, and so is the statement of rows in one
/// place (`fragments`, `rows`). The laws `anywhere_texts_on_servers` of `mysql_steady_text` and
/// `anywhere_fragments_on_servers` of `mysql_fragments` say how every server reads it.
pub fn texts_for_any_server()
    ensures values { (request : Request) (query text : List ℕ)
        (assignments : List Assignment) → request.literals ≡ literals.Steady →
        request.portability ≡ portability.Portable → has_fragment assignments ≡ false →
        IsWritten request query assignments text → (pairs : List (List ℕ × Value))
        × (given : Given) × (pairs_of assignments ≡ Some pairs) × (given_of pairs ≡ Ok given)
        × OnWideTokens false query (λ ts. IsWideAnywhereText ts given text) }
    ensures fragments { (request : Request) (query text : List ℕ)
        (assignments : List Assignment) → request.literals ≡ literals.Steady →
        request.portability ≡ portability.Portable →
        (w : IsWritten request query assignments text) → OnWideTokens false query (λ ts.
        IsWideAnywhereFragments ts (given_to assignments w.assigned.entries (names ts)) text) }
    ensures rows { (query : RequestedQuery) (fixed : List Assignment) (rows : RowsSaid)
        (text : List ℕ) → query.request.literals ≡ literals.Steady →
        query.request.portability ≡ portability.Portable →
        (w : IsRowsWritten query fixed rows text) → OnWideTokens false query.query (λ ts.
        IsWideAnywhereFragments ts (named w.text_is.entries) text) }
{
    values_are_bound();
    fragments_are_bound();
}
