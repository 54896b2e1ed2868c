//! Laws of the written text. They do nothing: each is called for its `ensures` clauses.
ghost use Rattle.std.specs.Prelude.{◌≡◌, ◌<◌, ◌^◌, ℕ, Bool, false, List, All, length};
ghost use Rattle.mysql_named_params.specs.LoweredNames.{have_capitals, lower_names};
ghost use Rattle.mysql_named_params.specs.Places.{names};
ghost use Rattle.mysql_named_params.specs.Reading.{IsTokensIn, OnWideTokens, wide_reading};
ghost use Rattle.mysql_named_params.specs.Tokens.{IsTokens, Token, text_of};
ghost use Rattle.mysql_portable.specs.Quiet.{DecidesWithin, IsHonest};
ghost use Rattle.mysql_portable.specs.Client.{Client, IsReadBy};
ghost use Rattle.mysql_portable.specs.Statements.{statements};
ghost use Rattle.mysql_binding.specs.BoundStatements.{statements_with_literals};
ghost use Rattle.mysql_binding.specs.Replaced.{with_literal_tokens};
ghost use Rattle.mysql_bind_core.specs.Bound.{IsTextPortableIfWanted, IsTaken, IsWritten};
ghost use Rattle.mysql_bind_core.specs.Cells.{AreAssigned};
ghost use Rattle.mysql_bind_core.specs.FoundPairs.{IsValuesText};
ghost use Rattle.mysql_bind_core.specs.Requests.{IsReadIn, mode_of};
ghost use Rattle.mysql_bind_core.specs.Statements.{put_in_places};
ghost use Rattle.mysql_bind_core.specs.declared.assignment.Assignment.{Assignment};
ghost use Rattle.mysql_bind_core.specs.declared.cell.Cell.{Cell};
ghost use Rattle.mysql_bind_core.specs.declared.request.Portability.TheVariants as portability;
ghost use Rattle.mysql_bind_core.specs.declared.request.Request.{Request};

mod groups;
mod scripts;
mod tables;
mod values;

pub use groups::groups_are_unique;
use mysql_binding::laws::bound_texts_are_sent;
use mysql_fragments::laws::fragments_in_clients;
use mysql_steady_text::laws::steady_texts_are_sent;
pub use scripts::{
    groups_make_scripts, records_make_scripts, scripts_in_clients, tables_make_scripts,
    tokens_of_scripts,
};
use std::alloc::Global;
pub use tables::tables_give_values;
pub use values::{fragments_are_bound, one_written_text, texts_for_any_server, values_are_bound};

/// Unless all queries are taken, the written text has as many statements as the query, cut by a
/// client that keeps comments. The assignments don't change that number (`count`).
///
/// Suppose that the client also decides about a quiet comment only by the comment. Then it reads
/// the text as the tokens of the query with its names in lower case, except in the places. In each
/// place it reads exactly the tokens of the fragment that is assigned to the name, with the
/// literals of its values (`tokens`). The statements of the text are those of the query, with the
/// same tokens in their places (`statements`). Example: for `SELECT :a` with 1 it reads the tokens
/// of `1` there, and never reads `SELECT password FROM users`.
///
/// With steady literals this holds in either mode, and with literals of a mode in that mode.
pub fn written_in_clients()
    ensures count { (client : Client) (request : Request) (mode : Bool) (query text : List ℕ)
        (assignments : List Assignment) (vs : List Token) → IsHonest client.reader →
        request.portability ≡ portability.Portable → IsReadIn request.literals mode →
        IsWritten request query assignments text → IsReadBy client mode text vs →
        OnWideTokens mode query (λ ts. length (statements vs) ≡ length (statements ts)) }
    ensures tokens { (client : Client) (request : Request) (mode : Bool) (query text : List ℕ)
        (assignments : List Assignment) (us : List Token) → IsHonest client.reader →
        DecidesWithin client.reader → request.portability ≡ portability.Portable →
        IsReadIn request.literals mode → (w : IsWritten request query assignments text) →
        OnWideTokens mode query (λ ts. IsReadBy client mode (text_of (lower_names ts)) us →
        IsReadBy client mode text
        (with_literal_tokens us (put_in_places request query assignments text w.assigned))) }
    ensures statements { (request : Request) (query text : List ℕ)
        (assignments : List Assignment) (us : List Token) →
        (w : IsWritten request query assignments text) →
        statements (with_literal_tokens us
        (put_in_places request query assignments text w.assigned))
        ≡ statements_with_literals (statements us)
        (put_in_places request query assignments text w.assigned) }
{
    fragments_in_clients();
}

/// If no name has a capital, writing the names in lower case changes nothing (`same`). Such a query
/// has the tokens that it has by the names of the grammar (`grammar`).
pub fn lower_names_stay()
    ensures same { (ts : List Token) → have_capitals (names ts) ≡ false → lower_names ts ≡ ts }
    ensures grammar { (mode : Bool) (query : List ℕ) (ts : List Token) →
        IsTokensIn (wide_reading mode) query ts → have_capitals (names ts) ≡ false →
        IsTokens mode query ts }
{}

/// For all names and cells there are assignments that say the same as the cells under the names.
/// The bytes of each have to fit into memory, which those of slices do. So a promise about a row
/// for all such assignments is a promise for at least one.
pub fn cells_are_assigned(alloc: Global)
    ensures { (columns : List (List ℕ)) (cells : List Cell) →
        All (λ name. length name < 2 ^ 63) columns →
        All (λ cell. length cell.bytes.now < 2 ^ 63) cells →
        (assignments : List Assignment) × AreAssigned columns cells assignments }
{
    let _alloc = alloc;
}

// Steady literals and literals with backslash escapes have no newline and no byte 0. So a client
// sends a text with such literals as it is.
pub(crate) fn values_are_sent()
    ensures { (request : Request) (query text : List ℕ) → mode_of request.literals ≡ false →
        IsTaken request query → IsValuesText request query text →
        IsTextPortableIfWanted request text }
{
    bound_texts_are_sent();
    steady_texts_are_sent();
}
