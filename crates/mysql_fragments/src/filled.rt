//! Queries with fragments in their places. The literals of values are written at once: no text with
//! marks is made and read again, and no value is copied.
ghost use Rattle.std.specs.Prelude.{◌≡◌, true, Some, IfOk, length, map};
ghost use Rattle.mysql_named_params.specs.Reading.{OnTokensIn};
ghost use Rattle.mysql_named_params.specs.Places.{place_count};
ghost use Rattle.mysql_params_core.specs.Referents.{referents};
ghost use Rattle.mysql_binding.specs.LiteralForm.{written_literal};
ghost use Rattle.mysql_binding.specs.Pieces.{pieces, joined_text};
ghost use Rattle.mysql_binding.specs.PushedLiteral.{AreKnownUnlessFloats};
ghost use Rattle.mysql_fragments.specs.FilledText.{ArePlaced, IsFilledQuery};
ghost use Rattle.mysql_fragments.specs.FragmentText.{all_values, filled_text};
ghost use Rattle.mysql_fragments.specs.GivenFragments.{GivenFragments};

use crate::fragment::Fragment;
use crate::value_form::ValueForm;
use crate::written::push_fragment;
use mysql_binding::LiteralForm;
use mysql_named_params::places::{Reading, first_place_in};
use std::alloc::{AllocError, Global};

/// The query with these fragments in its places and the literals of their values in a form.
pub fn filled_query<F: LiteralForm>(
    alloc: Global,
    query: &[u8],
    fragments: &[&Fragment],
    reading: Reading,
    form: &F,
) -> Result<Vec<u8>, AllocError>
    requires { (given : GivenFragments) × OnTokensIn reading query.now (λ ts.
        ArePlaced true ts given (referents fragments.now)) }
    ensures { IfOk result (λ text. (given : GivenFragments) →
        OnTokensIn reading query.now (λ ts.
        ArePlaced true ts given (referents fragments.now)) →
        OnTokensIn reading query.now (λ ts. IsFilledQuery (F.literal form.now)
        (F.IsKnown form.now) reading.no_backslash_escape ts given text.items)) }
{
    let text = spliced_text(alloc, query, fragments, reading, form)?;

    // The text grew in more memory than it needs. A caller may keep the text, so it is copied into
    // memory of its own length.
    let text = Vec::from_slice(alloc, text.as_slice())?;
    Ok(text)
}

/// The query with the texts of fragments in its places, with their values in a form. There are as
/// many fragments as places.
pub(crate) fn spliced_text<F: ValueForm>(
    alloc: Global,
    query: &[u8],
    fragments: &[&Fragment],
    reading: Reading,
    form: &F,
) -> Result<Vec<u8>, AllocError>
    requires { OnTokensIn reading query.now (λ ts.
        length (referents fragments.now) ≡ place_count ts) }
    ensures text { IfOk result (λ text. OnTokensIn reading query.now (λ ts.
        joined_text (pieces ts)
        (map (filled_text (written_literal (F.written form.now))) (referents fragments.now))
        ≡ Some text.items)) }
    ensures known { IfOk result (λ text. AreKnownUnlessFloats (F.written form.now)
        (F.IsKnown form.now) (all_values (referents fragments.now))) }
{
    let mut text = Vec::new(alloc);
    let mut rest = query;
    for fragment in fragments {
        let Some(found) = first_place_in(rest, reading) else {
            unreachable!()
        };
        let (piece, _, after) = found.cut(rest);
        text.extend_from_slice(piece)?;
        push_fragment(&mut text, *fragment, form)?;
        rest = after;
    }
    text.extend_from_slice(rest)?;
    Ok(text)
}
