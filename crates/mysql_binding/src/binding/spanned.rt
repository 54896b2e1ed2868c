//! Queries whose places are given by plain numbers that fit together.
ghost use Rattle.std.specs.Prelude.{◌≡◌, ◌↔◌, ◌+◌, None, length, take, IfSome, IsSome};
ghost use Rattle.mysql_named_params.specs.declared.places.Reading.{Reading};
ghost use Rattle.mysql_binding.specs.PlaceSpans.{AreSpansOf, FitIn, FitIn-prop, FitSurvey, outside_len};

use crate::binding::spans::PlaceSpan;
use crate::binding::survey::Survey;

/// A query with a survey and spans that its caller claims are those of its places. A query of this
/// length can have them. For the crate above; no user needs it.
#[derive(Clone, Copy, Debug)]
pub struct SpannedQuery<'q> {
    /// The query.
    pub query: &'q [u8],
    /// How many places it has, and the first that doesn't stand alone.
    pub survey: Survey,
    /// The spans of its places.
    pub spans: &'q [PlaceSpan],
    pub ghost fit: { FitIn spans.now query.now } by { FitIn-prop spans.now query.now },
    pub ghost outside: { survey.piece_bytes ≡ outside_len spans.now query.now },
    pub ghost count: { survey.names + survey.marks ≡ length spans.now },
}

impl<'q> SpannedQuery<'q> {
    /// Makes one value of the query, the survey and the spans, if a query of this length can have
    /// them. Each place must have at least one byte, and the places must follow one another within
    /// the query. The survey must have the number of places and the number of bytes outside of
    /// them. No byte of the query is read.
    pub fn try_new(
        query: &'q [u8],
        survey: Survey,
        spans: &'q [PlaceSpan],
    ) -> Option<SpannedQuery<'q>>
        ensures fit { IsSome result ↔ FitSurvey survey spans.now query.now }
        ensures own { (reading : Reading) →
            AreSpansOf survey spans.now reading query.now → IsSome result }
        ensures query { IfSome result (λ spanned. spanned.query.now ≡ query.now) }
        ensures survey { IfSome result (λ spanned. spanned.survey ≡ survey) }
        ensures spans { IfSome result (λ spanned. spanned.spans.now ≡ spans.now) }
    {
        let len = outside_len(query, spans)?;
        if len != survey.piece_bytes
            || survey.names > spans.len()
            || survey.marks != spans.len() - survey.names
        {
            return None;
        }
        Some(SpannedQuery {
            query,
            survey,
            spans,
        })
    }

    /// The spans of the names: the first ones, as many as the survey has names. No mark may be
    /// among the places.
    pub(crate) fn name_spans(&self) -> &'q [PlaceSpan]
        ensures spans { result.now ≡ take self.now.survey.names self.now.spans.now }
        ensures fit { FitIn result.now self.now.query.now }
    {
        &self.spans[..self.survey.names]
    }
}

// The number of bytes outside of the spans, if each span has at least one byte and the spans follow
// one another within the text.
fn outside_len(text: &[u8], spans: &[PlaceSpan]) -> Option<usize>
    ensures fit { IfSome result (λ len.
        FitIn spans.now text.now × (len ≡ outside_len spans.now text.now)) }
    ensures none { result ≡ None → FitIn spans.now text.now → ⊥ }
{
    let mut len = 0;
    let mut rest = text;
    for span in spans {
        if span.len == 0 || span.before > rest.len() || span.len > rest.len() - span.before {
            return None;
        }
        len += span.before;
        rest = &rest[span.before + span.len..];
    }
    Some(len + rest.len())
}
