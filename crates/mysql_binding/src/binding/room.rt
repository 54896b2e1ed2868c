//! Texts that are written into a slice of the caller.
ghost use Rattle.std.specs.Prelude.{◌≡◌, IfErr, IfOk, IsErrOf, OnErr};
ghost use Rattle.mysql_named_params.specs.Places.{HasName, HasMark};
ghost use Rattle.mysql_params_core.specs.Given.{Given};
ghost use Rattle.mysql_params_core.specs.GivenBorrowed.{given_by_borrowed};
ghost use Rattle.mysql_binding.specs.BindErrors.{IsCauseOrMemory};
ghost use Rattle.mysql_binding.specs.FirstCause.{first_cause};
ghost use Rattle.mysql_binding.specs.MeasuredText.{HasGivenLength, IsMeasured};
ghost use Rattle.mysql_binding.specs.SurveyedQuery.{OnSurveyed};
ghost use Rattle.mysql_binding.specs.TextInRoom.{IsTextInRoom};
ghost use Rattle.mysql_binding.specs.WrittenText.{IsGivenText};

use crate::bind_error::BindError;
use crate::binding::form::LiteralForm;
use crate::binding::literals::MeasuredText;
use crate::binding::measured_text;
use crate::binding::survey::SurveyedQuery;
use crate::binding::text::fill_measured;
use mysql_params_core::params::BorrowedParams;
use std::alloc::Global;

/// The outcome for a text that is written into a slice.
#[derive(Clone, Copy, Debug, PartialEq, Eq)]
pub enum TextInRoom {
    /// The text is in the first `len` bytes of the slice. The rest of the slice is unchanged.
    Written {
        /// The length of the text.
        len: usize,
    },
    /// The slice is shorter than the text. No text was written, and the slice is unchanged.
    TooShort {
        /// The length of the text.
        len: usize,
    },
}

/// [`bind_surveyed_as`](crate::bind_surveyed_as) into `room`: writes the text to its front, without
/// allocating a vector for it. If `room` is too short, the length of the text is returned. All
/// causes of [`bind_surveyed_as`](crate::bind_surveyed_as) are refused first. After a refusal
/// `room` is unchanged. For the crates above.
pub fn bind_surveyed_into<F: LiteralForm>(
    alloc: Global,
    surveyed: &SurveyedQuery<'_>,
    params: BorrowedParams<'_, '_>,
    form: &F,
    room: &mut [u8],
) -> Result<TextInRoom, BindError>
    ensures text { OnSurveyed surveyed.now (λ ts. IfOk result (IsTextInRoom
        (IsGivenText (F.literal form.now) (F.IsKnown form.now) ts (given_by_borrowed params.entry))
        (HasGivenLength (F.literal form.now) ts (given_by_borrowed params.entry))
        room.old room.new)) }
    ensures refused { OnSurveyed surveyed.now (λ ts. IfErr result
        (IsCauseOrMemory (first_cause ts (given_by_borrowed params.entry)))) }
    ensures mixed { OnSurveyed surveyed.now (λ ts.
        HasName ts × HasMark ts → IsErrOf result BindError.Mixed) }
    ensures unchanged { OnErr result (room.new ≡ room.old) }
{
    let measured = measured_text(alloc, surveyed, params, form)?;
    Ok(fill_front(surveyed, &measured, form, room))
}

// Writes the text of a measured query to the front of `room`, if `room` is long enough.
fn fill_front<F: LiteralForm>(
    surveyed: &SurveyedQuery<'_>,
    measured: &MeasuredText<'_>,
    form: &F,
    room: &mut [u8],
) -> TextInRoom
    requires measured { (given : Given) × OnSurveyed surveyed.now (λ ts.
        IsMeasured (F.literal form.now) ts given measured.now) }
    ensures { (given : Given) →
        OnSurveyed surveyed.now (λ ts. IsMeasured (F.literal form.now) ts given measured.now) →
        OnSurveyed surveyed.now (λ ts. IsTextInRoom
        (IsGivenText (F.literal form.now) (F.IsKnown form.now) ts given)
        (HasGivenLength (F.literal form.now) ts given) room.old room.new result) }
{
    let len = measured.len;
    if room.len() < len {
        return TextInRoom::TooShort { len };
    }
    fill_measured(surveyed, measured, form, &mut room[..len]);
    TextInRoom::Written { len }
}
