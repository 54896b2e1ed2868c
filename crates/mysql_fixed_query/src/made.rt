//! Binding to parameters with out of memory as the only error.
ghost use Rattle.std.specs.Prelude.{◌≡◌, ◌≢◌, Bool, None, Ok, IfErr, IfOk, alloc_error, ⊤};
ghost use Rattle.mysql_values.specs.Answer.{IsAnswer};
ghost use Rattle.mysql_values.specs.declared.value.convert.ToValueError.TheVariants as to_value;
ghost use Rattle.mysql_named_params.specs.Reading.{OnTokensIn};
ghost use Rattle.mysql_params_core.specs.Errors.{to_params_refusal};
ghost use Rattle.mysql_params_core.specs.Given.{Given, given};
ghost use Rattle.mysql_binding.specs.FirstCause.{first_cause};
ghost use Rattle.mysql_binding.specs.WrittenText.{IsGivenText};
ghost use Rattle.mysql_steady_text.specs.Purposes.{reading_for};
ghost use Rattle.mysql_bind_call.specs.BoundTexts.{IsValuesText};
ghost use Rattle.mysql_fixed_query.specs.Bindable.{IsAcceptedFor, tokens_for, tokens_in};

use mysql_binding::{BindError, LiteralForm, PlainForm, bind_borrowed_as};
use mysql_named_params::places::Reading;
use mysql_params_core::params::{Params, ToParamsError};
use mysql_steady_text::SteadyForm;
use mysql_steady_text::purpose::{Purpose, Scope};
use std::alloc::{AllocError, Global};

// The text of a query for a purpose with the parameters that were made for it. The only error of
// making and binding the parameters is out of memory. The query isn't tested: that is proved.
#[inline(always)]
pub(crate) fn bind_made(
    alloc: Global,
    query: &[u8],
    made: Result<Params, ToParamsError>,
    purpose: Purpose,
) -> Result<Vec<u8>, AllocError>
    requires accepted { IsAcceptedFor purpose query.now }
    requires no_cause { (expected : Given) × IsAnswer given to_params_refusal (Ok expected) ⊤ made
        × (first_cause (tokens_for purpose query.now) expected ≡ None) }
    requires value { IfErr made (λ error.
        error ≢ ToParamsError.Value (to_value.Memory alloc_error)) }
    ensures text { (expected : Given) → IsAnswer given to_params_refusal (Ok expected) ⊤ made →
        (mode : Bool) → IfOk result (λ text. IsValuesText purpose.scope
        (tokens_in (reading_for purpose mode) query.now) expected text.items) }
{
    // The modes agree on a query that isn't refused in both, so it is read in one of them.
    let steady = Reading {
        no_backslash_escape: true,
        wide_names: purpose.wide_names,
    };
    match purpose.scope {
        Scope::OneMode {
            no_backslash_escape,
        } => {
            let form = PlainForm {
                no_backslash_escape,
            };
            let reading = Reading {
                no_backslash_escape,
                wide_names: purpose.wide_names,
            };
            bind_made_as(alloc, query, made, reading, &form)
        }
        Scope::EitherMode => bind_made_as(alloc, query, made, steady, &SteadyForm),
        Scope::AnyConnection => bind_made_as(alloc, query, made, steady, &SteadyForm),
    }
}

// The same in a reading, with literals of any form.
fn bind_made_as<F: LiteralForm>(
    alloc: Global,
    query: &[u8],
    made: Result<Params, ToParamsError>,
    reading: Reading,
    form: &F,
) -> Result<Vec<u8>, AllocError>
    requires no_cause { (expected : Given) × IsAnswer given to_params_refusal (Ok expected) ⊤ made
        × OnTokensIn reading query.now (λ ts. first_cause ts expected ≡ None) }
    requires value { IfErr made (λ error.
        error ≢ ToParamsError.Value (to_value.Memory alloc_error)) }
    ensures text { (expected : Given) → IsAnswer given to_params_refusal (Ok expected) ⊤ made →
        IfOk result (λ text. OnTokensIn reading query.now (λ ts.
        IsGivenText (F.literal form.now) (F.IsKnown form.now) ts expected text.items)) }
{
    // Both conversions have a `requires`, which `From` has not.
    let params = match made {
        Ok(params) => params,
        Err(error) => return Err(memory_of_maker(error)),
    };
    match bind_borrowed_as(alloc, query, params.borrowed(), reading, form) {
        Ok(text) => Ok(text),
        Err(error) => Err(memory_of_binding(error)),
    }
}

// The error of a maker that is known to be out of memory.
fn memory_of_maker(error: ToParamsError) -> AllocError
    requires { error ≡ ToParamsError.Memory alloc_error }
{
    match error {
        ToParamsError::Memory(error) => error,
        ToParamsError::Redefined(_) | ToParamsError::Value(_) => unreachable!(),
    }
}

// The error of binding that is known to be out of memory.
fn memory_of_binding(error: BindError) -> AllocError
    requires { error ≡ BindError.Memory alloc_error }
{
    match error {
        BindError::Memory(error) => error,
        BindError::Mixed
        | BindError::Params(_)
        | BindError::MarkCount { .. }
        | BindError::NotAlone { .. }
        | BindError::Float { .. } => unreachable!(),
    }
}
