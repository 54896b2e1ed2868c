//! The flat form of fragments, read without a copy of its values.
ghost use Rattle.std.specs.Prelude.{◌≡◌, ◌≤◌, ◌-◌, [], Ok, IfErr, IfOk, IfSome, IsOk, OnOk, ⊤, get_or, is_some, length, option_and_then, true};
ghost use Rattle.std.specs.FinMap.{contains_key, get};
ghost use Rattle.mysql_wire_part.specs.Answer.{IsExpectedRefusal};
ghost use Rattle.mysql_wire_part.specs.ParseBuf.{left};
ghost use Rattle.mysql_flat_params.specs.FormErrors.{form_refusal};
ghost use Rattle.mysql_fragments.specs.GivenFragments.{FragmentMap, GivenFragments};
ghost use Rattle.mysql_fragments.specs.declared.fragment.Fragment as said_fragment;
ghost use Rattle.mysql_flat_params.specs.FlatFragments.{name_refusal, read_parameter, with_parameter};
ghost use Rattle.mysql_flat_params.specs.FormInPlace.{IsGivenAs, IsKeptAs, IsMapKeptAs};
ghost use Rattle.mysql_flat_params.specs.FragmentContent.{content_of};
ghost use Rattle.mysql_flat_params.specs.FragmentsFormErrors.{IsFormRefusal};
ghost use Rattle.mysql_flat_params.specs.FlatForm.{read_name};
ghost use Rattle.mysql_flat_params.specs.FormKinds.{FormKinds, IsKnownForm, kind_of_type, with_kind, with_read};
ghost use Rattle.mysql_flat_params.specs.KindsInPlace.{IsReadAs};

use crate::form::{Spot, eat_name};
use crate::form_error::FormError;
use crate::fragment_in_place::{FragmentInPlace, eat_in_place};
use crate::kinds_in_place::{KindsInPlace, kind_of_type};
use mysql_fragments::brackets::Implicit;
use mysql_wire_part::ParseBuf;
use std::alloc::{AllocError, Global};
use std::collections::BTreeMap;

/// The fragments of a form, kept in the form's own bytes. Names are in a sorted map, which no
/// choice of names makes slow.
#[derive(Drop)]
pub(crate) enum FormInPlace<'f> {
    Positional(Vec<FragmentInPlace<'f>>),
    Named(BTreeMap<&'f [u8], FragmentInPlace<'f>>),
}

/// The fragments of a form, and which of them are implicit lists and rows.
#[derive(Drop)]
pub(crate) struct ReadForm<'f> {
    pub(crate) kept: FormInPlace<'f>,
    pub(crate) kinds: KindsInPlace<'f>,
}

/// A form, which is read and refused as by [`form_fragments`](crate::form_fragments).
pub(crate) fn form_in_place<'f>(alloc: Global, form: &'f [u8]) -> Result<ReadForm<'f>, FormError>
    ensures read { IfOk result (λ read. (given : GivenFragments) × (kinds : FormKinds)
        × IsReadAs read given kinds × IsKnownForm form.now given kinds) }
    ensures refused { IfErr result (IsFormRefusal form.now) }

    // The empty form is read without allocating.
    ensures empty { form.now ≡ [] → IsOk result }
{
    let mut kept = FormInPlace::Positional(Vec::new(alloc));
    let mut kinds = KindsInPlace {
        by_place: Vec::new(alloc),
        by_name: BTreeMap::new(alloc),
    };
    let mut rest = ParseBuf(form);
    let mut place = 0;
    while !rest.is_empty() {
        let (name, kind, fragment) = eat_parameter(alloc, form.len(), place, &kept, &mut rest)?;
        keep(alloc, &mut kept, name, fragment)?;
        kinds.insert(place, name, kind)?;
        place += 1;
    }
    Ok(ReadForm { kept, kinds })
}

// The name of the next parameter, what is known of it, and its fragment.
fn eat_parameter<'f>(
    alloc: Global,
    total: usize,
    place: usize,
    kept: &FormInPlace<'f>,
    rest: &mut ParseBuf<'f>,
) -> Result<(&'f [u8], Implicit, FragmentInPlace<'f>), FormError>
    requires { length (left rest.old) ≤ total }
    ensures read { (given : GivenFragments) → IsGivenAs kept.now given →
        IfOk result (λ read. (said : said_fragment.Fragment) × IsKeptAs read.2 said
        × (read_parameter total place given (left rest.old)
        ≡ Ok ((read.0.now, content_of said), left rest.new))) }
    ensures kind { IfOk result (λ read. (kinds : FormKinds) → with_read kinds place
        (read_name place (total - length (left rest.old)) (left rest.old))
        ≡ with_kind kinds place read.0.now read.1) }
    ensures refused { (given : GivenFragments) → IsGivenAs kept.now given →
        IfErr result (λ error. IsExpectedRefusal
        (read_parameter total place given (left rest.old)) ⊤ (form_refusal error)) }
{
    let spot = Spot {
        place,
        position: total - rest.len(),
    };
    let name = eat_name(spot, rest)?;
    let at = total - rest.len() - name.len();
    if let Some(error) = name_error(spot, at, kept, name) {
        return Err(error);
    }
    let kind = next_kind(rest);
    let fragment = eat_in_place(alloc, spot, rest)?;
    Ok((name, kind, fragment))
}

// What is known of the fragment at the front.
fn next_kind(rest: &ParseBuf<'_>) -> Implicit
    ensures { result ≡ kind_of_type (get_or (left rest.now) 0 0) }
{
    let [number, ..] = rest.0 else {
        return Implicit::No;
    };
    kind_of_type(*number)
}

// The refusal of a name, which is at this index, after the kept fragments.
fn name_error(spot: Spot, at: usize, kept: &FormInPlace<'_>, name: &[u8]) -> Option<FormError>
    ensures refusal { (given : GivenFragments) → IsGivenAs kept.now given →
        option_and_then form_refusal result
        ≡ name_refusal spot.place spot.position at given name.now }
    ensures no_memory { IfSome result (λ error. is_some (form_refusal error) ≡ true) }
{
    let Spot { place, position } = spot;
    match kept {
        FormInPlace::Positional(list) => {
            if list.is_empty() {
                return None;
            }
            if name.is_empty() {
                None
            } else {
                Some(FormError::Mixed { place, position })
            }
        }
        FormInPlace::Named(entries) => {
            if name.is_empty() {
                Some(FormError::Mixed { place, position })
            } else if has_name(entries, name) {
                Some(FormError::Repeated {
                    place,
                    position: at,
                    len: name.len(),
                })
            } else {
                None
            }
        }
    }
}

// Whether the name is in the map.
fn has_name(entries: &BTreeMap<&[u8], FragmentInPlace<'_>>, name: &[u8]) -> bool
    ensures { (fragments : FragmentMap) → IsMapKeptAs entries.now.entries fragments →
        result ≡ contains_key fragments name.now }
{
    BTreeMap::get(entries, name).is_some()
}

// Keeps a fragment under its name, or appends it if it has none.
fn keep<'f>(
    alloc: Global,
    kept: &mut FormInPlace<'f>,
    name: &'f [u8],
    fragment: FragmentInPlace<'f>,
) -> Result<(), AllocError>
    ensures { OnOk result ((given : GivenFragments) (said : said_fragment.Fragment) →
        IsGivenAs kept.old given → IsKeptAs fragment.entry said →
        IsGivenAs kept.new (with_parameter given name.now said)) }
{
    match kept {
        FormInPlace::Named(entries) => {
            entries.insert(name, fragment)?;
        }
        FormInPlace::Positional(list) => {
            if list.is_empty() && !name.is_empty() {
                let mut entries = BTreeMap::new(alloc);
                entries.insert(name, fragment)?;
                *kept = FormInPlace::Named(entries);
                return Ok(());
            }
            list.push(fragment)?;
        }
    }
    Ok(())
}
