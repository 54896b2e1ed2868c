//! The flat form of fragments.
ghost use Rattle.std.specs.Prelude.{◌≡◌, ◌≤◌, [], Ok, IfErr, IfOk, IfSome, IsOk, ⊤, alloc_error, is_some, length, true, option_and_then};
ghost use Rattle.std.specs.FinMap.{contains_key, insert};
ghost use Rattle.mysql_wire_part.specs.Answer.{IsAnswer};
ghost use Rattle.mysql_wire_part.specs.ParseBuf.{left};
ghost use Rattle.mysql_flat_params.specs.FormErrors.{form_refusal};
ghost use Rattle.mysql_fragments.specs.GivenFragments.{fragment_map, given_fragments};
ghost use Rattle.mysql_flat_params.specs.FlatFragments.{IsFormReading, name_refusal, read_parameter, with_parameter};
ghost use Rattle.mysql_flat_params.specs.FragmentContent.{content_of};
ghost use Rattle.mysql_flat_params.specs.FragmentsFormErrors.{IsFormRefusal};

use crate::form::{Spot, eat_name};
use crate::form_error::FormError;
use crate::fragment::eat_fragment;
use mysql_fragments::{Fragment, Fragments};
use mysql_wire_part::ParseBuf;
use std::alloc::Global;
use std::collections::HashMap;

/// The fragments of a form, by position or by name, like its first parameter. The empty form has
/// none, by position.
///
/// The form is that of [`params_of_form`](crate::params_of_form), with ten types more. Their
/// flags are ignored. After the flags comes
///
/// - for 128, an exact number, its text as a length-encoded string;
/// - for 129, a list, the count of its items in four bytes, least first, and the items, each with a
///   type, flags, and a value or the text of an exact number;
/// - for 130, rows, the count of the rows in four bytes, and the rows, each like a list;
/// - for 131, an identifier, its name as a length-encoded string;
/// - for 132, a qualified identifier, the count of its names in four bytes, and the names, each as
///   a length-encoded string;
/// - for 133, a keyword, its text as a length-encoded string. A text that isn't one of the keywords
///   that a form may have becomes an empty keyword, which no call writes;
/// - for 134, identifiers, their count in four bytes, and each with its names as for 132;
/// - for 135, assignments, their count in four bytes, and each with the names of its column as for
///   132, and an item as in a list;
/// - for 136, an implicit list, what 129 has, and for 137, implicit rows, what 130 has. Here they
///   are a list and rows. The calls that bind refuse them at some places.
///
/// The parameters are read in order, up to the first that is refused, as `params_of_form` reads and
/// refuses them. Nothing is allocated for a length or a count that the form only states. A fault of
/// a fragment, such as an empty list, is refused when it is bound.
pub fn form_fragments(alloc: Global, form: &[u8]) -> Result<Fragments, FormError>
    ensures fragments { IfOk result (λ fragments.
        IsFormReading form.now (Ok (given_fragments fragments))) }
    ensures refused { IfErr result (IsFormRefusal form.now) }

    // The empty form is read without allocating.
    ensures empty { form.now ≡ [] → IsOk result }
{
    let mut fragments = Fragments::Positional(Vec::new(alloc));
    let mut rest = ParseBuf(form);
    let mut place = 0;
    while !rest.is_empty() {
        let (name, fragment) = eat_parameter(alloc, form.len(), place, &fragments, &mut rest)?;
        insert_fragment(alloc, &mut fragments, name, fragment)?;
        place += 1;
    }
    Ok(fragments)
}

// The name and the fragment of the next parameter.
fn eat_parameter<'a>(
    alloc: Global,
    total: usize,
    place: usize,
    fragments: &Fragments,
    rest: &mut ParseBuf<'a>,
) -> Result<(&'a [u8], Fragment), FormError>
    requires { length (left rest.old) ≤ total }
    ensures { IsAnswer (λ read. ((read.0.now, content_of read.1), left rest.new)) form_refusal
        (read_parameter total place (given_fragments fragments.now) (left rest.old)) ⊤ result }
{
    let spot = Spot {
        place,
        position: total - rest.len(),
    };
    let name = eat_name(spot, rest)?;
    let at = total - rest.len() - name.len();
    if let Some(error) = name_error(spot, at, fragments, name) {
        return Err(error);
    }
    let fragment = eat_fragment(alloc, spot, rest)?;
    Ok((name, fragment))
}

// The refusal of a name, which is at this index, after these fragments.
fn name_error(spot: Spot, at: usize, fragments: &Fragments, name: &[u8]) -> Option<FormError>
    ensures refusal { option_and_then form_refusal result
        ≡ name_refusal spot.place spot.position at (given_fragments fragments.now) name.now }
    ensures no_memory { IfSome result (λ error. is_some (form_refusal error) ≡ true) }
{
    let Spot { place, position } = spot;
    match fragments {
        Fragments::Positional(list) => {
            if list.is_empty() || name.is_empty() {
                None
            } else {
                Some(FormError::Mixed { place, position })
            }
        }
        Fragments::Named(entries) => {
            if name.is_empty() {
                Some(FormError::Mixed { place, position })
            } else if has_name(entries, name) {
                Some(FormError::Repeated {
                    place,
                    position: at,
                    len: name.len(),
                })
            } else {
                None
            }
        }
    }
}

// Whether the name is in the map.
fn has_name(entries: &HashMap<Vec<u8>, Fragment>, name: &[u8]) -> bool
    ensures { result ≡ contains_key (fragment_map entries.now.entries) name.now }
{
    entries.get(name).is_some()
}

// Inserts a fragment under its name, or appends it if it has none.
fn insert_fragment(
    alloc: Global,
    fragments: &mut Fragments,
    name: &[u8],
    fragment: Fragment,
) -> Result<(), FormError>
    ensures inserted { IfOk result (λ done. given_fragments fragments.new
        ≡ with_parameter (given_fragments fragments.old) name.now fragment) }
    ensures memory { IfErr result (λ error. error ≡ FormError.Memory alloc_error) }
{
    match fragments {
        Fragments::Named(entries) => insert_named(alloc, entries, name, fragment),
        Fragments::Positional(list) => {
            if list.is_empty() && !name.is_empty() {
                let mut entries = HashMap::new(alloc);
                insert_named(alloc, &mut entries, name, fragment)?;
                *fragments = Fragments::Named(entries);
                return Ok(());
            }
            list.push(fragment)?;
            Ok(())
        }
    }
}

// Inserts a fragment under a copy of its name.
fn insert_named(
    alloc: Global,
    entries: &mut HashMap<Vec<u8>, Fragment>,
    name: &[u8],
    fragment: Fragment,
) -> Result<(), FormError>
    ensures inserted { IfOk result (λ done. fragment_map entries.new.entries
        ≡ insert (fragment_map entries.old.entries) name.now fragment) }
    ensures memory { IfErr result (λ error. error ≡ FormError.Memory alloc_error) }
{
    let name = Vec::from_slice(alloc, name)?;
    entries.insert(name, fragment)?;
    Ok(())
}
