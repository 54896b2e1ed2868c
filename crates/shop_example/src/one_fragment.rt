//! The fragments of a query with one place.
ghost use Rattle.std.specs.Prelude.{◌≡◌, ◌∷◌, [], IfOk};

use mysql_params::fragments::Fragment;
use std::alloc::{AllocError, Global};

/// The list of one fragment.
pub(crate) fn one_fragment(alloc: Global, fragment: Fragment) -> Result<Vec<Fragment>, AllocError>
    ensures { IfOk result (λ list. list.items ≡ fragment ∷ []) }
{
    Ok(vec![in alloc; fragment]?)
}
