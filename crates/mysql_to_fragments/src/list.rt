//! Lists of items.
ghost use Rattle.std.specs.Prelude.{Ok, map, ⊤};
ghost use Rattle.mysql_values.specs.Answer.{IsAnswer};
ghost use Rattle.mysql_values.specs.ValueOf.{too_long_duration};
ghost use Rattle.mysql_to_fragments.specs.FragmentContent.{content_of, items_content, list};
ghost use Rattle.mysql_to_fragments.specs.Arguments.{all_said, made_of, with_one};

use crate::fragment::ToFragment;
use crate::item::ToItem;
use mysql_fragments::{Fragment, Item};
use mysql_values::value::convert::ToValueError;
use std::alloc::{AllocError, Global};

/// A list of items, for a place like `IN (:ids)`.
#[derive(Drop)]
pub struct ListOf<'a, T>(pub &'a [T]);

impl<'a, T: ToItem> ToFragment for ListOf<'a, T> {
    ghost said = { λ items. made_of list (all_said (map T.said_item items.0.now)) };

    fn to_fragment(&self, alloc: Global) -> Result<Fragment, ToValueError> {
        let items = list_items(alloc, self.0)?;
        Ok(Fragment::List(items))
    }
}

// The items that arguments make.
fn list_items<T: ToItem>(alloc: Global, arguments: &[T]) -> Result<Vec<Item>, ToValueError>
    ensures { IsAnswer (λ items. items_content items.items) too_long_duration
        (all_said (map T.said_item arguments.now)) ⊤ result }
{
    let mut items = Vec::new(alloc);
    for argument in arguments {
        push_item(alloc, &mut items, argument)?;
    }
    Ok(items)
}

/// Appends the item that an argument makes.
pub(crate) fn push_item<T: ToItem>(
    alloc: Global,
    items: &mut Vec<Item>,
    argument: &T,
) -> Result<(), ToValueError>
    ensures { IsAnswer (λ _. items_content items.new.items) too_long_duration
        (with_one (Ok (items_content items.old.items)) (T.said_item argument.now)) ⊤ result }
{
    let item = argument.to_item(alloc)?;
    items.push(item).map_err(AllocError::from)?;
    Ok(())
}
