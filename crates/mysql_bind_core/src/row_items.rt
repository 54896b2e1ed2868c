//! The items of a row, from the cells of its record.
ghost use Rattle.std.specs.Prelude.{◌≡◌, IfOk, map, option_map};
ghost use Rattle.mysql_bind_core.specs.Contents.{all_of, item_said, said};
ghost use Rattle.mysql_bind_core.specs.RowItems.{as_item, cell_item};
ghost use Rattle.mysql_bind_core.specs.Tables.{cell_said};

use crate::cell::Cell;
use crate::fragment_type::typed_fragment;
use mysql_fragments::{Fragment, Item};
use std::alloc::{AllocError, Global};

// The items of cells, if each says one.
pub(crate) fn row_items(alloc: Global, cells: &[Cell<'_>]) -> Result<Option<Vec<Item>>, AllocError>
    ensures { IfOk result (λ found. option_map (λ items. map item_said items.items) found
        ≡ all_of cell_item (map cell_said cells.now)) }
{
    let mut items = Vec::new(alloc);
    for cell in cells {
        match cell_item(alloc, cell)? {
            Some(item) => items.push(item)?,
            None => return Ok(None),
        }
    }
    Ok(Some(items))
}

// The item of a cell, if its bytes say one.
fn cell_item(alloc: Global, cell: &Cell<'_>) -> Result<Option<Item>, AllocError>
    ensures { IfOk result (λ found.
        option_map item_said found ≡ cell_item (cell_said cell.now)) }
{
    match typed_fragment(alloc, cell.value_type, cell.bytes)? {
        Some(fragment) => Ok(as_item(fragment)),
        None => Ok(None),
    }
}

// A fragment as an item of a row, if it is one.
fn as_item(fragment: Fragment) -> Option<Item>
    ensures { option_map item_said result ≡ as_item (said fragment) }
{
    match fragment {
        Fragment::Value(value) => Some(Item::Value(value)),
        Fragment::Decimal(number) => Some(Item::Decimal(number)),
        Fragment::Double(double) => Some(Item::Double(double)),
        _ => None,
    }
}
