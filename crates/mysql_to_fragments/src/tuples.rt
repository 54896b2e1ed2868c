//! Tuples of arguments make rows.
ghost use Rattle.std.specs.Prelude.{◌∷◌, List, [], fold, Ok, ⊤};
ghost use Rattle.mysql_values.specs.Answer.{IsAnswer};
ghost use Rattle.mysql_values.specs.ValueOf.{too_long_duration};
ghost use Rattle.mysql_to_fragments.specs.FragmentContent.{items_content};
ghost use Rattle.mysql_to_fragments.specs.Arguments.{SaidItem, all_said, with_one};

use crate::item::ToItem;
use crate::list::push_item;
use crate::nested::nested;
use crate::rows::ToRow;
use mysql_fragments::Item;
use mysql_values::value::convert::ToValueError;
use std::alloc::Global;

impl<A: ToItem> ToRow for (A,) {
    ghost said_row = { λ row. all_said (A.said_item row.0 ∷ []) };

    fn to_row(&self, alloc: Global) -> Result<Vec<Item>, ToValueError> {
        items_of_row(alloc, &nested!(&self.0))
    }
}

impl<A: ToItem, B: ToItem> ToRow for (A, B) {
    ghost said_row = { λ row. all_said (A.said_item row.0 ∷ B.said_item row.1 ∷ []) };

    fn to_row(&self, alloc: Global) -> Result<Vec<Item>, ToValueError> {
        items_of_row(alloc, &nested!(&self.0, &self.1))
    }
}

impl<A: ToItem, B: ToItem, C: ToItem> ToRow for (A, B, C) {
    ghost said_row = { λ row. all_said (A.said_item row.0 ∷ B.said_item row.1 ∷
        C.said_item row.2 ∷ []) };

    fn to_row(&self, alloc: Global) -> Result<Vec<Item>, ToValueError> {
        items_of_row(alloc, &nested!(&self.0, &self.1, &self.2))
    }
}

impl<A: ToItem, B: ToItem, C: ToItem, D: ToItem> ToRow for (A, B, C, D) {
    ghost said_row = { λ row. all_said (A.said_item row.0 ∷ B.said_item row.1 ∷
        C.said_item row.2 ∷ D.said_item row.3 ∷ []) };

    fn to_row(&self, alloc: Global) -> Result<Vec<Item>, ToValueError> {
        items_of_row(alloc, &nested!(&self.0, &self.1, &self.2, &self.3))
    }
}

impl<A: ToItem, B: ToItem, C: ToItem, D: ToItem, E: ToItem> ToRow for (A, B, C, D, E) {
    ghost said_row = { λ row. all_said (A.said_item row.0 ∷ B.said_item row.1 ∷
        C.said_item row.2 ∷ D.said_item row.3 ∷ E.said_item row.4 ∷ []) };

    fn to_row(&self, alloc: Global) -> Result<Vec<Item>, ToValueError> {
        items_of_row(alloc, &nested!(&self.0, &self.1, &self.2, &self.3, &self.4))
    }
}

impl<A: ToItem, B: ToItem, C: ToItem, D: ToItem, E: ToItem, F: ToItem> ToRow
    for (A, B, C, D, E, F) {
    ghost said_row = { λ row. all_said (A.said_item row.0 ∷ B.said_item row.1 ∷
        C.said_item row.2 ∷ D.said_item row.3 ∷ E.said_item row.4 ∷ F.said_item row.5 ∷ []) };

    fn to_row(&self, alloc: Global) -> Result<Vec<Item>, ToValueError> {
        items_of_row(
            alloc,
            &nested!(&self.0, &self.1, &self.2, &self.3, &self.4, &self.5),
        )
    }
}

impl<A: ToItem, B: ToItem, C: ToItem, D: ToItem, E: ToItem, F: ToItem, G: ToItem> ToRow
    for (A, B, C, D, E, F, G) {
    ghost said_row = { λ row. all_said (A.said_item row.0 ∷ B.said_item row.1 ∷
        C.said_item row.2 ∷ D.said_item row.3 ∷ E.said_item row.4 ∷ F.said_item row.5 ∷
        G.said_item row.6 ∷ []) };

    fn to_row(&self, alloc: Global) -> Result<Vec<Item>, ToValueError> {
        items_of_row(
            alloc,
            &nested!(
                &self.0, &self.1, &self.2, &self.3, &self.4, &self.5, &self.6
            ),
        )
    }
}

impl<A: ToItem, B: ToItem, C: ToItem, D: ToItem, E: ToItem, F: ToItem, G: ToItem, H: ToItem> ToRow
    for (A, B, C, D, E, F, G, H) {
    ghost said_row = { λ row. all_said (A.said_item row.0 ∷ B.said_item row.1 ∷
        C.said_item row.2 ∷ D.said_item row.3 ∷ E.said_item row.4 ∷ F.said_item row.5 ∷
        G.said_item row.6 ∷ H.said_item row.7 ∷ []) };

    fn to_row(&self, alloc: Global) -> Result<Vec<Item>, ToValueError> {
        items_of_row(
            alloc,
            &nested!(
                &self.0, &self.1, &self.2, &self.3, &self.4, &self.5, &self.6, &self.7
            ),
        )
    }
}

// The items that the arguments of a row make.
fn items_of_row<R: PushItems>(alloc: Global, row: &R) -> Result<Vec<Item>, ToValueError>
    ensures { IsAnswer (λ items. items_content items.items) too_long_duration
        (all_said (R.pushed row.now)) ⊤ result }
{
    let mut items = Vec::new(alloc);
    row.push(alloc, &mut items)?;
    Ok(items)
}

// References to arguments as nested pairs, whose items go to the end of a row.
trait PushItems {
    // the contents of the items
    ghost pushed: { Self → List SaidItem };

    // Appends the items in order, up to the first refusal.
    fn push(&self, alloc: Global, items: &mut Vec<Item>) -> Result<(), ToValueError>
        ensures { IsAnswer (λ _. items_content items.new.items) too_long_duration
            (fold with_one (Ok (items_content items.old.items)) (pushed self.now)) ⊤ result };
}

impl PushItems for () {
    ghost pushed = { λ _. [] };

    fn push(&self, _alloc: Global, _items: &mut Vec<Item>) -> Result<(), ToValueError> {
        Ok(())
    }
}

impl<A: ToItem, R: PushItems> PushItems for (&A, R) {
    ghost pushed = { λ row. A.said_item row.0.now ∷ R.pushed row.1 };

    fn push(&self, alloc: Global, items: &mut Vec<Item>) -> Result<(), ToValueError> {
        push_item(alloc, items, self.0)?;
        self.1.push(alloc, items)
    }
}
