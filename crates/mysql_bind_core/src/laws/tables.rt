//! Laws of the values that a table's records give to names. They do nothing: each is called for its
//! `ensures` clauses.
ghost use Rattle.std.specs.Prelude.{◌≡◌, ◌++◌, ◌∷◌, ℕ, List, length};
ghost use Rattle.mysql_records.specs.Records.{BeginsWithRecord};
ghost use Rattle.mysql_bind_core.specs.Cells.{TableQuery};
ghost use Rattle.mysql_bind_core.specs.Headers.{AreRowsUnder, used_names};
ghost use Rattle.mysql_bind_core.specs.Scripts.{AreStatements};
ghost use Rattle.mysql_bind_core.specs.Tables.{AreAppended, AreRowsOf, BeginsWithRecords, Fields};
ghost use Rattle.mysql_bind_core.specs.declared.row.Row as row;
ghost use Rattle.mysql_bind_core.specs.declared.table_form.TableForm as form;

use std::alloc::Global;

/// From the bytes of a table to the values of names. [`append_table`](crate::append_table) appends
/// the statements of rows that say the same as the records, and there are such rows (`rows`).
///
/// Suppose that a record stands before the text, as a header, and that each column has a name. The
/// query is matched with the names of the columns that are used, and with further names. Then the
/// bytes begin with the header and the records. Each row assigns to the name of each column that is
/// used the field of the same number, and to the further names what the cells of each row say
/// (`header`).
pub fn tables_give_values(alloc: Global)
    ensures rows { (query : TableQuery) (form : form.TableForm) (text : List ℕ)
        (records : List Fields) (rest before after : List ℕ) →
        AreAppended query form text records rest before after → (rows : List row.Row)
        × AreRowsOf query form records rows
        × AreStatements query.request query.query rows before after }
    ensures header { (query : TableQuery) (form : form.TableForm) (bytes text : List ℕ)
        (header : Fields) (names fixed : List (List ℕ)) (records : List Fields)
        (rest before after : List ℕ) → BeginsWithRecord form.format bytes header text →
        length names ≡ length form.columns.now →
        query.columns ≡ used_names form.columns.now names ++ fixed →
        AreAppended query form text records rest before after → (rows : List row.Row)
        × BeginsWithRecords form.format bytes (header ∷ records) rest
        × AreRowsUnder form names fixed records rows
        × AreStatements query.request query.query rows before after }
{
    let _alloc = alloc;
}
