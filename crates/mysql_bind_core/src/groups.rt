//! The statements of a table's records, several records in one.
ghost use Rattle.std.specs.Prelude.{◌≡◌, ◌≢◌, ◌<◌, ◌≤◌, ℕ, List, [], length, IfErr, IfOk};
ghost use Rattle.mysql_bind_core.specs.Groups.{AreGroupsAppended, IsGroupRefused, last_count};
ghost use Rattle.mysql_bind_core.specs.Tables.{Fields};

use crate::group::full_group;
use crate::group_form::{AppendedGroups, GroupForm, GroupRefusal};
use crate::record_rows::Unread;
use crate::taken::TakenQuery;
use std::alloc::Global;

/// Appends the statements of a table's records to a script, in the order of the records. A
/// statement has the rows of one or more records in the place of [`ROW_NAME`](crate::ROW_NAME), and
/// never a part of a row. It takes the next record too, with four exceptions:
/// - it has `rows` rows;
/// - the text ends, or the next record has no row;
/// - with the next row it would be longer than `bytes`;
/// - with the next row it would be refused.
///
/// If a record is refused, the script has the statements of the records before it. The indices of a
/// refusal are in `text`.
pub fn append_groups<'t>(
    alloc: Global,
    query: &TakenQuery<'_>,
    form: &GroupForm<'_>,
    text: &'t [u8],
    script: &mut Vec<u8>,
) -> Result<AppendedGroups<'t>, GroupRefusal>
    requires start { 0 < form.now.start }
    requires within { form.now.start ≤ form.now.rows }
    ensures appended { IfOk result (λ end. (groups : List (List Fields))
        × AreGroupsAppended query.now form.now text.now groups end.rest.now script.old.items
        script.new.items
        × (length groups ≤ form.now.statements)
        × (end.rest.now ≢ [] → length groups ≡ form.now.statements)
        × (end.rows ≡ last_count form.now.start groups)) }
    ensures refused { IfErr result (λ e. (groups : List (List Fields)) × (rest : List ℕ)
        × AreGroupsAppended query.now form.now text.now groups rest script.old.items
        script.new.items
        × (length groups < form.now.statements)
        × IsGroupRefused query.now form.now text.now rest e) }
{
    let mut rest = text;
    let mut rows = form.start;
    for _count in 0..form.statements {
        if rest.is_empty() {
            return Ok(AppendedGroups { rest, rows });
        }
        let group = full_group(alloc, query, form, Unread { text, rest }, rows)?;
        script.extend_from_slice(group.statement.as_slice())?;
        rest = group.rest;
        rows = group.rows;
    }
    Ok(AppendedGroups { rest, rows })
}
