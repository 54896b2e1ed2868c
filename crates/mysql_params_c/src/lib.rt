//! Binding for C, and for every language that calls C: the static library over `mysql_flat_params`.
//!
//! Each export except the last two writes its answer into the caller's room. Its result is the
//! number of an [`Outcome`](mysql_flat_params::Outcome), and `report` has the outcome's fields.
//! [`mysql_params_first_unportable`] and [`mysql_params_first_unportable_in_client`] return the
//! number of a construct of a query, and `report` has its position. A slice comes from C as a
//! pointer that is not null, also for no bytes, and a length of at most `isize::MAX`. Nothing is
//! kept after a call. C passes nothing for the allocator.
//!
//! The contracts hold for callers that keep to `bindings/c/mysql_params.h`: `room` and `report`
//! overlap neither each other nor the bytes that are read, and their bytes have values before the
//! call.
#![tactic(auto)]

pub mod wide;

ghost use Rattle.std.specs.Prelude.{◌≡◌, ◌≢◌, ◌⊎◌, ◌↔◌, ◌+◌, ◌≤◌, ◌<◌, Bool, [], Some, None, length, take, drop, pos};
ghost use Rattle.mysql_flat_params.specs.AnywhereIntoRoom.{IsAnywhereForm, IsAnywhereOutcome, anywhere_refusal};
ghost use Rattle.mysql_flat_params.specs.BothModesIntoRoom.{IsBothModesForm, IsBothModesOutcome, both_modes_refusal};
ghost use Rattle.mysql_flat_params.specs.BoundRows.{AreBoundRows, IsRowsOutcome};
ghost use Rattle.mysql_flat_params.specs.FlatForm.{HasFirstParameter};
ghost use Rattle.mysql_flat_params.specs.IntoRoom.{IfMixed, IsBindOutcome, IsBoundForm, IsNamesAnswer, IsNamesOutcome};
ghost use Rattle.mysql_flat_params.specs.Outcomes.{IsTold, number_of};
ghost use Rattle.mysql_flat_params.specs.PlaceTable as table;
ghost use Rattle.mysql_flat_params.specs.PlaceTable.{IsMadeTable, IsTableBindOutcome, IsTableOf, IsTableOutcome};
ghost use Rattle.mysql_flat_params.specs.declared.outcome.Outcome as outcome;
ghost use Rattle.mysql_flat_params.specs.FragmentsAnywhereIntoRoom as anywhere_fragments;
ghost use Rattle.mysql_flat_params.specs.FragmentsIntoRoom as fragments;
ghost use Rattle.mysql_flat_params.specs.FragmentsOutcomes as fragments_outcomes;
ghost use Rattle.mysql_flat_params.specs.UnportableReport.{unportable_number, unportable_report};
ghost use Rattle.mysql_named_params.specs.Places.{marks, HasMark, HasName};
ghost use Rattle.mysql_named_params.specs.Tokens.{OnTokens};
ghost use Rattle.mysql_portable.specs.FirstUnportable.{first_unportable};
ghost use Rattle.mysql_portable.specs.FirstUnportableInClient.{first_unportable_in_client, IsPortableInClient};
ghost use Rattle.mysql_portable.specs.Portable.{IsPortable};

use mysql_flat_params::{
    PlaceSpan, Report, Rows, TableHead, Template, bind_anywhere_into, bind_by_table_into,
    bind_fragments_anywhere_into, bind_fragments_into, bind_in_both_modes_into, bind_into,
    bind_rows_into, names_into, report_first_unportable, report_first_unportable_in_client,
    table_into,
};
use std::alloc::Global;

/// Writes the query with `?` in place of each name, and then the names, to the front of the room,
/// each as a length-encoded string: [`names_into`](mysql_flat_params::names_into).
///
/// Returns 0 (`Done`) with the length of the answer in the report's `len`, 2 (`Room`) with the
/// length that the room would need, or 8 (`Mixed`) for a query with names and marks. For a query
/// with names and without marks 1 (`OutOfMemory`) may come in place of 0 and 2. All other fields of
/// the report are 0. At each number except 0 the room is as before. The flag is true if the
/// connection's `sql_mode` has `NO_BACKSLASH_ESCAPES`.
#[unsafe(no_mangle)]
pub extern "C" fn mysql_params_names(
    alloc: Global,
    query: &[u8],
    no_backslash_escape: bool,
    room: &mut [u8],
    report: &mut Report,
) -> i32
    ensures outcome { IsTold result report.new (IsNamesOutcome no_backslash_escape query.now) }
    ensures written { result ≡ pos 0 →
        IsNamesAnswer no_backslash_escape query.now (take report.new.len room.new) }

    // A query with a name and a mark is refused without allocating.
    ensures mixed { IfMixed no_backslash_escape query.now (result ≡ pos 8) }

    // Only a query with names and without marks allocates.
    ensures memory { OnTokens no_backslash_escape query.now (λ ts.
        result ≡ pos 1 → HasName ts × (marks ts ≡ 0)) }
    ensures short_room { result ≡ pos 1 → length query.now < length room.old }
    ensures rest { result ≡ pos 0 → (report.new.len ≤ length room.old)
        × (drop report.new.len room.new ≡ drop report.new.len room.old) }
    ensures too_long { result ≡ pos 2 → length room.old < report.new.len }
    ensures unchanged { result ≢ pos 0 → room.new ≡ room.old }
{
    let outcome = names_into(alloc, query, no_backslash_escape, room);
    *report = outcome.report();
    outcome.number()
}

/// Binds the form's parameters to the query, and writes the text to the front of the room:
/// [`bind_into`](mysql_flat_params::bind_into).
///
/// Returns the number of an [`Outcome`](mysql_flat_params::Outcome):
///
/// - 0 (`Done`) with the length of the text in the report's `len`;
/// - 1 (`OutOfMemory`), but never for the empty form over a query with names and marks, or for a
///   form that is refused for its first parameter;
/// - 2 (`Room`) with the length that the room would need;
/// - 3 to 7 for a form that is refused;
/// - 8 to 14 for a query that is refused.
///
/// The report has the fields of the outcome, and 0 in all others. At each number except 0 the room
/// is as before. The flag is true if the connection's `sql_mode` has `NO_BACKSLASH_ESCAPES`.
#[unsafe(no_mangle)]
pub extern "C" fn mysql_params_bind(
    alloc: Global,
    query: &[u8],
    form: &[u8],
    no_backslash_escape: bool,
    room: &mut [u8],
    report: &mut Report,
) -> i32
    ensures outcome { IsTold result report.new
        (IsBindOutcome no_backslash_escape query.now form.now) }
    ensures written { result ≡ pos 0 →
        IsBoundForm no_backslash_escape query.now form.now (take report.new.len room.new) }

    // The empty form over a query with a name and a mark is refused without allocating.
    ensures mixed { form.now ≡ [] →
        IfMixed no_backslash_escape query.now (result ≡ pos 8) }

    // A form that is refused for its first parameter is refused without allocating.
    ensures memory { result ≡ pos 1 → (form.now ≡ []) ⊎ HasFirstParameter form.now }
    ensures rest { result ≡ pos 0 → (report.new.len ≤ length room.old)
        × (drop report.new.len room.new ≡ drop report.new.len room.old) }
    ensures too_long { result ≡ pos 2 → length room.old < report.new.len }
    ensures unchanged { result ≢ pos 0 → room.new ≡ room.old }
{
    let outcome = bind_into(alloc, query, form, no_backslash_escape, room);
    *report = outcome.report();
    outcome.number()
}

/// Binds the form's parameters to the query, and writes to the front of the room a text for any
/// server: [`bind_anywhere_into`](mysql_flat_params::bind_anywhere_into). The text is read the same
/// on any server, in every `sql_mode` and over every character set of a connection.
///
/// It returns the numbers of [`mysql_params_bind`] and two more, which come after those for a form
/// and before those for a query. 15 (`Unsteady`) is for a query with a backslash or a byte from 128
/// on, whose position is in the report. 16 (`Unportable`) is for a query that isn't portable. The
/// report then has the position of the construct and, in `byte`, the number that
/// [`mysql_params_first_unportable`] returns.
///
/// The empty form over such a query, or over a query with names and marks, never gives 1
/// (`OutOfMemory`), nor does a form that is refused for its first parameter. At each number except
/// 0 the room is as before.
#[unsafe(no_mangle)]
pub extern "C" fn mysql_params_bind_anywhere(
    alloc: Global,
    query: &[u8],
    form: &[u8],
    room: &mut [u8],
    report: &mut Report,
) -> i32
    ensures outcome { IsTold result report.new (IsAnywhereOutcome query.now form.now) }
    ensures written { result ≡ pos 0 →
        IsAnywhereForm query.now form.now (take report.new.len room.new) }

    // Over the empty form these are refused without allocating.
    ensures refused { (mode : Bool) → OnTokens mode query.now (λ ts. form.now ≡ [] →
        (told : outcome.Outcome) → anywhere_refusal query.now ts ≡ Some told →
        result ≡ pos (number_of told)) }
    ensures mixed { (mode : Bool) → OnTokens mode query.now (λ ts. form.now ≡ [] →
        anywhere_refusal query.now ts ≡ None → HasName ts × HasMark ts → result ≡ pos 8) }

    // A form that is refused for its first parameter is refused without allocating.
    ensures memory { result ≡ pos 1 → (form.now ≡ []) ⊎ HasFirstParameter form.now }
    ensures rest { result ≡ pos 0 → (report.new.len ≤ length room.old)
        × (drop report.new.len room.new ≡ drop report.new.len room.old) }
    ensures too_long { result ≡ pos 2 → length room.old < report.new.len }
    ensures unchanged { result ≢ pos 0 → room.new ≡ room.old }
{
    let outcome = bind_anywhere_into(alloc, query, form, room);
    *report = outcome.report();
    outcome.number()
}

/// Binds the form's parameters to the query, and writes to the front of the room a text for both
/// modes and any server: [`bind_in_both_modes_into`](mysql_flat_params::bind_in_both_modes_into).
/// The text is read the same on any server, in every `sql_mode`. The query may have bytes from 128
/// on. The connection's character set then has to be that of these bytes: utf8mb4 for UTF-8.
///
/// It returns the numbers of [`mysql_params_bind_anywhere`], with 18 (`Backslash`) in place of 15:
/// for a query with a backslash in a string, whose position is in the report. Everything else is
/// the same.
#[unsafe(no_mangle)]
pub extern "C" fn mysql_params_bind_in_both_modes(
    alloc: Global,
    query: &[u8],
    form: &[u8],
    room: &mut [u8],
    report: &mut Report,
) -> i32
    ensures outcome { IsTold result report.new (IsBothModesOutcome query.now form.now) }
    ensures written { result ≡ pos 0 →
        IsBothModesForm query.now form.now (take report.new.len room.new) }

    // Over the empty form these are refused without allocating.
    ensures refused { (mode : Bool) → OnTokens mode query.now (λ ts. form.now ≡ [] →
        (told : outcome.Outcome) → both_modes_refusal ts ≡ Some told →
        result ≡ pos (number_of told)) }
    ensures mixed { (mode : Bool) → OnTokens mode query.now (λ ts. form.now ≡ [] →
        both_modes_refusal ts ≡ None → HasName ts × HasMark ts → result ≡ pos 8) }

    // A form that is refused for its first parameter is refused without allocating.
    ensures memory { result ≡ pos 1 → (form.now ≡ []) ⊎ HasFirstParameter form.now }
    ensures rest { result ≡ pos 0 → (report.new.len ≤ length room.old)
        × (drop report.new.len room.new ≡ drop report.new.len room.old) }
    ensures too_long { result ≡ pos 2 → length room.old < report.new.len }
    ensures unchanged { result ≢ pos 0 → room.new ≡ room.old }
{
    let outcome = bind_in_both_modes_into(alloc, query, form, room);
    *report = outcome.report();
    outcome.number()
}

/// Binds the query, which is parsed once, to row after row, and writes the texts one after another,
/// each as a length-encoded string, to the front of the room:
/// [`bind_rows_into`](mysql_flat_params::bind_rows_into). The forms of the rows come one after
/// another, each as a length-encoded string.
///
/// Returns 0 (`Done`) if all rows are bound, with the length of all texts in the report's `len`.
/// Otherwise it returns the number of the [`Outcome`](mysql_flat_params::Outcome) of the row at
/// which it ends, and the report has that outcome's fields. For 2 (`Room`) `len` is the length of
/// this row's text as a length-encoded string. Either way `rows` has the number of rows that are
/// bound, and the lengths of their forms and of their texts. The room behind the texts is as
/// before. The flag is true if the connection's `sql_mode` has `NO_BACKSLASH_ESCAPES`.
#[unsafe(no_mangle)]
pub extern "C" fn mysql_params_bind_rows(
    alloc: Global,
    query: &[u8],
    forms: &[u8],
    no_backslash_escape: bool,
    room: &mut [u8],
    rows: &mut Rows,
    report: &mut Report,
) -> i32
    ensures rows { AreBoundRows no_backslash_escape query.now forms.now rows.new.count
        (take rows.new.written room.new) (drop rows.new.read forms.now) }
    ensures outcome { IsTold result report.new
        (IsRowsOutcome no_backslash_escape query.now (drop rows.new.read forms.now)) }
    ensures read { rows.new.read ≤ length forms.now }
    ensures done { result ≡ pos 0 → report.new.len ≡ rows.new.written }
    ensures too_long { result ≡ pos 2 → length room.old < rows.new.written + report.new.len }
    ensures rest { (rows.new.written ≤ length room.old)
        × (drop rows.new.written room.new ≡ drop rows.new.written room.old) }
{
    let (bound, outcome) = bind_rows_into(alloc, query, forms, no_backslash_escape, room);
    *rows = bound;
    *report = outcome.report();
    outcome.number()
}

/// Makes the table of the query's places, by which the query can be bound many times:
/// [`table_into`](mysql_flat_params::table_into).
///
/// Returns 0 (`Done`) with the number of places in the report's `len`. Then `head` is the head of
/// the table, and the first `len` items of the room are its places. It returns 2 (`Room`) with the
/// number of places in `len`, or, for a query with places, 1 (`OutOfMemory`). After both, head and
/// room are as before. The flag is true if the connection's `sql_mode` has `NO_BACKSLASH_ESCAPES`.
#[unsafe(no_mangle)]
pub extern "C" fn mysql_params_table(
    alloc: Global,
    query: &[u8],
    no_backslash_escape: bool,
    head: &mut TableHead,
    room: &mut [PlaceSpan],
    report: &mut Report,
) -> i32
    ensures outcome { IsTold result report.new (IsTableOutcome no_backslash_escape query.now) }
    ensures made { result ≡ pos 0 → IsMadeTable no_backslash_escape query.now head.new
        room.old room.new report.new.len }
    ensures too_long { result ≡ pos 2 → length room.old < report.new.len }
    ensures unchanged { result ≢ pos 0 → (head.new ≡ head.old) × (room.new ≡ room.old) }
{
    let outcome = table_into(alloc, query, no_backslash_escape, head, room);
    *report = outcome.report();
    outcome.number()
}

/// Binds the form's parameters to the query by the query's table, and writes the text to the front
/// of the room: [`bind_by_table_into`](mysql_flat_params::bind_by_table_into).
///
/// With the table that [`mysql_params_table`] made of this query with this flag, it returns the
/// number that [`mysql_params_bind`] returns, and the report has the same fields. With any other
/// table it returns 20 (`OtherTable`) if the query can't have it. Otherwise it returns any of those
/// numbers, or 20 for a missing name that the query doesn't have. It writes nothing behind the
/// text, and at each number except 0 the room is as before.
#[unsafe(no_mangle)]
pub extern "C" fn mysql_params_bind_template(
    alloc: Global,
    query: &[u8],
    head: &TableHead,
    places: &[PlaceSpan],
    form: &[u8],
    no_backslash_escape: bool,
    room: &mut [u8],
    report: &mut Report,
) -> i32
    ensures outcome { table.IsTold result report.new (λ told.
        IsTableOf head.now places.now no_backslash_escape query.now →
        IsTableBindOutcome no_backslash_escape query.now form.now told) }
    ensures written { IsTableOf head.now places.now no_backslash_escape query.now →
        result ≡ pos 0 →
        IsBoundForm no_backslash_escape query.now form.now (take report.new.len room.new) }

    // The empty form over a query with a name and a mark is refused without allocating.
    ensures mixed { IsTableOf head.now places.now no_backslash_escape query.now → form.now ≡ [] →
        IfMixed no_backslash_escape query.now (result ≡ pos 8) }

    // A form that is refused for its first parameter is refused without allocating.
    ensures memory { result ≡ pos 1 → (form.now ≡ []) ⊎ HasFirstParameter form.now }
    ensures rest { result ≡ pos 0 → (report.new.len ≤ length room.old)
        × (drop report.new.len room.new ≡ drop report.new.len room.old) }
    ensures too_long { result ≡ pos 2 → length room.old < report.new.len }
    ensures unchanged { result ≢ pos 0 → room.new ≡ room.old }
{
    let template = Template {
        query,
        no_backslash_escape,
        head: *head,
        places,
    };
    let outcome = bind_by_table_into(alloc, &template, form, room);
    *report = outcome.report();
    outcome.number()
}

/// Binds the form's fragments to the query, and writes the text to the front of the room:
/// [`bind_fragments_into`](mysql_flat_params::bind_fragments_into).
///
/// The form is that of [`mysql_params_bind`] with ten types more, for an exact number, a list,
/// rows, an identifier, a qualified one, a keyword, identifiers, assignments, an implicit list and
/// implicit rows ([`form_fragments`](mysql_flat_params::form_fragments)).
///
/// It returns the numbers of [`mysql_params_bind`], and after those for a query 17 (`Fault`) for a
/// fragment that can't be written. The report then has the fragment's place, the number of the
/// fault in `byte`, the row in `position`, and the item or the part of the name in `values`.
/// Between 13 (`NotAlone`) and 14 (`Float`) comes 21 (`Unbracketed`), with place and position: a
/// place may not have its implicit list or rows. Any other number may be 1 (`OutOfMemory`) instead,
/// except 8 (`Mixed`) with the empty form. At each number except 0 the room is as before. The flag
/// is true if the connection's `sql_mode` has `NO_BACKSLASH_ESCAPES`.
#[unsafe(no_mangle)]
pub extern "C" fn mysql_params_bind_fragments(
    alloc: Global,
    query: &[u8],
    form: &[u8],
    no_backslash_escape: bool,
    room: &mut [u8],
    report: &mut Report,
) -> i32
    ensures outcome { fragments_outcomes.IsTold result report.new
        (fragments.IsFragmentsOutcome no_backslash_escape query.now form.now) }
    ensures written { result ≡ pos 0 → fragments.IsBoundForm no_backslash_escape query.now
        form.now (take report.new.len room.new) }

    // The empty form over a query with a name and a mark is refused without allocating.
    ensures mixed { form.now ≡ [] →
        IfMixed no_backslash_escape query.now (result ≡ pos 8) }
    ensures rest { result ≡ pos 0 → (report.new.len ≤ length room.old)
        × (drop report.new.len room.new ≡ drop report.new.len room.old) }
    ensures too_long { result ≡ pos 2 → length room.old < report.new.len }
    ensures unchanged { result ≢ pos 0 → room.new ≡ room.old }
{
    let outcome = bind_fragments_into(alloc, query, form, no_backslash_escape, room);
    *report = outcome.report();
    outcome.number()
}

/// Binds the form's fragments to the query, and writes to the front of the room a text for any
/// server: [`bind_fragments_anywhere_into`](mysql_flat_params::bind_fragments_anywhere_into). The
/// text is read the same on any server, in every `sql_mode` and over every character set of a
/// connection.
///
/// It returns the numbers of [`mysql_params_bind_fragments`] and three more. 15 (`Unsteady`) and 16
/// (`Unportable`) come after those for a form and before those for a query, as in
/// [`mysql_params_bind_anywhere`]. 19 (`UnsteadyFragment`) comes after all others: a fragment has a
/// name with a backslash or a byte from 128 on, and the report has its place. At each number except
/// 0 the room is as before.
#[unsafe(no_mangle)]
pub extern "C" fn mysql_params_bind_fragments_anywhere(
    alloc: Global,
    query: &[u8],
    form: &[u8],
    room: &mut [u8],
    report: &mut Report,
) -> i32
    ensures outcome { fragments_outcomes.IsTold result report.new
        (anywhere_fragments.IsAnywhereOutcome query.now form.now) }
    ensures written { result ≡ pos 0 → anywhere_fragments.IsAnywhereForm query.now form.now
        (take report.new.len room.new) }
    ensures rest { result ≡ pos 0 → (report.new.len ≤ length room.old)
        × (drop report.new.len room.new ≡ drop report.new.len room.old) }
    ensures too_long { result ≡ pos 2 → length room.old < report.new.len }
    ensures unchanged { result ≢ pos 0 → room.new ≡ room.old }
{
    let outcome = bind_fragments_anywhere_into(alloc, query, form, room);
    *report = outcome.report();
    outcome.number()
}

/// Finds the first construct of the query that servers read in different ways, or in which a value
/// would join a number: [`report_first_unportable`].
///
/// Returns 0 if and only if there is none: then the query is portable. Otherwise it returns the
/// number of the [`Construct`](mysql_portable::portable::Construct), 1 to 9, 19 or 20 in the order
/// of its declaration, and the report has its position in the query. All other fields of the report
/// are 0. Nothing is allocated. The flag is true if the connection's `sql_mode` has
/// `NO_BACKSLASH_ESCAPES`.
#[unsafe(no_mangle)]
pub extern "C" fn mysql_params_first_unportable(
    query: &[u8],
    no_backslash_escape: bool,
    report: &mut Report,
) -> i32
    ensures number { OnTokens no_backslash_escape query.now (λ ts.
        result ≡ pos (unportable_number (first_unportable ts))) }
    ensures report { OnTokens no_backslash_escape query.now (λ ts.
        report.new ≡ unportable_report (first_unportable ts)) }
    ensures portable { OnTokens no_backslash_escape query.now (λ ts.
        (result ≡ pos 0) ↔ IsPortable ts) }
{
    report_first_unportable(query, no_backslash_escape, report)
}

/// Finds the first construct for which the query isn't portable, or which a client that keeps
/// comments reads or sends in another way: [`report_first_unportable_in_client`].
///
/// Returns 0 if and only if there is none. Otherwise it returns the number of the
/// [`Construct`](mysql_portable::portable::Construct), 1 to 20 in the order of its declaration, and
/// the report has its position in the query. All other fields of the report are 0. Nothing is
/// allocated. The flag is true if the connection's `sql_mode` has `NO_BACKSLASH_ESCAPES`.
#[unsafe(no_mangle)]
pub extern "C" fn mysql_params_first_unportable_in_client(
    query: &[u8],
    no_backslash_escape: bool,
    report: &mut Report,
) -> i32
    ensures number { OnTokens no_backslash_escape query.now (λ ts.
        result ≡ pos (unportable_number (first_unportable_in_client ts))) }
    ensures report { OnTokens no_backslash_escape query.now (λ ts.
        report.new ≡ unportable_report (first_unportable_in_client ts)) }
    ensures portable { OnTokens no_backslash_escape query.now (λ ts.
        (result ≡ pos 0) ↔ IsPortableInClient ts) }
{
    report_first_unportable_in_client(query, no_backslash_escape, report)
}
