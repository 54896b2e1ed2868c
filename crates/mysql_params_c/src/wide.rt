//! Exports for queries with wide names, which may have capitals.
ghost use Rattle.std.specs.Prelude.{◌≡◌, ◌≢◌, ◌⊎◌, ◌↔◌, ◌+◌, ◌≤◌, ◌<◌, ℕ, Bool, true, [], Some, None, length, take, drop, pos};
ghost use Rattle.mysql_flat_params.specs.AnywhereTable.{IsAnywhereBindOutcome, IsAnywhereTableOf, IsAnywhereTableOutcome, IsGuardedBindOutcome, IsMadeAnywhereTable};
ghost use Rattle.mysql_flat_params.specs.BoundRows.{AreBoundRowsIn, IsRowsOutcomeIn};
ghost use Rattle.mysql_flat_params.specs.FlatForm.{HasFirstParameter};
ghost use Rattle.mysql_flat_params.specs.FragmentsAnywhereIntoRoom as anywhere_fragments;
ghost use Rattle.mysql_flat_params.specs.FragmentsIntoRoom as fragments;
ghost use Rattle.mysql_flat_params.specs.FragmentsOutcomes as fragments_outcomes;
ghost use Rattle.mysql_flat_params.specs.GuardedIntoRoom.{IsWideGuardedForm};
ghost use Rattle.mysql_flat_params.specs.IntoRoom.{IfMixedIn, IsBindOutcomeIn, IsBoundFormIn, IsNamesAnswerIn, IsNamesOutcomeIn};
ghost use Rattle.mysql_flat_params.specs.Outcomes.{IsTold, number_of};
ghost use Rattle.mysql_flat_params.specs.PlaceTable as table;
ghost use Rattle.mysql_flat_params.specs.PlaceTable.{IsMadeTableIn, IsTableBindOutcomeIn, IsTableOfIn, IsTableOutcomeIn};
ghost use Rattle.mysql_flat_params.specs.UnportableReport.{unportable_number, unportable_report};
ghost use Rattle.mysql_flat_params.specs.WideSteadyIntoRoom.{IsWideAnywhereForm, IsWideAnywhereOutcome, IsWideBothModesForm, IsWideBothModesOutcome, wide_anywhere_refusal, wide_both_modes_refusal};
ghost use Rattle.mysql_flat_params.specs.declared.outcome.Outcome as outcome;
ghost use Rattle.mysql_named_params.specs.LoweredNames.{lower_names};
ghost use Rattle.mysql_named_params.specs.Places.{marks, names, HasMark, HasName};
ghost use Rattle.mysql_named_params.specs.Reading.{OnWideTokens, wide_reading};
ghost use Rattle.mysql_portable.specs.FirstUnportable.{first_unportable};
ghost use Rattle.mysql_portable.specs.FirstUnportableInClient.{first_unportable_in_client, IsPortableInClient};
ghost use Rattle.mysql_portable.specs.Portable.{IsPortable};
ghost use Rattle.mysql_portable.specs.Steady.{first_unsteady};
ghost use Rattle.mysql_steady_text.specs.FirstBackslash.{first_backslash};

use mysql_flat_params::{
    AnywhereTemplate, PlaceSpan, ReadTemplate, Reading, Report, Rows, TableHead,
    bind_by_table_into_read, bind_fragments_into_read, bind_into_read, bind_rows_into_read,
    bind_wide_anywhere_by_table_into, bind_wide_anywhere_into, bind_wide_fragments_anywhere_into,
    bind_wide_fragments_guarded_into, bind_wide_guarded_by_table_into,
    bind_wide_in_both_modes_into, names_into_read, report_first_unportable_in_client_wide,
    report_first_unportable_wide, table_into_read, wide_anywhere_table_into,
};
use std::alloc::Global;

/// [`mysql_params_names`](crate::mysql_params_names) by wide names, which may have capitals:
/// [`names_into_read`](mysql_flat_params::names_into_read).
///
/// Numbers and report are the same.
#[unsafe(no_mangle)]
pub extern "C" fn mysql_params_names_wide(
    alloc: Global,
    query: &[u8],
    no_backslash_escape: bool,
    room: &mut [u8],
    report: &mut Report,
) -> i32
    ensures outcome { IsTold result report.new
        (IsNamesOutcomeIn (wide_reading no_backslash_escape) query.now) }
    ensures written { result ≡ pos 0 →
        IsNamesAnswerIn (wide_reading no_backslash_escape) query.now
        (take report.new.len room.new) }

    // A query with a name and a mark is refused without allocating.
    ensures mixed { IfMixedIn (wide_reading no_backslash_escape) query.now (result ≡ pos 8) }

    // Only a query with names and without marks allocates.
    ensures memory { OnWideTokens no_backslash_escape query.now (λ ts.
        result ≡ pos 1 → HasName ts × (marks ts ≡ 0)) }
    ensures short_room { result ≡ pos 1 → length query.now < length room.old }
    ensures rest { result ≡ pos 0 → (report.new.len ≤ length room.old)
        × (drop report.new.len room.new ≡ drop report.new.len room.old) }
    ensures too_long { result ≡ pos 2 → length room.old < report.new.len }
    ensures unchanged { result ≢ pos 0 → room.new ≡ room.old }
{
    let reading = Reading {
        no_backslash_escape,
        wide_names: true,
    };
    let outcome = names_into_read(alloc, query, reading, room);
    *report = outcome.report();
    outcome.number()
}

/// [`mysql_params_bind`](crate::mysql_params_bind) by wide names, which may have capitals:
/// [`bind_into_read`](mysql_flat_params::bind_into_read).
///
/// Numbers and report are the same.
#[unsafe(no_mangle)]
pub extern "C" fn mysql_params_bind_wide(
    alloc: Global,
    query: &[u8],
    form: &[u8],
    no_backslash_escape: bool,
    room: &mut [u8],
    report: &mut Report,
) -> i32
    ensures outcome { IsTold result report.new
        (IsBindOutcomeIn (wide_reading no_backslash_escape) query.now form.now) }
    ensures written { result ≡ pos 0 →
        IsBoundFormIn (wide_reading no_backslash_escape) query.now form.now
        (take report.new.len room.new) }

    // The empty form over a query with a name and a mark is refused without allocating.
    ensures mixed { form.now ≡ [] →
        IfMixedIn (wide_reading no_backslash_escape) query.now (result ≡ pos 8) }

    // A form that is refused for its first parameter is refused without allocating.
    ensures memory { result ≡ pos 1 → (form.now ≡ []) ⊎ HasFirstParameter form.now }
    ensures rest { result ≡ pos 0 → (report.new.len ≤ length room.old)
        × (drop report.new.len room.new ≡ drop report.new.len room.old) }
    ensures too_long { result ≡ pos 2 → length room.old < report.new.len }
    ensures unchanged { result ≢ pos 0 → room.new ≡ room.old }
{
    let reading = Reading {
        no_backslash_escape,
        wide_names: true,
    };
    let outcome = bind_into_read(alloc, query, form, reading, room);
    *report = outcome.report();
    outcome.number()
}

/// [`mysql_params_bind_rows`](crate::mysql_params_bind_rows) by wide names, which may have
/// capitals: [`bind_rows_into_read`](mysql_flat_params::bind_rows_into_read).
///
/// Numbers, rows and report are the same.
#[unsafe(no_mangle)]
pub extern "C" fn mysql_params_bind_rows_wide(
    alloc: Global,
    query: &[u8],
    forms: &[u8],
    no_backslash_escape: bool,
    room: &mut [u8],
    rows: &mut Rows,
    report: &mut Report,
) -> i32
    ensures rows { AreBoundRowsIn (wide_reading no_backslash_escape) query.now forms.now
        rows.new.count (take rows.new.written room.new) (drop rows.new.read forms.now) }
    ensures outcome { IsTold result report.new
        (IsRowsOutcomeIn (wide_reading no_backslash_escape) query.now
        (drop rows.new.read forms.now)) }
    ensures read { rows.new.read ≤ length forms.now }
    ensures done { result ≡ pos 0 → report.new.len ≡ rows.new.written }
    ensures too_long { result ≡ pos 2 → length room.old < rows.new.written + report.new.len }
    ensures rest { (rows.new.written ≤ length room.old)
        × (drop rows.new.written room.new ≡ drop rows.new.written room.old) }
{
    let reading = Reading {
        no_backslash_escape,
        wide_names: true,
    };
    let (bound, outcome) = bind_rows_into_read(alloc, query, forms, reading, room);
    *rows = bound;
    *report = outcome.report();
    outcome.number()
}

/// [`mysql_params_table`](crate::mysql_params_table) by wide names, which may have capitals:
/// [`table_into_read`](mysql_flat_params::table_into_read). Bind by the table with
/// [`mysql_params_bind_template_wide`].
///
/// Numbers and report are the same.
#[unsafe(no_mangle)]
pub extern "C" fn mysql_params_table_wide(
    alloc: Global,
    query: &[u8],
    no_backslash_escape: bool,
    head: &mut TableHead,
    room: &mut [PlaceSpan],
    report: &mut Report,
) -> i32
    ensures outcome { IsTold result report.new
        (IsTableOutcomeIn (wide_reading no_backslash_escape) query.now) }
    ensures made { result ≡ pos 0 →
        IsMadeTableIn (wide_reading no_backslash_escape) query.now head.new room.old room.new
        report.new.len }
    ensures too_long { result ≡ pos 2 → length room.old < report.new.len }
    ensures unchanged { result ≢ pos 0 → (head.new ≡ head.old) × (room.new ≡ room.old) }
{
    let reading = Reading {
        no_backslash_escape,
        wide_names: true,
    };
    let outcome = table_into_read(alloc, query, reading, head, room);
    *report = outcome.report();
    outcome.number()
}

/// [`mysql_params_bind_template`](crate::mysql_params_bind_template) by the table that
/// [`mysql_params_table_wide`] made of the query:
/// [`bind_by_table_into_read`](mysql_flat_params::bind_by_table_into_read).
///
/// Numbers and report are the same.
#[unsafe(no_mangle)]
pub extern "C" fn mysql_params_bind_template_wide(
    alloc: Global,
    query: &[u8],
    head: &TableHead,
    places: &[PlaceSpan],
    form: &[u8],
    no_backslash_escape: bool,
    room: &mut [u8],
    report: &mut Report,
) -> i32
    ensures outcome { table.IsTold result report.new (λ told.
        IsTableOfIn head.now places.now (wide_reading no_backslash_escape) query.now →
        IsTableBindOutcomeIn (wide_reading no_backslash_escape) query.now form.now told) }
    ensures written { IsTableOfIn head.now places.now (wide_reading no_backslash_escape) query.now →
        result ≡ pos 0 →
        IsBoundFormIn (wide_reading no_backslash_escape) query.now form.now
        (take report.new.len room.new) }

    // The empty form over a query with a name and a mark is refused without allocating.
    ensures mixed { IsTableOfIn head.now places.now (wide_reading no_backslash_escape) query.now →
        form.now ≡ [] →
        IfMixedIn (wide_reading no_backslash_escape) query.now (result ≡ pos 8) }

    // A form that is refused for its first parameter is refused without allocating.
    ensures memory { result ≡ pos 1 → (form.now ≡ []) ⊎ HasFirstParameter form.now }
    ensures rest { result ≡ pos 0 → (report.new.len ≤ length room.old)
        × (drop report.new.len room.new ≡ drop report.new.len room.old) }
    ensures too_long { result ≡ pos 2 → length room.old < report.new.len }
    ensures unchanged { result ≢ pos 0 → room.new ≡ room.old }
{
    let reading = Reading {
        no_backslash_escape,
        wide_names: true,
    };
    let template = ReadTemplate {
        query,
        reading,
        head: *head,
        places,
    };
    let outcome = bind_by_table_into_read(alloc, &template, form, room);
    *report = outcome.report();
    outcome.number()
}

/// [`mysql_params_bind_fragments`](crate::mysql_params_bind_fragments) by wide names, which may
/// have capitals: [`bind_fragments_into_read`](mysql_flat_params::bind_fragments_into_read).
///
/// Numbers and report are the same.
#[unsafe(no_mangle)]
pub extern "C" fn mysql_params_bind_fragments_wide(
    alloc: Global,
    query: &[u8],
    form: &[u8],
    no_backslash_escape: bool,
    room: &mut [u8],
    report: &mut Report,
) -> i32
    ensures outcome { fragments_outcomes.IsTold result report.new
        (fragments.IsFragmentsOutcomeIn (wide_reading no_backslash_escape) query.now form.now) }
    ensures written { result ≡ pos 0 →
        fragments.IsBoundFormIn (wide_reading no_backslash_escape) query.now form.now
        (take report.new.len room.new) }

    // The empty form over a query with a name and a mark is refused without allocating.
    ensures mixed { form.now ≡ [] →
        IfMixedIn (wide_reading no_backslash_escape) query.now (result ≡ pos 8) }
    ensures rest { result ≡ pos 0 → (report.new.len ≤ length room.old)
        × (drop report.new.len room.new ≡ drop report.new.len room.old) }
    ensures too_long { result ≡ pos 2 → length room.old < report.new.len }
    ensures unchanged { result ≢ pos 0 → room.new ≡ room.old }
{
    let reading = Reading {
        no_backslash_escape,
        wide_names: true,
    };
    let outcome = bind_fragments_into_read(alloc, query, form, reading, room);
    *report = outcome.report();
    outcome.number()
}

/// [`mysql_params_bind_anywhere`](crate::mysql_params_bind_anywhere) by wide names:
/// [`bind_wide_anywhere_into`](mysql_flat_params::bind_wide_anywhere_into).
///
/// Numbers, report and room are the same.
#[unsafe(no_mangle)]
pub extern "C" fn mysql_params_bind_anywhere_wide(
    alloc: Global,
    query: &[u8],
    form: &[u8],
    room: &mut [u8],
    report: &mut Report,
) -> i32
    ensures outcome { IsTold result report.new (IsWideAnywhereOutcome query.now form.now) }
    ensures written { result ≡ pos 0 →
        IsWideAnywhereForm query.now form.now (take report.new.len room.new) }

    // Over the empty form these are refused without allocating.
    ensures unsteady { (at : ℕ) → form.now ≡ [] → first_unsteady query.now ≡ Some at →
        result ≡ pos 15 }
    ensures refused { (mode : Bool) → OnWideTokens mode query.now (λ ts. form.now ≡ [] →
        (told : outcome.Outcome) → wide_anywhere_refusal query.now ts ≡ Some told →
        result ≡ pos (number_of told)) }
    ensures mixed { (mode : Bool) → OnWideTokens mode query.now (λ ts. form.now ≡ [] →
        wide_anywhere_refusal query.now ts ≡ None →
        HasName ts × HasMark ts → result ≡ pos 8) }

    // A form that is refused for its first parameter is refused without allocating.
    ensures memory { result ≡ pos 1 → (form.now ≡ []) ⊎ HasFirstParameter form.now }
    ensures rest { result ≡ pos 0 → (report.new.len ≤ length room.old)
        × (drop report.new.len room.new ≡ drop report.new.len room.old) }
    ensures too_long { result ≡ pos 2 → length room.old < report.new.len }
    ensures unchanged { result ≢ pos 0 → room.new ≡ room.old }
{
    let outcome = bind_wide_anywhere_into(alloc, query, form, room);
    *report = outcome.report();
    outcome.number()
}

/// [`mysql_params_table_wide`] of a query that [`mysql_params_bind_anywhere_wide`] binds:
/// [`wide_anywhere_table_into`](mysql_flat_params::wide_anywhere_table_into). Bind by the table
/// with [`mysql_params_bind_template_anywhere_wide`].
///
/// Numbers, report, head and room are the same, except that 15 (`Unsteady`) and 16 (`Unportable`)
/// come first, with the reports of [`mysql_params_bind_anywhere_wide`].
#[unsafe(no_mangle)]
pub extern "C" fn mysql_params_table_anywhere_wide(
    alloc: Global,
    query: &[u8],
    head: &mut TableHead,
    room: &mut [PlaceSpan],
    report: &mut Report,
) -> i32
    ensures outcome { IsTold result report.new (IsAnywhereTableOutcome query.now) }

    // These are refused without allocating.
    ensures unsteady { (at : ℕ) → first_unsteady query.now ≡ Some at → result ≡ pos 15 }
    ensures refused { (mode : Bool) → OnWideTokens mode query.now (λ ts.
        (told : outcome.Outcome) → wide_anywhere_refusal query.now ts ≡ Some told →
        result ≡ pos (number_of told)) }
    ensures made { result ≡ pos 0 →
        IsMadeAnywhereTable query.now head.new room.old room.new report.new.len }
    ensures too_long { result ≡ pos 2 → length room.old < report.new.len }
    ensures unchanged { result ≢ pos 0 → (head.new ≡ head.old) × (room.new ≡ room.old) }
{
    let outcome = wide_anywhere_table_into(alloc, query, head, room);
    *report = outcome.report();
    outcome.number()
}

/// [`mysql_params_bind_anywhere_wide`] by the table that [`mysql_params_table_anywhere_wide`] made
/// of the query:
/// [`bind_wide_anywhere_by_table_into`](mysql_flat_params::bind_wide_anywhere_by_table_into).
///
/// Numbers, report and room are the same. With any other table it does what
/// [`mysql_params_bind_template_wide`] does with another.
#[unsafe(no_mangle)]
pub extern "C" fn mysql_params_bind_template_anywhere_wide(
    alloc: Global,
    query: &[u8],
    head: &TableHead,
    places: &[PlaceSpan],
    form: &[u8],
    room: &mut [u8],
    report: &mut Report,
) -> i32
    ensures outcome { table.IsTold result report.new (λ told.
        IsAnywhereTableOf head.now places.now query.now →
        IsAnywhereBindOutcome query.now form.now told) }
    ensures written { IsAnywhereTableOf head.now places.now query.now → result ≡ pos 0 →
        IsWideAnywhereForm query.now form.now (take report.new.len room.new) }

    // The empty form over a query with a name and a mark is refused without allocating.
    ensures mixed { IsAnywhereTableOf head.now places.now query.now → form.now ≡ [] →
        IfMixedIn (wide_reading true) query.now (result ≡ pos 8) }

    // A form that is refused for its first parameter is refused without allocating.
    ensures memory { result ≡ pos 1 → (form.now ≡ []) ⊎ HasFirstParameter form.now }
    ensures rest { result ≡ pos 0 → (report.new.len ≤ length room.old)
        × (drop report.new.len room.new ≡ drop report.new.len room.old) }
    ensures too_long { result ≡ pos 2 → length room.old < report.new.len }
    ensures unchanged { result ≢ pos 0 → room.new ≡ room.old }
{
    let template = AnywhereTemplate {
        query,
        head: *head,
        places,
    };
    let outcome = bind_wide_anywhere_by_table_into(alloc, &template, form, room);
    *report = outcome.report();
    outcome.number()
}

/// [`mysql_params_bind_template_anywhere_wide`] with guarded literals for a mode:
/// [`bind_wide_guarded_by_table_into`](mysql_flat_params::bind_wide_guarded_by_table_into).
///
/// Tables, numbers, report and room are the same.
#[unsafe(no_mangle)]
pub extern "C" fn mysql_params_bind_template_guarded_wide(
    alloc: Global,
    query: &[u8],
    head: &TableHead,
    places: &[PlaceSpan],
    form: &[u8],
    no_backslash_escape: bool,
    room: &mut [u8],
    report: &mut Report,
) -> i32
    ensures outcome { table.IsTold result report.new (λ told.
        IsAnywhereTableOf head.now places.now query.now →
        IsGuardedBindOutcome no_backslash_escape query.now form.now told) }
    ensures written { IsAnywhereTableOf head.now places.now query.now → result ≡ pos 0 →
        IsWideGuardedForm no_backslash_escape query.now form.now (take report.new.len room.new) }

    // The empty form over a query with a name and a mark is refused without allocating.
    ensures mixed { IsAnywhereTableOf head.now places.now query.now → form.now ≡ [] →
        IfMixedIn (wide_reading true) query.now (result ≡ pos 8) }

    // A form that is refused for its first parameter is refused without allocating.
    ensures memory { result ≡ pos 1 → (form.now ≡ []) ⊎ HasFirstParameter form.now }
    ensures rest { result ≡ pos 0 → (report.new.len ≤ length room.old)
        × (drop report.new.len room.new ≡ drop report.new.len room.old) }
    ensures too_long { result ≡ pos 2 → length room.old < report.new.len }
    ensures unchanged { result ≢ pos 0 → room.new ≡ room.old }
{
    let template = AnywhereTemplate {
        query,
        head: *head,
        places,
    };
    let outcome = bind_wide_guarded_by_table_into(
        alloc,
        &template,
        form,
        no_backslash_escape,
        room,
    );
    *report = outcome.report();
    outcome.number()
}

/// [`mysql_params_bind_in_both_modes`](crate::mysql_params_bind_in_both_modes) by wide names:
/// [`bind_wide_in_both_modes_into`](mysql_flat_params::bind_wide_in_both_modes_into).
///
/// Numbers, report and room are the same.
#[unsafe(no_mangle)]
pub extern "C" fn mysql_params_bind_in_both_modes_wide(
    alloc: Global,
    query: &[u8],
    form: &[u8],
    room: &mut [u8],
    report: &mut Report,
) -> i32
    ensures outcome { IsTold result report.new (IsWideBothModesOutcome query.now form.now) }
    ensures written { result ≡ pos 0 →
        IsWideBothModesForm query.now form.now (take report.new.len room.new) }

    // Over the empty form these are refused without allocating.
    ensures backslash { (mode : Bool) → OnWideTokens mode query.now (λ ts. (at : ℕ) →
        form.now ≡ [] → first_backslash ts ≡ Some at → result ≡ pos 18) }
    ensures refused { (mode : Bool) → OnWideTokens mode query.now (λ ts. form.now ≡ [] →
        (told : outcome.Outcome) → wide_both_modes_refusal ts ≡ Some told →
        result ≡ pos (number_of told)) }
    ensures mixed { (mode : Bool) → OnWideTokens mode query.now (λ ts. form.now ≡ [] →
        wide_both_modes_refusal ts ≡ None →
        HasName ts × HasMark ts → result ≡ pos 8) }

    // A form that is refused for its first parameter is refused without allocating.
    ensures memory { result ≡ pos 1 → (form.now ≡ []) ⊎ HasFirstParameter form.now }
    ensures rest { result ≡ pos 0 → (report.new.len ≤ length room.old)
        × (drop report.new.len room.new ≡ drop report.new.len room.old) }
    ensures too_long { result ≡ pos 2 → length room.old < report.new.len }
    ensures unchanged { result ≢ pos 0 → room.new ≡ room.old }
{
    let outcome = bind_wide_in_both_modes_into(alloc, query, form, room);
    *report = outcome.report();
    outcome.number()
}

/// [`mysql_params_bind_fragments_anywhere`](crate::mysql_params_bind_fragments_anywhere) by wide
/// names:
/// [`bind_wide_fragments_anywhere_into`](mysql_flat_params::bind_wide_fragments_anywhere_into).
///
/// Numbers, report and room are the same.
#[unsafe(no_mangle)]
pub extern "C" fn mysql_params_bind_fragments_anywhere_wide(
    alloc: Global,
    query: &[u8],
    form: &[u8],
    room: &mut [u8],
    report: &mut Report,
) -> i32
    ensures outcome { fragments_outcomes.IsTold result report.new
        (anywhere_fragments.IsWideAnywhereOutcome query.now form.now) }
    ensures written { result ≡ pos 0 → anywhere_fragments.IsWideAnywhereForm query.now form.now
        (take report.new.len room.new) }
    ensures rest { result ≡ pos 0 → (report.new.len ≤ length room.old)
        × (drop report.new.len room.new ≡ drop report.new.len room.old) }
    ensures too_long { result ≡ pos 2 → length room.old < report.new.len }
    ensures unchanged { result ≢ pos 0 → room.new ≡ room.old }
{
    let outcome = bind_wide_fragments_anywhere_into(alloc, query, form, room);
    *report = outcome.report();
    outcome.number()
}

/// [`mysql_params_bind_fragments_anywhere_wide`] with guarded literals for a mode:
/// [`bind_wide_fragments_guarded_into`](mysql_flat_params::bind_wide_fragments_guarded_into).
///
/// Numbers, report and room are the same.
#[unsafe(no_mangle)]
pub extern "C" fn mysql_params_bind_fragments_guarded_wide(
    alloc: Global,
    query: &[u8],
    form: &[u8],
    no_backslash_escape: bool,
    room: &mut [u8],
    report: &mut Report,
) -> i32
    ensures outcome { fragments_outcomes.IsTold result report.new
        (anywhere_fragments.IsWideGuardedOutcome no_backslash_escape query.now form.now) }
    ensures written { result ≡ pos 0 →
        anywhere_fragments.IsWideGuardedForm no_backslash_escape query.now form.now
        (take report.new.len room.new) }
    ensures rest { result ≡ pos 0 → (report.new.len ≤ length room.old)
        × (drop report.new.len room.new ≡ drop report.new.len room.old) }
    ensures too_long { result ≡ pos 2 → length room.old < report.new.len }
    ensures unchanged { result ≢ pos 0 → room.new ≡ room.old }
{
    let outcome = bind_wide_fragments_guarded_into(alloc, query, form, no_backslash_escape, room);
    *report = outcome.report();
    outcome.number()
}

/// [`mysql_params_first_unportable`](crate::mysql_params_first_unportable) for a query with wide
/// names: [`report_first_unportable_wide`].
///
/// Number and report are the same.
#[unsafe(no_mangle)]
pub extern "C" fn mysql_params_first_unportable_wide(
    query: &[u8],
    no_backslash_escape: bool,
    report: &mut Report,
) -> i32
    ensures number { OnWideTokens no_backslash_escape query.now (λ ts.
        result ≡ pos (unportable_number (first_unportable (lower_names ts)))) }
    ensures report { OnWideTokens no_backslash_escape query.now (λ ts.
        report.new ≡ unportable_report (first_unportable (lower_names ts))) }
    ensures portable { OnWideTokens no_backslash_escape query.now (λ ts.
        (result ≡ pos 0) ↔ IsPortable (lower_names ts)) }
{
    report_first_unportable_wide(query, no_backslash_escape, report)
}

/// [`mysql_params_first_unportable_in_client`](crate::mysql_params_first_unportable_in_client) for
/// a query with wide names: [`report_first_unportable_in_client_wide`].
///
/// Number and report are the same.
#[unsafe(no_mangle)]
pub extern "C" fn mysql_params_first_unportable_in_client_wide(
    query: &[u8],
    no_backslash_escape: bool,
    report: &mut Report,
) -> i32
    ensures number { OnWideTokens no_backslash_escape query.now (λ ts.
        result ≡ pos (unportable_number (first_unportable_in_client (lower_names ts)))) }
    ensures report { OnWideTokens no_backslash_escape query.now (λ ts.
        report.new ≡ unportable_report (first_unportable_in_client (lower_names ts))) }
    ensures portable { OnWideTokens no_backslash_escape query.now (λ ts.
        (result ≡ pos 0) ↔ IsPortableInClient (lower_names ts)) }
{
    report_first_unportable_in_client_wide(query, no_backslash_escape, report)
}
