//! The first construct for which a query isn't portable, as a number and a report.
ghost use Rattle.std.specs.Prelude.{◌≡◌, ◌↔◌, pos, None};
ghost use Rattle.mysql_named_params.specs.LoweredNames.{lower_names};
ghost use Rattle.mysql_named_params.specs.Reading.{OnWideTokens};
ghost use Rattle.mysql_named_params.specs.Tokens.{OnTokens};
ghost use Rattle.mysql_portable.specs.FirstUnportable.{first_unportable};
ghost use Rattle.mysql_portable.specs.FirstUnportableInClient.{first_unportable_in_client, IsPortableInClient};
ghost use Rattle.mysql_portable.specs.Portable.{IsPortable};
ghost use Rattle.mysql_flat_params.specs.UnportableReport.{construct_number, unportable_number, unportable_report};

use crate::outcome::{NO_FIELDS, Report};
use mysql_named_params::places::Reading;
use mysql_portable::client::first_unportable_in_client;
use mysql_portable::portable::{Construct, Unportable, first_unportable};
use mysql_portable::wide::{first_unportable_in, first_unportable_in_client_in};

/// Finds the first construct for which a query isn't portable, as [`first_unportable`] does in a
/// mode. It returns the number of the construct, and writes its position to the report. It returns
/// 0 if and only if the query is portable. Then the position is 0 too.
///
/// The numbers are 1 for [`Construct::ExecutableComment`], and then in the order of the
/// declaration up to 9, 19 and 20. All other fields of the report are 0. Nothing is allocated.
pub fn report_first_unportable(query: &[u8], no_backslash_escape: bool, report: &mut Report) -> i32
    ensures number { OnTokens no_backslash_escape query.now (λ ts.
        result ≡ pos (unportable_number (first_unportable ts))) }
    ensures report { OnTokens no_backslash_escape query.now (λ ts.
        report.new ≡ unportable_report (first_unportable ts)) }
    ensures portable { OnTokens no_backslash_escape query.now (λ ts.
        (result ≡ pos 0) ↔ IsPortable ts) }
{
    number_and_report(first_unportable(query, no_backslash_escape), report)
}

/// Finds the first construct for which a query isn't portable on servers and in a client that keeps
/// comments, as [`first_unportable_in_client`] does in a mode. It is reported as by
/// [`report_first_unportable`]. It returns 0 if and only if there is none.
///
/// The numbers are 1 for [`Construct::ExecutableComment`], and then in the order of the
/// declaration up to 20.
pub fn report_first_unportable_in_client(
    query: &[u8],
    no_backslash_escape: bool,
    report: &mut Report,
) -> i32
    ensures number { OnTokens no_backslash_escape query.now (λ ts.
        result ≡ pos (unportable_number (first_unportable_in_client ts))) }
    ensures report { OnTokens no_backslash_escape query.now (λ ts.
        report.new ≡ unportable_report (first_unportable_in_client ts)) }
    ensures portable { OnTokens no_backslash_escape query.now (λ ts.
        (result ≡ pos 0) ↔ IsPortableInClient ts) }
{
    number_and_report(
        first_unportable_in_client(query, no_backslash_escape),
        report,
    )
}

/// [`report_first_unportable`] of a query with wide names, as [`first_unportable_in`] finds it.
pub fn report_first_unportable_wide(
    query: &[u8],
    no_backslash_escape: bool,
    report: &mut Report,
) -> i32
    ensures number { OnWideTokens no_backslash_escape query.now (λ ts.
        result ≡ pos (unportable_number (first_unportable (lower_names ts)))) }
    ensures report { OnWideTokens no_backslash_escape query.now (λ ts.
        report.new ≡ unportable_report (first_unportable (lower_names ts))) }
    ensures portable { OnWideTokens no_backslash_escape query.now (λ ts.
        (result ≡ pos 0) ↔ IsPortable (lower_names ts)) }
{
    let reading = Reading {
        no_backslash_escape,
        wide_names: true,
    };
    number_and_report(first_unportable_in(query, reading), report)
}

/// [`report_first_unportable_in_client`] of a query with wide names, as
/// [`first_unportable_in_client_in`] finds it.
pub fn report_first_unportable_in_client_wide(
    query: &[u8],
    no_backslash_escape: bool,
    report: &mut Report,
) -> i32
    ensures number { OnWideTokens no_backslash_escape query.now (λ ts.
        result ≡ pos (unportable_number (first_unportable_in_client (lower_names ts)))) }
    ensures report { OnWideTokens no_backslash_escape query.now (λ ts.
        report.new ≡ unportable_report (first_unportable_in_client (lower_names ts))) }
    ensures portable { OnWideTokens no_backslash_escape query.now (λ ts.
        (result ≡ pos 0) ↔ IsPortableInClient (lower_names ts)) }
{
    let reading = Reading {
        no_backslash_escape,
        wide_names: true,
    };
    number_and_report(first_unportable_in_client_in(query, reading), report)
}

// The number of the construct that was found, and its report; 0 and zeros if none was.
fn number_and_report(found: Option<Unportable>, report: &mut Report) -> i32
    ensures number { result ≡ pos (unportable_number found) }
    ensures report { report.new ≡ unportable_report found }
    ensures none { (result ≡ pos 0) ↔ (found ≡ None) }
{
    match found {
        None => {
            *report = NO_FIELDS;
            0
        }
        Some(found) => {
            *report = Report {
                position: found.at,
                ..NO_FIELDS
            };
            construct_number(found.construct) as i32
        }
    }
}

/// The number of a construct: 1 for [`Construct::ExecutableComment`], and then in the order of the
/// declaration up to 20.
pub fn construct_number(construct: Construct) -> u8
    ensures { result ≡ construct_number construct }
{
    match construct {
        Construct::ExecutableComment => 1,
        Construct::Hint => 2,
        Construct::MariaDbComment => 3,
        Construct::Dashes => 4,
        Construct::EscapedQuote => 5,
        Construct::Bracket => 6,
        Construct::DollarQuote => 7,
        Construct::DashesAfterExponent => 8,
        Construct::PlaceAfterExponent => 9,
        Construct::OpenerInComment => 10,
        Construct::JoiningComment => 11,
        Construct::DashesBeforeComment => 12,
        Construct::ClientCommand => 13,
        Construct::DashInFront => 14,
        Construct::Delimiter => 15,
        Construct::ClientWord => 16,
        Construct::EscapedNewline => 17,
        Construct::ZeroByte => 18,
        Construct::EscapedBackquote => 19,
        Construct::ReturnInComment => 20,
    }
}
