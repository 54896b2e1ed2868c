//! Queries bound to steady text and to guarded text.
use crate::inputs::Given::{Empty, Named, Positional};
use crate::inputs::Plain::{Bytes, Float, Int, Null};
use crate::inputs::{A_TO_Q, Given};
use crate::outcome::Memory::{Asked, Never};
use crate::outcome::{Case, Memory, Outcome, cases, judged, row};
use mysql_params::{
    BindError, BothModesError, SteadyTextError, bind_text_anywhere, bind_text_guarded,
    bind_text_in_any_mode, bind_text_in_both_modes,
};
use std::alloc::Global;

/// How the call of this name went, if it stands here.
pub(crate) fn case(alloc: Global, name: &str) -> Option<Case> {
    if let Some(row) = row(ANYWHERE, name) {
        return Some(bound_anywhere(alloc, row));
    }
    if let Some(row) = row(IN_ANY_MODE, name) {
        return Some(bound_in_any_mode(alloc, row));
    }
    if let Some(row) = row(GUARDED, name) {
        return Some(bound_guarded(alloc, row));
    }
    Some(bound_in_both_modes(alloc, row(IN_BOTH_MODES, name)?))
}

/// A query, what is given, the text or the refusal (one of binding is shown by itself), and whether
/// the call asks for memory.
type Row = (
    &'static [u8],
    Given<'static>,
    Result<&'static [u8], &'static str>,
    Memory,
);

const NAMED_TEXT: Given = Named(&[(b"a", Bytes(b"it's"))]);

const ANYWHERE: &[(&str, Row)] = cases! {
    "bind_text_anywhere of texts and NULL" =>
        b"SELECT ?, ?, ?", Positional(&[Bytes(b"it's"), Bytes(b"\xC3\xA9"), Null]),
        Ok(b"SELECT _utf8mb4'it''s', _utf8mb4 0xC3A9, NULL"), Asked;
    "bind_text_anywhere of a name" =>
        b"SELECT (:a-10)", Named(&[(b"a", Int(-3))]), Ok(b"SELECT (-3-10)"), Asked;
    "bind_text_anywhere of more names than are kept" =>
        b":a,:b,:c,:d,:e,:f,:g,:h,:i,:j,:k,:l,:m,:n,:o,:p,:q", A_TO_Q,
        Ok(b"1,2,3,4,5,6,7,8,9,10,11,12,13,14,15,16,17"), Asked;
    "bind_text_anywhere of an unsteady query" =>
        b"x\\:a", NAMED_TEXT, Err("Unsteady { at: 1 }"), Never;
    "bind_text_anywhere of a query that is not portable" =>
        b"[:a", NAMED_TEXT, Err("Unportable(Unportable { construct: Bracket, at: 0 })"), Never;
    "bind_text_anywhere of names and marks" => b":a ?", Empty, Err("Mixed"), Never;
    "bind_text_anywhere of a missing name" =>
        b"(:a)", Empty, Err("Params(Missing(MissingNamedParameterError([97])))"), Asked;
    "bind_text_anywhere of a float" =>
        b"?", Positional(&[Float(0)]), Err("Float { place: 0 }"), Asked;
};

const IN_ANY_MODE: &[(&str, Row)] = cases! {
    "bind_text_in_any_mode of a place that does not stand alone" =>
        b"[:a", NAMED_TEXT, Err("NotAlone { place: 0, at: 1 }"), Asked;
    "bind_text_in_any_mode of a query that is not portable" =>
        b"[ :a", NAMED_TEXT, Ok(b"[ _utf8mb4'it''s'"), Asked;
    "bind_text_in_any_mode of an unsteady query" =>
        b"x\\:a", NAMED_TEXT, Err("Unsteady { at: 1 }"), Never;
    "bind_text_in_any_mode of names and marks" => b":a ?", Empty, Err("Mixed"), Never;
    "bind_text_in_any_mode of a missing name" =>
        b"(:a)", Empty, Err("Params(Missing(MissingNamedParameterError([97])))"), Asked;
    "bind_text_in_any_mode of a float" =>
        b"?", Positional(&[Float(0)]), Err("Float { place: 0 }"), Asked;
};

const GUARDED: &[(&str, Row)] = cases! {
    "bind_text_guarded of texts and NULL" =>
        b"SELECT ?, ?, ?", Positional(&[Bytes(b"it's"), Bytes(b"\xC3\xA9\\"), Null]),
        Ok(b"SELECT 'it''s', '\xC3\xA9' '\\\\', NULL"), Asked;
    "bind_text_guarded of an unsteady query" =>
        b"x\\:a", NAMED_TEXT, Err("Unsteady { at: 1 }"), Never;
    "bind_text_guarded of names and marks" => b":a ?", Empty, Err("Mixed"), Never;
    "bind_text_guarded of a missing name" =>
        b"(:a)", Empty, Err("Params(Missing(MissingNamedParameterError([97])))"), Asked;
    "bind_text_guarded of a float" =>
        b"?", Positional(&[Float(0)]), Err("Float { place: 0 }"), Asked;
};

const IN_BOTH_MODES: &[(&str, Row)] = cases! {
    "bind_text_in_both_modes of texts and NULL" =>
        b"SELECT '\xC3\xBC', ?, ?, ?", Positional(&[Bytes(b"it's"), Bytes(b"\xC3\xA9"), Null]),
        Ok(b"SELECT '\xC3\xBC', _utf8mb4'it''s', _utf8mb4 0xC3A9, NULL"), Asked;
    "bind_text_in_both_modes of a name" =>
        b"SELECT (:a-10)", Named(&[(b"a", Int(-3))]), Ok(b"SELECT (-3-10)"), Asked;
    "bind_text_in_both_modes of a backslash in a string" =>
        b"'\\':a", NAMED_TEXT, Err("Backslash { at: 1 }"), Never;
    "bind_text_in_both_modes of a query that is not portable" =>
        b"[:a", NAMED_TEXT, Err("Unportable(Unportable { construct: Bracket, at: 0 })"), Never;
    "bind_text_in_both_modes of names and marks" => b":a ?", Empty, Err("Mixed"), Never;
    "bind_text_in_both_modes of a missing name" =>
        b"(:a)", Empty, Err("Params(Missing(MissingNamedParameterError([97])))"), Asked;
    "bind_text_in_both_modes of a float" =>
        b"?", Positional(&[Float(0)]), Err("Float { place: 0 }"), Asked;
};

fn bound_anywhere(alloc: Global, (query, given, wanted, memory): Row) -> Case {
    let params = given.params(alloc)?;
    let answer = bind_text_anywhere(alloc, query, params);
    Ok(judged_steady(answer, wanted).with(memory))
}

fn bound_in_any_mode(alloc: Global, (query, given, wanted, memory): Row) -> Case {
    let params = given.params(alloc)?;
    let answer = bind_text_in_any_mode(alloc, query, params);
    Ok(judged_steady(answer, wanted).with(memory))
}

fn bound_guarded(alloc: Global, (query, given, wanted, memory): Row) -> Case {
    let params = given.params(alloc)?;
    let answer = bind_text_guarded(alloc, query, params, false);
    Ok(judged_steady(answer, wanted).with(memory))
}

fn bound_in_both_modes(alloc: Global, (query, given, wanted, memory): Row) -> Case {
    let params = given.params(alloc)?;
    Ok(match bind_text_in_both_modes(alloc, query, params) {
        Err(BothModesError::Bind(error)) => {
            let answer: Result<Vec<u8>, BindError> = Err(error);
            judged(answer, wanted)
        }
        other => judged(other, wanted),
    }
    .with(memory))
}

/// How a call went that should give this text, or this refusal.
fn judged_steady(
    answer: Result<Vec<u8>, SteadyTextError>,
    wanted: Result<&'static [u8], &'static str>,
) -> Outcome {
    match answer {
        Err(SteadyTextError::Bind(error)) => {
            let answer: Result<Vec<u8>, BindError> = Err(error);
            judged(answer, wanted)
        }
        other => judged(other, wanted),
    }
}
