//! The first place of a text with wide names, which may have capitals, and without.
use crate::shared::{answer_of, same_in};
use mysql_named_params::places::{FoundPlace, PlaceKind, Reading, first_place_in};
use std::alloc::{AllocError, Global};
use std::process::Abort;

/// A reading in the mode in which a backslash escapes.
fn with_wide_names(wide_names: bool) -> Reading {
    Reading {
        no_backslash_escape: false,
        wide_names,
    }
}

/// What is found of a name.
fn name(before: usize, len: usize) -> Option<FoundPlace> {
    Some(FoundPlace {
        before,
        kind: PlaceKind::Name,
        len,
    })
}

/// What is found of a mark.
fn mark(before: usize) -> Option<FoundPlace> {
    Some(FoundPlace {
        before,
        kind: PlaceKind::Mark,
        len: 1,
    })
}

#[test]
fn capitals_begin_names_and_continue_them(rt: HostRuntime) {
    let cases: &[(&[u8], Option<FoundPlace>)] = &[
        (b"SELECT :userId", name(7, 7)),
        (b":UserId", name(0, 7)),
        (b"(:ID)", name(1, 3)),
        (b"a = :A1_b, ?", name(4, 5)),
        (b":user_id", name(0, 8)),
        (b":_X", name(0, 3)),
        (b"-:Z-", name(1, 2)),
        (b"::Y", name(1, 2)),
        (b"lbl:LOOP", name(3, 5)),
        (b":aB:c", name(0, 3)),
        (b":A'x'", name(0, 2)),
        (b":A\xc3", name(0, 2)),
        (b"?:A", mark(0)),
        (b"':A' :B", name(5, 2)),
        (b"`:A`?", mark(4)),
        (b"/* :A */:b", name(8, 2)),
        (b"-- :A\n:b", name(6, 2)),
        (b"# :A\n?", mark(5)),
        (b"1 : A", None),
        (b"@a:=1", None),
        (b":1A", None),
        (b":\xc3\x84", None),
        (b":[A", None),
        (b":@A", None),
        (b"\":A", None),
        (b":", None),
        (b"", None),
    ];
    for (text, found) in cases {
        let case = (*text, *found);
        same_in(
            &rt,
            first_place_in(text, with_wide_names(true)),
            *found,
            &case,
        );
    }
}

#[test]
fn without_wide_names_a_capital_ends_a_name(rt: HostRuntime) {
    let cases: &[(&[u8], Option<FoundPlace>)] = &[
        (b"SELECT :userId", name(7, 5)),
        (b":UserId :id", name(8, 3)),
        (b":aB:c", name(0, 2)),
        (b"lbl:LOOP", None),
        (b"?:A", mark(0)),
    ];
    for (text, found) in cases {
        let case = (*text, *found);
        same_in(
            &rt,
            first_place_in(text, with_wide_names(false)),
            *found,
            &case,
        );
    }
}

/// A name of so many letters, with one capital, before a byte that ends it.
fn long_name(alloc: Global, letters: usize, capital: usize) -> Result<Vec<u8>, AllocError> {
    let mut text = Vec::new(alloc);
    text.push(b':')?;
    for at in 0..letters {
        text.push(if at == capital { b'Q' } else { b'q' })?;
    }
    text.push(b' ')?;
    Ok(text)
}

#[test]
fn names_end_behind_their_last_letter(rt: HostRuntime) {
    for letters in 1..40 {
        for capital in 0..letters {
            let text = answer_of(&rt, long_name(rt.alloc(), letters, capital));
            let case = (letters, capital);
            same_in(
                &rt,
                first_place_in(&text, with_wide_names(true)),
                name(0, letters.saturating_add(1)),
                &case,
            );
        }
    }
}
