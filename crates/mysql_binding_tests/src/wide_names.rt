//! Names with capitals: what is bound by them, what is refused and what is left as it is. The texts
//! follow the rule of wide names by hand: a `:`, a letter or `_`, and all letters, digits and `_`
//! that follow, outside of strings, quoted names and comments.
use crate::shared::{
    EITHER_MODE, Given, Plain, Refused, WIDE, answer_of, are_bound_by, is_refused_by, is_text,
    same_in, wide_in,
};
use mysql_params::params::NamedPairs;
use mysql_params::{
    BindError, BindRefusal, ByPosition, Construct, Portability, Purpose, QueryRefusal, Reading,
    Scope, TextInRoom, Unportable, WideQuery, bind, bind_into, first_unportable_in,
    first_unportable_in_client_in,
};
use mysql_values::value::ValueRef;
use std::alloc::Global;
use std::process::Abort;

const USER: Given<'static> = Given::Named(&[
    (b"userId", Plain::Int(7)),
    (b"ID", Plain::Text(b"x")),
    (b"_X", Plain::Null),
    (b"id", Plain::UInt(1)),
    (b"Id", Plain::UInt(2)),
]);

const LABELS: Given<'static> = Given::Named(&[
    (b"BEGIN", Plain::Null),
    (b"LOOP", Plain::Null),
    (b"userId", Plain::Null),
    (b"ID", Plain::Null),
    (b"id", Plain::Null),
    (b"Id", Plain::Null),
]);

#[test]
fn capitals_begin_names_and_continue_them(rt: HostRuntime) {
    let rows: &[(&[u8], Given<'_>, &[u8])] = &[
        (b"SELECT :userId", USER, b"SELECT 7"),
        (
            b"WHERE a = :ID AND b=:_X",
            USER,
            b"WHERE a = 'x' AND b=NULL",
        ),
        // Names are told apart by case.
        (b":ID,:Id,:id", USER, b"'x',2,1"),
        (b"-:Id-:id", USER, b"-2-1"),
        (b"@A:=:Id", USER, b"@A:=2"),
        (b"/:Id/:id*:Id", USER, b"/2/1*2"),
        (b":Id--:id", USER, b"2--1"),
    ];
    are_bound_by(&rt, rt.alloc(), WIDE, rows);
}

#[test]
fn what_begins_no_name_is_left(rt: HostRuntime) {
    let rows: &[(&[u8], Given<'_>, &[u8])] = &[
        (
            b"':ID' \":ID\" `:ID`",
            Given::Nothing,
            b"':ID' \":ID\" `:ID`",
        ),
        (b"/* :ID */ 1 -- :ID", Given::Nothing, b"/* :ID */ 1 -- :ID"),
        (b"# :ID\n1", Given::Nothing, b"# :ID\n1"),
        (b"@a:=1, 1 : A", Given::Nothing, b"@a:=1, 1 : A"),
        (b":1, :\xc3\x84", Given::Nothing, b":1, :\xc3\x84"),
        (b"'$.A:B', :Id", USER, b"'$.A:B', 2"),
        (
            b"SELECT ?, ':Id'",
            Given::Positional(&[Plain::Int(5)]),
            b"SELECT 5, ':Id'",
        ),
    ];
    are_bound_by(&rt, rt.alloc(), WIDE, rows);
}

// Each of these would go to the server as it is by the names of the grammar, or be refused there
// for the name in front of the capital.
#[test]
fn labels_and_their_like_are_refused(rt: HostRuntime) {
    let rows: &[(&[u8], Refused<'_>)] = &[
        (b"lbl:BEGIN", Refused::NotAlone(0, 3)),
        (b"lbl:LOOP", Refused::NotAlone(0, 3)),
        (b"x::Id", Refused::NotAlone(0, 2)),
        (b"::ID", Refused::NotAlone(0, 1)),
        (b"@:ID", Refused::NotAlone(0, 1)),
        (b"a:Id", Refused::NotAlone(0, 1)),
        (b"'x':ID", Refused::NotAlone(0, 3)),
        (b":id:Id", Refused::NotAlone(0, 0)),
        (b":ID:id", Refused::NotAlone(0, 0)),
        (b":userId'x'", Refused::NotAlone(0, 0)),
        (b":Id, :Id\xc3\x89", Refused::NotAlone(1, 5)),
        (b":Id$b", Refused::NotAlone(0, 0)),
    ];
    for (query, refused) in rows {
        is_refused_by(&rt, rt.alloc(), WIDE, *query, LABELS, *refused);
    }
}

#[test]
fn causes_in_their_order(rt: HostRuntime) {
    let floats = Given::Named(&[(b"Ab", Plain::Float)]);
    let rows: &[(&[u8], Given<'_>, Refused<'_>)] = &[
        (b"x:Zz ?", Given::Nothing, Refused::Mixed),
        (b"lbl :BEGIN", USER, Refused::Missing(b"BEGIN")),
        (b":Id:No", USER, Refused::Missing(b"No")),
        (b":Ab", Given::Nothing, Refused::Missing(b"Ab")),
        (
            b":Ab",
            Given::Positional(&[Plain::Null]),
            Refused::PositionalGiven,
        ),
        (b"?", USER, Refused::NamedGiven),
        (b"a:Ab", floats, Refused::NotAlone(0, 1)),
        (b"1,:Ab", floats, Refused::Float(0)),
    ];
    for (query, given, refused) in rows {
        is_refused_by(&rt, rt.alloc(), WIDE, *query, *given, *refused);
    }
}

// A query without capitals behind a colon or a name is bound alike by all calls.
#[test]
fn lower_case_is_bound_as_before(rt: HostRuntime) {
    let rows: &[(&[u8], Given<'_>, &[u8])] = &[
        (b"SELECT :id, ':id'", USER, b"SELECT 1, ':id'"),
        (
            b"INSERT INTO T VALUES (:id,:id)",
            USER,
            b"INSERT INTO T VALUES (1,1)",
        ),
        (b"SELECT A, B", Given::Nothing, b"SELECT A, B"),
    ];
    are_bound_by(&rt, rt.alloc(), EITHER_MODE, rows);
    are_bound_by(&rt, rt.alloc(), WIDE, rows);
}

const PAIRS: &[(&[u8], ValueRef<'static>)] = &[
    (b"Id", ValueRef::Int(3)),
    (b"x_Y", ValueRef::Bytes(b"it's")),
];

#[test]
fn borrowed_pairs(rt: HostRuntime) {
    let query = b":Id, :x_Y, ':Id'";
    let wanted = b"3, 'it''s', ':Id'";
    is_text(
        &rt,
        answer_of(
            &rt,
            bind(rt.alloc(), query, &NamedPairs(PAIRS), wide_in(true)),
        ),
        wanted,
    );
    let parsed = answer_of(&rt, WideQuery::parse_in(rt.alloc(), query, true));
    is_text(
        &rt,
        answer_of(&rt, parsed.bind_pairs(rt.alloc(), PAIRS)),
        wanted,
    );
    let mut script = Vec::new(rt.alloc());
    answer_of(&rt, parsed.append_pairs(rt.alloc(), PAIRS, &mut script));
    is_text(&rt, script, wanted);
    let mut room = [7u8; 17];
    let pairs = NamedPairs(PAIRS);
    let told = bind_into(rt.alloc(), query, &pairs, wide_in(true), &mut room);
    same_in(
        &rt,
        answer_of(&rt, told),
        TextInRoom::Written { len: 17 },
        &"told",
    );
    same_in(&rt, room.as_slice(), wanted, &"a room");
}

#[test]
fn name_given_twice(rt: HostRuntime) {
    let twice = &[
        (b"A".as_slice(), ValueRef::NULL),
        (b"A".as_slice(), ValueRef::NULL),
    ];
    let refused = bind(rt.alloc(), b":A", &NamedPairs(twice), wide_in(true));
    same_in(
        &rt,
        refused.err() == Some(BindRefusal::Redefined { index: 1 }),
        true,
        &"a name twice",
    );
}

#[test]
fn borrowed_values(rt: HostRuntime) {
    let values = &[ValueRef::Int(3)];
    let text = bind(rt.alloc(), b"?, ':Id'", &ByPosition(values), wide_in(false));
    is_text(&rt, answer_of(&rt, text), b"3, ':Id'");
    let parsed = answer_of(&rt, WideQuery::parse(rt.alloc(), b"?, ':Id'"));
    is_text(
        &rt,
        answer_of(&rt, parsed.bind_values(rt.alloc(), values)),
        b"3, ':Id'",
    );
    let mut script = Vec::new(rt.alloc());
    answer_of(&rt, parsed.append_values(rt.alloc(), values, &mut script));
    is_text(&rt, script, b"3, ':Id'");
    let mut room = [7u8; 4];
    let given = ByPosition(values);
    let told = bind_into(rt.alloc(), b"-?", &given, wide_in(false), &mut room);
    same_in(
        &rt,
        answer_of(&rt, told),
        TextInRoom::Written { len: 2 },
        &"told",
    );
    same_in(&rt, room, [b'-', b'3', 7, 7], &"a room");
    // Values by position are refused beside a wide name.
    let refused = bind(rt.alloc(), b":Id", &ByPosition(values), wide_in(false));
    same_in(&rt, refused.is_ok(), false, &"a name");
}

#[test]
fn names_and_marks_of_a_parsed_query(rt: HostRuntime) {
    let parsed = answer_of(
        &rt,
        WideQuery::parse(rt.alloc(), b":userId, :ID, ':No', :userId"),
    );
    let names = answer_of(&rt, parsed.names(rt.alloc()));
    same_in(&rt, names.len(), 3, &"names");
    let wanted = [b"userId".as_slice(), b"ID".as_slice(), b"userId".as_slice()];
    for (name, wanted) in names.iter().zip(wanted) {
        same_in(&rt, *name, wanted, &"a name");
    }
    same_in(&rt, parsed.marks(), 0, &"marks");
    same_in(&rt, parsed.no_backslash_escape(), false, &"the mode");
    let copy = answer_of(&rt, parsed.clone());
    same_in(&rt, copy == parsed, true, &"a copy");
    let owned = answer_of(&rt, copy.into_owned(rt.alloc()));
    same_in(&rt, owned.query(), parsed.query(), &"the query");
    let other = answer_of(&rt, WideQuery::parse_in(rt.alloc(), owned.query(), true));
    same_in(&rt, owned == other, false, &"the other mode");
}

#[test]
fn places_of_wide_names(rt: HostRuntime) {
    let parsed = answer_of(&rt, WideQuery::parse(rt.alloc(), b"SELECT :A, ':a', :bC"));
    let surveyed = parsed.surveyed();
    same_in(&rt, surveyed.known.len(), 2, &"places");
    for (place, wanted) in surveyed.known.iter().zip([(7usize, 2usize), (8, 3)]) {
        same_in(&rt, (place.before, place.len), wanted, &"a place");
    }
    same_in(&rt, surveyed.reading.wide_names, true, &"wide names");
    same_in(&rt, surveyed.survey.names, 2, &"names");
    same_in(&rt, surveyed.survey.not_alone, None, &"joined places");
}

// A hint with a name in it isn't portable, since a value stands in it once it is bound.
#[test]
fn portability_by_wide_names(rt: HostRuntime) {
    let rows: &[(&[u8], Option<Unportable>)] = &[
        (b"SELECT :userId, :ID", None),
        (b"SELECT /*+ NO_ICP(t) */ :ID", None),
        (
            b":ID, /*+ SET_VAR(x=:ID) */ 1",
            Some(Unportable {
                construct: Construct::Hint,
                at: 5,
            }),
        ),
        (
            b"SELECT 1e+:ID",
            Some(Unportable {
                construct: Construct::PlaceAfterExponent,
                at: 7,
            }),
        ),
        (
            b"[a], :id",
            Some(Unportable {
                construct: Construct::Bracket,
                at: 0,
            }),
        ),
    ];
    for (query, wanted) in rows {
        let reading = Reading {
            no_backslash_escape: false,
            wide_names: true,
        };
        same_in(&rt, first_unportable_in(*query, reading), *wanted, query);
        let reading = Reading {
            no_backslash_escape: true,
            wide_names: true,
        };
        let found = first_unportable_in_client_in(*query, reading);
        same_in(&rt, found, *wanted, query);
    }
}

/// For any connection to any server, by wide names.
const ANYWHERE: Purpose = Purpose {
    scope: Scope::AnyConnection,
    portability: Portability::Servers,
    wide_names: true,
};

/// For any connection to one server, by wide names.
const IN_ANY_MODE: Purpose = Purpose {
    scope: Scope::AnyConnection,
    portability: Portability::Any,
    wide_names: true,
};

/// For either mode of any server, by wide names.
const IN_BOTH_MODES: Purpose = Purpose {
    scope: Scope::EitherMode,
    portability: Portability::Servers,
    wide_names: true,
};

const STEADY: &[(&[u8], &[u8])] = &[
    (b"SELECT :userId", b"SELECT 7"),
    (b"a = :ID, ':ID'", b"a = _utf8mb4'x', ':ID'"),
    (b":id-:Id", b"1-2"),
];

#[test]
fn steady_texts_by_wide_names(rt: HostRuntime) {
    let params = USER.params(&rt, rt.alloc());
    for (query, wanted) in STEADY {
        is_text(
            &rt,
            answer_of(&rt, bind(rt.alloc(), *query, &params, ANYWHERE)),
            *wanted,
        );
        is_text(
            &rt,
            answer_of(&rt, bind(rt.alloc(), *query, &params, IN_ANY_MODE)),
            *wanted,
        );
    }
    let values = ByPosition(&[ValueRef::Bytes(b"it's")]);
    let text = bind(rt.alloc(), b"? ':A'", &values, ANYWHERE);
    is_text(&rt, answer_of(&rt, text), b"_utf8mb4'it''s' ':A'");
    let text = bind(rt.alloc(), b"? [a]", &values, IN_ANY_MODE);
    is_text(&rt, answer_of(&rt, text), b"_utf8mb4'it''s' [a]");
}

#[test]
fn steady_texts_refused(rt: HostRuntime) {
    let rows: &[(&[u8], BindRefusal)] = &[
        (
            b":ID '\\'",
            BindRefusal::Query(QueryRefusal::Unsteady { at: 5 }),
        ),
        (
            b"/*+ :ID */",
            BindRefusal::Query(QueryRefusal::Unportable(Unportable {
                construct: Construct::Hint,
                at: 0,
            })),
        ),
        (
            b"lbl:LOOP",
            BindRefusal::Values(BindError::NotAlone { place: 0, at: 3 }),
        ),
        (b":ID ?", BindRefusal::Values(BindError::Mixed)),
    ];
    let given = Given::Named(&[(b"ID", Plain::Null), (b"LOOP", Plain::Null)]);
    let params = given.params(&rt, rt.alloc());
    for (query, wanted) in rows {
        let refused = bind(rt.alloc(), *query, &params, ANYWHERE).err();
        same_in(&rt, refused.as_ref() == Some(wanted), true, query);
    }
}

#[test]
fn texts_for_both_modes_by_wide_names(rt: HostRuntime) {
    let query = b"SELECT `b\xc3\xbc`, :ID, ':ID' FROM t WHERE i = :userId";
    let wanted = b"SELECT `b\xc3\xbc`, _utf8mb4'x', ':ID' FROM t WHERE i = 7";
    let params = USER.params(&rt, rt.alloc());
    let text = bind(rt.alloc(), query, &params, IN_BOTH_MODES);
    is_text(&rt, answer_of(&rt, text), wanted);
    let values = ByPosition(&[ValueRef::Bytes(b"it's")]);
    let text = bind(rt.alloc(), b"? '\xc3\xbc:A'", &values, IN_BOTH_MODES);
    is_text(&rt, answer_of(&rt, text), b"_utf8mb4'it''s' '\xc3\xbc:A'");
    let rows: &[(&[u8], BindRefusal)] = &[
        (
            b":ID '\\'",
            BindRefusal::Query(QueryRefusal::Backslash { at: 5 }),
        ),
        (
            b"/*+ :ID */",
            BindRefusal::Query(QueryRefusal::Unportable(Unportable {
                construct: Construct::Hint,
                at: 0,
            })),
        ),
        (
            b"lbl:LOOP",
            BindRefusal::Values(BindError::NotAlone { place: 0, at: 3 }),
        ),
        (b":ID ?", BindRefusal::Values(BindError::Mixed)),
    ];
    let given = Given::Named(&[(b"ID", Plain::Null), (b"LOOP", Plain::Null)]);
    let params = given.params(&rt, rt.alloc());
    for (query, wanted) in rows {
        let refused = bind(rt.alloc(), *query, &params, IN_BOTH_MODES).err();
        same_in(&rt, refused.as_ref() == Some(wanted), true, query);
    }
}

#[test]
fn steady_texts_of_borrowed_pairs(rt: HostRuntime) {
    let query = b":Id, :x_Y, ':Id'";
    let wanted = b"3, _utf8mb4'it''s', ':Id'";
    let pairs = NamedPairs(PAIRS);
    let text = bind(rt.alloc(), query, &pairs, ANYWHERE);
    is_text(&rt, answer_of(&rt, text), wanted);
    let text = bind(rt.alloc(), query, &pairs, IN_ANY_MODE);
    is_text(&rt, answer_of(&rt, text), wanted);
    let text = bind(rt.alloc(), query, &pairs, IN_BOTH_MODES);
    is_text(&rt, answer_of(&rt, text), wanted);
    let twice = [(b"A".as_slice(), ValueRef::NULL), (b"A", ValueRef::NULL)];
    let twice = NamedPairs(&twice);
    let refused = bind(rt.alloc(), b":A", &twice, ANYWHERE).err();
    let redefined = BindRefusal::Redefined { index: 1 };
    same_in(&rt, refused == Some(redefined), true, &"for any server");
    let refused = bind(rt.alloc(), b":A", &twice, IN_BOTH_MODES).err();
    let redefined = BindRefusal::Redefined { index: 1 };
    same_in(&rt, refused == Some(redefined), true, &"for both modes");
}
