//! Queries bound from names and values that are borrowed: each call gives the text of the table,
//! and a name that is given twice is refused before all else.
use crate::shared::{answer_of, in_mode, is_text, same_in, says};
use mysql_params::params::NamedPairs;
use mysql_params::{
    BindError, BindPairsError, BindRefusal, BothModesError, BothModesPairsError, ByPosition,
    ParsedQuery, SteadyPairsError, SteadyTextError, TextInRoom, bind_into, bind_pairs,
    bind_pairs_anywhere, bind_pairs_in_any_mode, bind_pairs_in_both_modes, bind_values,
    bind_values_anywhere, bind_values_in_any_mode, bind_values_in_both_modes,
};
use mysql_values::value::ValueRef;
use std::alloc::Global;
use std::process::Abort;

/// Names and their values.
type Pairs<'a> = &'a [(&'a [u8], ValueRef<'a>)];

/// Queries, the mode, pairs, and the text. Strings are escaped as MySQL's manual says of string
/// literals: without backslashes by doubled quotes.
const OF_PAIRS: &[(&[u8], bool, Pairs<'static>, &[u8])] = &[
    (
        b"SELECT (:a-10)",
        false,
        &[(b"a", ValueRef::Int(-3))],
        b"SELECT (-3-10)",
    ),
    // A name that stands twice in the query, and one that the query doesn't have.
    (
        b":a%:a!=1",
        true,
        &[(b"b", ValueRef::Float(0)), (b"a", ValueRef::UInt(5))],
        b"5%5!=1",
    ),
    (
        b"SELECT :a, ':a', :b",
        false,
        &[(b"b", ValueRef::Bytes(b"it's")), (b"a", ValueRef::NULL)],
        b"SELECT NULL, ':a', 'it\\'s'",
    ),
    (
        b"SELECT :a, ':a', :b",
        true,
        &[(b"b", ValueRef::Bytes(b"it's")), (b"a", ValueRef::NULL)],
        b"SELECT NULL, ':a', 'it''s'",
    ),
];

/// The same by position.
const OF_VALUES: &[(&[u8], bool, &[ValueRef<'static>], &[u8])] = &[
    (b"SELECT 1", false, &[], b"SELECT 1"),
    (
        b"SELECT ?, '?', ?",
        false,
        &[ValueRef::NULL, ValueRef::Bytes(b"it's")],
        b"SELECT NULL, '?', 'it\\'s'",
    ),
    (
        b"VALUES (?,?)",
        true,
        &[
            ValueRef::Bytes(b"'"),
            ValueRef::Date(2019, 11, 27, 0, 0, 0, 0),
        ],
        b"VALUES ('''','2019-11-27')",
    ),
];

/// The text stands at the front of the room, whose other bytes are still 7.
fn stands_in(rt: &impl Abort, told: TextInRoom, room: &[u8], wanted: &[u8]) {
    let len = wanted.len();
    same_in(rt, told, TextInRoom::Written { len }, &wanted);
    for (i, byte) in room.iter().enumerate() {
        let kept = if i < len { wanted[i] } else { 7 };
        same_in(rt, *byte, kept, &i);
    }
}

/// Each call of pairs gives the text.
fn pairs_give(
    rt: &impl Abort,
    alloc: Global,
    query: &[u8],
    mode: bool,
    pairs: Pairs<'_>,
    wanted: &[u8],
) {
    is_text(
        rt,
        answer_of(rt, bind_pairs(alloc, query, pairs, mode)),
        wanted,
    );
    let parsed = answer_of(rt, ParsedQuery::parse_in(alloc, query, mode));
    is_text(rt, answer_of(rt, parsed.bind_pairs(alloc, pairs)), wanted);
    let mut script = Vec::new(alloc);
    answer_of(rt, parsed.append_pairs(alloc, pairs, &mut script));
    is_text(rt, script, wanted);
    let mut room = [7u8; 64];
    let pairs = NamedPairs(pairs);
    let told = bind_into(alloc, query, &pairs, in_mode(mode), &mut room);
    let told = answer_of(rt, told);
    stands_in(rt, told, &room, wanted);
}

/// Each call of values gives the text.
fn values_give(
    rt: &impl Abort,
    alloc: Global,
    query: &[u8],
    mode: bool,
    values: &[ValueRef<'_>],
    wanted: &[u8],
) {
    is_text(
        rt,
        answer_of(rt, bind_values(alloc, query, values, mode)),
        wanted,
    );
    let parsed = answer_of(rt, ParsedQuery::parse_in(alloc, query, mode));
    is_text(rt, answer_of(rt, parsed.bind_values(alloc, values)), wanted);
    let mut script = Vec::new(alloc);
    answer_of(rt, parsed.append_values(alloc, values, &mut script));
    is_text(rt, script, wanted);
    let mut room = [7u8; 64];
    let values = ByPosition(values);
    let told = bind_into(alloc, query, &values, in_mode(mode), &mut room);
    let told = answer_of(rt, told);
    stands_in(rt, told, &room, wanted);
}

#[test]
fn pairs_and_values_in_either_mode(rt: HostRuntime) {
    for (query, mode, pairs, wanted) in OF_PAIRS {
        pairs_give(&rt, rt.alloc(), *query, *mode, *pairs, *wanted);
    }
    for (query, mode, values, wanted) in OF_VALUES {
        values_give(&rt, rt.alloc(), *query, *mode, *values, *wanted);
    }
}

#[test]
fn a_script_and_a_short_room(rt: HostRuntime) {
    let parsed = answer_of(&rt, ParsedQuery::parse(rt.alloc(), b"SELECT :a;"));
    let mut script = Vec::new(rt.alloc());
    for number in [1, 22] {
        let pairs: Pairs<'_> = &[(b"a", ValueRef::UInt(number))];
        answer_of(&rt, parsed.append_pairs(rt.alloc(), pairs, &mut script));
    }
    is_text(&rt, script, b"SELECT 1;SELECT 22;");
    let values = ByPosition(&[ValueRef::UInt(22)]);
    let mut room = [7u8; 8];
    let told = bind_into(rt.alloc(), b"SELECT ?", &values, in_mode(false), &mut room);
    same_in(
        &rt,
        answer_of(&rt, told),
        TextInRoom::TooShort { len: 9 },
        &"a short room",
    );
    same_in(&rt, room, [7u8; 8], &"a short room");
}

/// With the escape of its quote the text is longer than the room.
#[test]
fn a_short_room_for_pairs(rt: HostRuntime) {
    let pairs: Pairs<'_> = &[(b"a", ValueRef::Bytes(b"it's"))];
    let mut room = [7u8; 13];
    let pairs = NamedPairs(pairs);
    let told = bind_into(rt.alloc(), b"SELECT :a", &pairs, in_mode(false), &mut room);
    same_in(
        &rt,
        answer_of(&rt, told),
        TextInRoom::TooShort { len: 14 },
        &"a room that lacks a byte",
    );
    same_in(&rt, room, [7u8; 13], &"a room that lacks a byte");
}

/// Of these the third pair has the name of the first, and the fourth too.
const TWICE: Pairs<'static> = &[
    (b"a", ValueRef::UInt(1)),
    (b"b", ValueRef::UInt(2)),
    (b"a", ValueRef::UInt(3)),
    (b"a", ValueRef::Float(0)),
];

#[test]
fn a_name_given_twice(rt: HostRuntime) {
    let query = b":a ? 'it\\'s'";
    let wanted = Err(BindPairsError::Redefined { index: 2 });
    let found = bind_pairs(rt.alloc(), query, TWICE, false);
    same_in(&rt, &found, &wanted, &"bind_pairs");
    let parsed = answer_of(&rt, ParsedQuery::parse(rt.alloc(), query));
    let found = parsed.bind_pairs(rt.alloc(), TWICE);
    same_in(&rt, &found, &wanted, &"ParsedQuery::bind_pairs");
    let mut script = answer_of(&rt, Vec::from_slice(rt.alloc(), b"x"));
    let refused = parsed.append_pairs(rt.alloc(), TWICE, &mut script).err();
    same_in(&rt, &refused, &wanted.err(), &"append_pairs");
    is_text(&rt, script, b"x");
    let mut room = [7u8; 8];
    let twice = NamedPairs(TWICE);
    let refused = bind_into(rt.alloc(), query, &twice, in_mode(false), &mut room).err();
    same_in(
        &rt,
        &refused,
        &Some(BindRefusal::Redefined { index: 2 }),
        &"bind_into",
    );
    same_in(&rt, room, [7u8; 8], &"a room");
}

#[test]
fn a_name_given_twice_for_any_mode(rt: HostRuntime) {
    let query = b":a ? 'it\\'s'";
    let wanted = Err(SteadyPairsError::Redefined { index: 2 });
    let found = bind_pairs_anywhere(rt.alloc(), query, TWICE);
    same_in(&rt, &found, &wanted, &"bind_pairs_anywhere");
    let found = bind_pairs_in_any_mode(rt.alloc(), query, TWICE);
    same_in(&rt, &found, &wanted, &"bind_pairs_in_any_mode");
    let found = bind_pairs_in_both_modes(rt.alloc(), query, TWICE);
    let wanted = Err(BothModesPairsError::Redefined { index: 2 });
    same_in(&rt, &found, &wanted, &"bind_pairs_in_both_modes");
    says(
        &rt,
        rt.alloc(),
        BindPairsError::Redefined { index: 2 },
        "Redefinition of a named parameter by pair 2",
    );
}

/// What a query and pairs without a name that stands twice are refused for.
#[test]
fn what_owned_parameters_are_refused_for(rt: HostRuntime) {
    let pairs: Pairs<'_> = &[(b"a", ValueRef::Double(0))];
    let found = bind_pairs(rt.alloc(), b":a, ?", pairs, false);
    let wanted = Err(BindPairsError::Bind(BindError::Mixed));
    same_in(&rt, &found, &wanted, &"a mixed query");
    let found = bind_pairs(rt.alloc(), b":a", pairs, false);
    let wanted = Err(BindPairsError::Bind(BindError::Float { place: 0 }));
    same_in(&rt, &found, &wanted, &"a float");
    let found = bind_values(rt.alloc(), b"?", &[], false);
    let wanted = Err(BindError::MarkCount {
        marks: 1,
        values: 0,
    });
    same_in(&rt, &found, &wanted, &"a mark too many");
    let found = bind_pairs_anywhere(rt.alloc(), b":a\\", pairs);
    let wanted = Err(SteadyPairsError::Bind(SteadyTextError::Unsteady { at: 2 }));
    same_in(&rt, &found, &wanted, &"a backslash");
    let found = bind_values_in_both_modes(rt.alloc(), b"'\\'", &[]);
    let wanted = Err(BothModesError::Backslash { at: 1 });
    same_in(&rt, &found, &wanted, &"a backslash in a string");
}

/// Steady texts: `ü` is C3 BC (RFC 3629).
#[test]
fn steady_texts(rt: HostRuntime) {
    let pairs: Pairs<'_> = &[
        (b"b", ValueRef::Bytes(b"\xC3\xBC")),
        (b"a", ValueRef::Bytes(b"it's")),
    ];
    let query = b"SELECT :a, :b";
    let wanted = b"SELECT _utf8mb4'it''s', _utf8mb4 0xC3BC";
    let text = answer_of(&rt, bind_pairs_anywhere(rt.alloc(), query, pairs));
    is_text(&rt, text, wanted);
    let text = answer_of(&rt, bind_pairs_in_any_mode(rt.alloc(), query, pairs));
    is_text(&rt, text, wanted);
    let text = answer_of(&rt, bind_pairs_in_both_modes(rt.alloc(), query, pairs));
    is_text(&rt, text, wanted);
    let values = [ValueRef::Bytes(b"it's"), ValueRef::Int(-1)];
    let query = b"SELECT ?, ?";
    let wanted = b"SELECT _utf8mb4'it''s', -1";
    let text = answer_of(&rt, bind_values_anywhere(rt.alloc(), query, &values));
    is_text(&rt, text, wanted);
    let text = answer_of(&rt, bind_values_in_any_mode(rt.alloc(), query, &values));
    is_text(&rt, text, wanted);
    let text = answer_of(&rt, bind_values_in_both_modes(rt.alloc(), query, &values));
    is_text(&rt, text, wanted);
}

/// More names than are found by walks.
const NAMES: &[&[u8]] = &[
    b"aa", b"ab", b"ac", b"ad", b"ae", b"af", b"ag", b"ah", b"ai", b"aj", b"ba", b"bb", b"bc",
    b"bd", b"be", b"bf", b"bg", b"bh", b"bi", b"bj", b"ca", b"cb", b"cc", b"cd", b"ce", b"cf",
    b"cg", b"ch", b"ci", b"cj", b"da", b"db", b"dc", b"dd", b"de", b"df", b"dg", b"dh", b"di",
    b"dj", b"ea", b"eb", b"ec", b"ed", b"ee", b"ef", b"eg", b"eh", b"ei", b"ej", b"fa", b"fb",
    b"fc", b"fd", b"fe", b"ff", b"fg", b"fh", b"fi", b"fj", b"ga", b"gb", b"gc", b"gd", b"ge",
    b"gf", b"gg", b"gh", b"gi", b"gj",
];

/// Each of the names has its number.
fn numbered(rt: &impl Abort, alloc: Global) -> Vec<(&'static [u8], ValueRef<'static>)> {
    let mut pairs = Vec::new(alloc);
    for (i, name) in NAMES.iter().enumerate() {
        answer_of(rt, pairs.push((*name, ValueRef::UInt(i as u64))));
    }
    pairs
}

#[test]
fn many_pairs(rt: HostRuntime) {
    let mut pairs = numbered(&rt, rt.alloc());
    let text = bind_pairs(rt.alloc(), b":aa, :gj, :aa", pairs.as_slice(), false);
    is_text(&rt, answer_of(&rt, text), b"0, 69, 0");
    let missing = bind_pairs(rt.alloc(), b":aa, :hi", pairs.as_slice(), false);
    says(
        &rt,
        rt.alloc(),
        missing.err().expect(&rt, "a text in place of a refusal"),
        "Missing named parameter `hi` for statement",
    );
    answer_of(&rt, pairs.push((b"ab", ValueRef::NULL)));
    answer_of(&rt, pairs.push((b"aa", ValueRef::NULL)));
    let found = bind_pairs(rt.alloc(), b":aa", pairs.as_slice(), false);
    let wanted = Err(BindPairsError::Redefined { index: 70 });
    same_in(&rt, &found, &wanted, &"many pairs");
}
