//! Forms, and what binding over them answers in a room.
use mysql_flat_params::{
    Outcome, PlaceSpan, TableHead, TableOutcome, Template, bind_by_table_into, bind_into,
    names_into, table_into,
};
use std::alloc::Global;
use std::fmt::Debug;
use std::process::Abort;

/// The query of README's example.
pub(crate) const QUERY: &[u8] = b"SELECT :id, ':id', :name";

/// Its parameters: `id` is 42 of type LONGLONG (8), `name` is `x' OR '1'='1` of type VAR_STRING
/// (253).
pub(crate) const FORM: &[u8] = b"\x02id\x08\0\x2a\0\0\0\0\0\0\0\x04name\xfd\0\x0cx' OR '1'='1";

/// Its text, of 36 bytes.
pub(crate) const TEXT: &[u8] = b"SELECT 42, ':id', 'x\\' OR \\'1\\'=\\'1'";

/// The two are the same. A call is cheaper to prove than the message, which names the case.
pub(crate) fn same_in<T: Copy + Debug + PartialEq, C: Debug>(
    rt: &impl Abort,
    found: T,
    wanted: T,
    case: &C,
) {
    assert_eq!(rt; found, wanted, "of {case:?}");
}

/// The answer of a call. An error ends the test here, so that callers have none to meet.
pub(crate) fn answer_of<T, E: Debug + Drop>(rt: &impl Abort, found: Result<T, E>) -> T {
    found.expect(rt, "an error in place of an answer")
}

/// The text was written to the front of the room, and alone there.
pub(crate) fn wrote<C: Debug>(
    rt: &impl Abort,
    outcome: Outcome,
    room: &[u8],
    text: &[u8],
    case: &C,
) {
    let kept = room.iter().skip(text.len()).all(|byte| *byte == b'#');
    let found = (outcome, room.starts_with(text), kept);
    same_in(
        rt,
        found,
        (Outcome::Done { len: text.len() }, true, true),
        case,
    );
}

/// The flag of the mode in which a backslash escapes.
pub(crate) const WITH_BACKSLASHES: bool = false;

/// The flag of the mode without backslash escapes.
pub(crate) const WITHOUT_BACKSLASHES: bool = true;

/// What stands in a room before a table is made in it.
pub(crate) const NO_PLACE: PlaceSpan = PlaceSpan { before: 9, len: 9 };

/// A head before a table is made.
pub(crate) const NO_HEAD: TableHead = TableHead {
    names: 9,
    marks: 9,
    not_alone: 9,
    place: 9,
    position: 9,
    piece_bytes: 9,
};

// What becomes of the query and the form by the query's table, and what it leaves in a room of 64
// bytes.
fn by_table(alloc: Global, mode: bool, query: &[u8], form: &[u8]) -> (TableOutcome, [u8; 64]) {
    let mut room = [b'#'; 64];
    let mut head = NO_HEAD;
    let mut places = [NO_PLACE; 64];
    match table_into(alloc, query, mode, &mut head, &mut places) {
        Outcome::Done { len } => {
            let template = Template {
                query,
                no_backslash_escape: mode,
                head,
                places: &places[..len],
            };
            let told = bind_by_table_into(alloc, &template, form, &mut room);
            (told, room)
        }
        outcome => (TableOutcome::AsQuery(outcome), room),
    }
}

/// In the mode, the query bound to the form is the text, in a room of 64 bytes, of which the rest
/// is unchanged; also by its table.
pub(crate) fn binds_in(
    rt: &impl Abort,
    alloc: Global,
    mode: bool,
    query: &[u8],
    form: &[u8],
    text: &[u8],
) {
    let mut room = [b'#'; 64];
    let outcome = bind_into(alloc, query, form, mode, &mut room);
    wrote(rt, outcome, &room, text, &(query, form, mode));
    let (told, room) = by_table(alloc, mode, query, form);
    let wanted = TableOutcome::AsQuery(Outcome::Done { len: text.len() });
    same_in(rt, told, wanted, &(query, form, mode));
    wrote(rt, outcome, &room, text, &(query, form, mode));
}

/// The same in the mode in which a backslash escapes.
pub(crate) fn binds(rt: &impl Abort, alloc: Global, query: &[u8], form: &[u8], text: &[u8]) {
    binds_in(rt, alloc, WITH_BACKSLASHES, query, form, text);
}

/// In the mode, this becomes of the query and the form, and the room is as before; also by the
/// query's table.
pub(crate) fn refuses_in(
    rt: &impl Abort,
    alloc: Global,
    mode: bool,
    query: &[u8],
    form: &[u8],
    wanted: Outcome,
) {
    let mut room = [b'#'; 64];
    let outcome = bind_into(alloc, query, form, mode, &mut room);
    let case = (query, form, mode);
    same_in(rt, outcome, wanted, &case);
    same_in(rt, room, [b'#'; 64], &case);
    let by_table = by_table(alloc, mode, query, form);
    let wanted = (TableOutcome::AsQuery(wanted), [b'#'; 64]);
    same_in(rt, by_table, wanted, &case);
}

/// The same in the mode in which a backslash escapes.
pub(crate) fn refuses(rt: &impl Abort, alloc: Global, query: &[u8], form: &[u8], wanted: Outcome) {
    refuses_in(rt, alloc, WITH_BACKSLASHES, query, form, wanted);
}

/// In the mode, each query bound to its form is the text.
pub(crate) fn all_bind_in(
    rt: &impl Abort,
    alloc: Global,
    mode: bool,
    rows: &[(&[u8], &[u8], &[u8])],
) {
    for (query, form, text) in rows {
        binds_in(rt, alloc, mode, *query, *form, *text);
    }
}

/// In the mode, this becomes of each query and its form, and the room is as before.
pub(crate) fn all_refuse_in(
    rt: &impl Abort,
    alloc: Global,
    mode: bool,
    rows: &[(&[u8], &[u8], Outcome)],
) {
    for (query, form, wanted) in rows {
        refuses_in(rt, alloc, mode, *query, *form, *wanted);
    }
}

/// In the mode, the query is answered so if its names are asked for, in a room of 40 bytes, of
/// which the rest is unchanged.
pub(crate) fn finds_in(rt: &impl Abort, alloc: Global, mode: bool, query: &[u8], answer: &[u8]) {
    let mut room = [b'#'; 40];
    let outcome = names_into(alloc, query, mode, &mut room);
    wrote(rt, outcome, &room, answer, &(query, mode));
}
