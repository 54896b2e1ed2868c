//! Fragments for the places of a query with names, in order. The wanted texts are written by the
//! rules of the MySQL Reference Manual, "Comparison Functions and Operators" and "String Literals".
use mysql_binding::{NO_PLACE, PlainForm, Survey, SurveyedQuery};
use mysql_fragments::{
    FragmentFault, FragmentRef, FragmentsError, TextInRoom, bind_placed_into, placed_error,
};
use mysql_named_params::places::{FoundPlace, Reading};
use mysql_values::value::ValueRef;

const QUERY: &[u8] = b"a IN (:list) OR b = :text";

const LIST: &[ValueRef<'static>] = &[ValueRef::Int(1), ValueRef::NULL];

const TEXT: ValueRef<'static> = ValueRef::Bytes(b"it's");

const READING: Reading = Reading {
    no_backslash_escape: true,
    wide_names: false,
};

const WANTED: &[u8] = b"a IN (1, NULL) OR b = 'it''s'";

fn told_of(room: &mut [u8], first: &mut [FoundPlace]) -> Option<TextInRoom> {
    let surveyed = SurveyedQuery::new(QUERY, READING, first);
    if surveyed.survey.names != 2 || surveyed.survey.marks != 0 {
        return None;
    }
    let form = PlainForm {
        no_backslash_escape: true,
    };
    let placed = &[FragmentRef::List(LIST), FragmentRef::Value(TEXT)];
    bind_placed_into(&surveyed, placed, &form, room)
}

fn is_written(first: &mut [FoundPlace]) -> bool {
    let mut room = [b'*'; 32];
    let told = told_of(&mut room, first);
    told == Some(TextInRoom::Written { len: 29 })
        && room.strip_prefix(WANTED) == Some(b"***".as_slice())
}

#[test]
fn names_in_a_room(rt: HostRuntime) {
    assert!(rt; is_written(&mut []));
    assert!(rt; is_written(&mut [NO_PLACE]));
    assert!(rt; is_written(&mut [NO_PLACE; 3]));
}

#[test]
fn names_in_a_room_that_is_too_short(rt: HostRuntime) {
    let mut room = [b'*'; 28];
    let told = told_of(&mut room, &mut [NO_PLACE; 2]);
    assert!(rt; told == Some(TextInRoom::TooShort { len: 29 }));
    assert!(rt; room == [b'*'; 28]);
}

fn survey(query: &[u8]) -> Survey {
    SurveyedQuery::new(query, READING, &mut []).survey
}

#[test]
fn causes_of_placed_fragments(rt: HostRuntime) {
    let placed = &[FragmentRef::List(LIST), FragmentRef::Value(TEXT)];
    assert!(rt; placed_error(survey(QUERY), placed) == None);
    let alone = FragmentsError::NotAlone { place: 1, at: 16 };
    assert!(rt; placed_error(survey(b"a IN (:list) = 1:text"), placed) == Some(alone));
    let few = FragmentsError::MarkCount {
        marks: 1,
        fragments: 2,
    };
    assert!(rt; placed_error(survey(b"a = ?"), placed) == Some(few));
    let floats = &[
        FragmentRef::List(LIST),
        FragmentRef::Value(ValueRef::Float(0)),
    ];
    let float = FragmentsError::Float { place: 1 };
    assert!(rt; placed_error(survey(QUERY), floats) == Some(float));
    let empty = &[FragmentRef::List(LIST), FragmentRef::List(&[])];
    let fault = FragmentsError::Fault {
        place: 1,
        fault: FragmentFault::Empty,
    };
    assert!(rt; placed_error(survey(QUERY), empty) == Some(fault));
}
