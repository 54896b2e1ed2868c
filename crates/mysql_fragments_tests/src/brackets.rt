//! Lists and rows that a program didn't say are such: where they may stand. Each wanted place is
//! found by hand, by the rule in the heading of `Brackets.antt`, and its position is counted.
use mysql_fragments::brackets::Implicit::{List, No, Rows};
use mysql_fragments::brackets::{Implicit, first_unbracketed};
use mysql_named_params::places::Reading;
use std::process::Abort;

type Case = (&'static [u8], &'static [Implicit], Option<(usize, usize)>);

// Queries whose list is meant.
const USES: &[Case] = &[
    (b"SELECT * FROM t WHERE id IN (:ids)", &[List], None),
    (b"SELECT * FROM t WHERE id IN ( :ids )", &[List], None),
    (b"SELECT * FROM t WHERE id IN(:ids)", &[List], None),
    (b"SELECT * FROM t WHERE id NOT IN (:ids)", &[List], None),
    (
        b"SELECT * FROM t WHERE id IN (/* ids */ :ids)",
        &[List],
        None,
    ),
    (
        b"SELECT * FROM t WHERE id IN (\n  :ids -- all\n)",
        &[List],
        None,
    ),
    (b"SELECT * FROM t WHERE id IN ((:ids))", &[List], None),
    (b"SELECT * FROM t WHERE (a, b) IN (:pairs)", &[Rows], None),
    (
        b"SELECT * FROM t WHERE (a, b) NOT IN (:pairs)",
        &[Rows],
        None,
    ),
    (b"SELECT * FROM t WHERE (a, b) = (:pair)", &[List], None),
    (b"SELECT * FROM t WHERE (a, b) > (:after)", &[List], None),
    (
        b"SELECT * FROM t WHERE ROW(a, b) = ROW(:pair)",
        &[List],
        None,
    ),
    (
        b"SELECT * FROM t WHERE (a, b) IN ((:one), (:two))",
        &[List, List],
        None,
    ),
    (
        b"SELECT * FROM t WHERE id IN (0, :ids)",
        &[List],
        Some((0, 32)),
    ),
    (
        b"SELECT * FROM t WHERE id IN (:ids, 0)",
        &[List],
        Some((0, 29)),
    ),
    (
        b"SELECT * FROM t WHERE id IN (:ids, :more)",
        &[List, List],
        Some((0, 29)),
    ),
    (
        b"SELECT * FROM t WHERE id IN (NULL, :ids)",
        &[List],
        Some((0, 35)),
    ),
    (
        b"SELECT * FROM t ORDER BY FIELD(id, :ids)",
        &[List],
        Some((0, 35)),
    ),
    (b"SELECT FIELD(:x, :xs)", &[No, List], Some((1, 17))),
    (b"SELECT * FROM t WHERE :id IN (:ids)", &[No, List], None),
    (b"INSERT INTO t (a, b) VALUES :rows", &[Rows], None),
    (b"INSERT INTO t (a, b) VALUES\n:rows", &[Rows], None),
    (b"INSERT INTO t VALUES /* all */ :rows", &[Rows], None),
    (
        b"INSERT INTO t (a, b) values :rows ON DUPLICATE KEY UPDATE b = VALUES(b)",
        &[Rows],
        None,
    ),
    (
        b"INSERT INTO t (a, b) VALUES :rows AS new ON DUPLICATE KEY UPDATE b = new.b",
        &[Rows],
        None,
    ),
    (b"REPLACE INTO t VALUES :rows", &[Rows], None),
    (b"INSERT INTO t (a, b) VALUE :rows", &[Rows], None),
    (b"INSERT INTO t (a, b) VALUES (:row)", &[List], None),
    (
        b"INSERT INTO t (a, b) VALUES (:one), (:two)",
        &[List, List],
        None,
    ),
    (
        b"INSERT INTO t (a, b, c) VALUES (:row, NOW())",
        &[List],
        Some((0, 32)),
    ),
    (
        b"INSERT INTO t (a, b, c) VALUES (DEFAULT, :row)",
        &[List],
        Some((0, 41)),
    ),
    (
        b"INSERT INTO t (a, b) VALUES (1, 2), :rows",
        &[Rows],
        Some((0, 36)),
    ),
    (b"SELECT * FROM (VALUES ROW(:row)) v", &[List], None),
    (b"VALUES ROW(:one), ROW(:two)", &[List, List], None),
    (
        b"INSERT INTO t (a) VALUES (:a) ON DUPLICATE KEY UPDATE a = :a",
        &[No, No],
        None,
    ),
    (b"CALL p(:args)", &[List], Some((0, 7))),
    (b"CALL p(1, :args)", &[List], Some((0, 10))),
    (b"SELECT f(:args)", &[List], Some((0, 9))),
    (b"SELECT COALESCE(:xs)", &[List], Some((0, 16))),
    (b"SELECT COALESCE(a, :xs)", &[List], Some((0, 19))),
    (b"SELECT CONCAT(:xs)", &[List], Some((0, 14))),
    (b"SELECT CONCAT_WS(',', :xs)", &[List], Some((0, 22))),
    (b"SELECT GREATEST(:xs)", &[List], Some((0, 16))),
    (b"SELECT LEAST(a, :xs)", &[List], Some((0, 16))),
    (b"SELECT ELT(n, :xs)", &[List], Some((0, 14))),
    (b"SELECT INTERVAL(n, :xs)", &[List], Some((0, 19))),
    (b"SELECT JSON_ARRAY(:xs)", &[List], Some((0, 18))),
    (b"SELECT JSON_OBJECT(:pairs)", &[List], Some((0, 19))),
    (
        b"UPDATE t SET tags = JSON_ARRAY(:tags) WHERE id = :id",
        &[List, No],
        Some((0, 31)),
    ),
    (
        b"SELECT JSON_CONTAINS(doc, JSON_ARRAY(:xs))",
        &[List],
        Some((0, 37)),
    ),
    (b"SELECT JSON_EXTRACT(doc, :paths)", &[List], Some((0, 25))),
    (b"SELECT JSON_REMOVE(doc, :paths)", &[List], Some((0, 24))),
    (b"SELECT CHAR(:codes USING utf8mb4)", &[List], Some((0, 12))),
    (
        b"SELECT * FROM t WHERE a = ANY (SELECT b FROM u WHERE c IN (:cs))",
        &[List],
        None,
    ),
    (
        b"SELECT * FROM t WHERE MATCH (a) AGAINST (:words IN BOOLEAN MODE)",
        &[No],
        None,
    ),
    (
        b"SELECT * FROM t LIMIT :limit OFFSET :offset",
        &[No, No],
        None,
    ),
    (b"SELECT * FROM t LIMIT :page", &[List], Some((0, 22))),
    (
        b"SELECT * FROM t WHERE a BETWEEN :a AND :b",
        &[No, No],
        None,
    ),
    (b"SELECT * FROM t PARTITION (:parts)", &[No], None),
    (
        b"DELETE FROM t WHERE id IN (:ids) LIMIT :n",
        &[List, No],
        None,
    ),
    (b"SELECT GROUP_CONCAT(:xs)", &[List], Some((0, 20))),
];

// Queries that mean one value, for which a list comes.
const ATTACKS: &[Case] = &[
    (
        b"UPDATE u SET doc = JSON_SET(doc, '$.name', :name) WHERE id = :id",
        &[List, No],
        Some((0, 43)),
    ),
    (
        b"INSERT INTO u (name, role) VALUES (:name, 'user')",
        &[List],
        Some((0, 35)),
    ),
    (
        b"SELECT * FROM u WHERE name = :name",
        &[List],
        Some((0, 29)),
    ),
    (b"SELECT IF(:x, 'a', 'b')", &[List], Some((0, 10))),
    (b"SELECT LOWER(:x)", &[List], Some((0, 13))),
    (b"SELECT ROUND(:x)", &[List], Some((0, 13))),
    (b"SELECT JSON_ARRAY(:role)", &[List], Some((0, 18))),
    (b"SELECT COALESCE(:x, 'none')", &[List], Some((0, 16))),
    (b"SELECT CONCAT('%', :x, '%')", &[List], Some((0, 19))),
    (b"SELECT * FROM t ORDER BY :x", &[List], Some((0, 25))),
    (b"SELECT * FROM t WHERE a = (:x)", &[List], Some((0, 27))),
    (b"CALL value(:a)", &[List], Some((0, 11))),
    (b"CALL value (:a)", &[Rows], Some((0, 12))),
    (b"CALL value :a", &[Rows], Some((0, 11))),
    (b"CALL db . value (:a)", &[List], Some((0, 17))),
    (b"CALL row(:a)", &[List], Some((0, 9))),
    (b"OPEN row(:a)", &[List], Some((0, 9))),
    (b"BEGIN value(:a); END", &[List], Some((0, 12))),
    (b"CALL f(); row(:a)", &[List], Some((0, 14))),
    (b"FOR r IN row(:a)", &[List], Some((0, 13))),
    (b"HANDLER t READ i = (:a)", &[List], Some((0, 20))),
    (
        b"CHANGE MASTER TO IGNORE_SERVER_IDS = (:a)",
        &[List],
        Some((0, 38)),
    ),
    (b"SET @a := (:a)", &[List], Some((0, 11))),
    (b"SELECT a IN /*M! f */ (:a)", &[List], Some((0, 23))),
    (b"SELECT a IN (:a /*M! , 1 */)", &[List], Some((0, 13))),
    (b"VALUES /*M!100 f*/ :a", &[Rows], Some((0, 19))),
    (b"INSERT INTO u (name) VALUES (:name)", &[List], None),
    (b"SELECT * FROM t LIMIT :n", &[List], Some((0, 22))),
    (b"UPDATE t SET a = :a, b = 2", &[List], Some((0, 17))),
    (b"SELECT * FROM t WHERE a IN (:x)", &[Rows], None),
    (
        b"SELECT * FROM t WHERE MATCH (a) AGAINST (:words)",
        &[List],
        Some((0, 41)),
    ),
];

// What stands before and after the bracket.
const NEIGHBOURS: &[Case] = &[
    (b"IN (:a)", &[List], None),
    (b"in(:a)", &[List], None),
    (b"iN # c\n ( -- c\n :a /* c */ )", &[List], None),
    (b"row (:a)", &[List], Some((0, 5))),
    (b"Values(:a)", &[List], None),
    (b"value (:a)", &[List], Some((0, 7))),
    (b"t value (:a)", &[List], Some((0, 9))),
    (b"t (a) Value (:a)", &[List], None),
    (b"t (a)/**/value (:a)", &[List], None),
    (b"t (a) value row(:a)", &[List], None),
    (b"t value row(:a)", &[List], Some((0, 12))),
    (b"VALUES (row (:a))", &[List], None),
    (b"VALUES (1), Row\n(:a)", &[List], None),
    (b"(:a)", &[List], Some((0, 1))),
    (b"((:a))", &[List], None),
    (b"a <=> (:a)", &[List], Some((0, 7))),
    (b"a != (:a)", &[List], Some((0, 6))),
    (b"= (:a)", &[List], Some((0, 3))),
    (b"(a, b) <=> (:a)", &[List], None),
    (b"(a, b) != (:a)", &[List], None),
    (b"(a, b) /* c */ >= # c\n (:a)", &[List], None),
    (b"(a, b) < ROW(:a)", &[List], None),
    (b"a < ROW(:a)", &[List], Some((0, 8))),
    (b"(a, b) <> (:a), (:b)", &[List, List], None),
    (b"ins (:a)", &[List], Some((0, 5))),
    (b"i (:a)", &[List], Some((0, 3))),
    (b"value_ (:a)", &[List], Some((0, 8))),
    (b"valuess (:a)", &[List], Some((0, 9))),
    (b"rows (:a)", &[List], Some((0, 6))),
    (b"IN_ (:a)", &[List], Some((0, 5))),
    (b"xIN (:a)", &[List], Some((0, 5))),
    (b"db.in (:a)", &[List], Some((0, 7))),
    (b"`db`.in (:a)", &[List], Some((0, 9))),
    (b"db.IN(:a)", &[List], Some((0, 6))),
    (b"@in (:a)", &[List], Some((0, 5))),
    (b"$in(:a)", &[List], Some((0, 4))),
    (b"\xc3\xa9in(:a)", &[List], Some((0, 5))),
    (b"`in`(:a)", &[List], Some((0, 5))),
    (b"\"in\" (:a)", &[List], Some((0, 6))),
    (b"'in' (:a)", &[List], Some((0, 6))),
    (b"5 (:a)", &[List], Some((0, 3))),
    (b"f() (:a)", &[List], Some((0, 5))),
    (b"a + (:a)", &[List], Some((0, 5))),
    (b"a - (:a)", &[List], Some((0, 5))),
    (b":a IN (:b)", &[No, List], None),
    (b":a (:b)", &[No, List], Some((1, 4))),
    (b"IN /*! (:a) */", &[List], Some((0, 8))),
    (b"IN /*! */ (:a)", &[List], Some((0, 11))),
    (b"IN /*+ */ (:a)", &[List], Some((0, 11))),
    (b"IN /*M! */ (:a)", &[List], Some((0, 12))),
    (b"IN /*M*/ (:a)", &[List], None),
    (b"IN /**/ (:a)", &[List], None),
    (b"IN (:a /*! */)", &[List], Some((0, 4))),
    (b"IN (:a /*M! */)", &[List], Some((0, 4))),
    (b"IN --\n(:a)", &[List], Some((0, 7))),
    (b"IN\x0b(:a)", &[List], Some((0, 4))),
    (b"IN (:a", &[List], Some((0, 4))),
    (b"IN (:a;)", &[List], Some((0, 4))),
    (b"INSERT INTO t (:columns)", &[List], Some((0, 15))),
    (b"INSERT INTO t (:columns)", &[No], None),
    (b"VALUES :a", &[List], Some((0, 7))),
    (b"t (a) VALUE :a", &[Rows], None),
    (b"t VALUE :a", &[Rows], Some((0, 8))),
    (b"VALUES :a, :b", &[Rows, Rows], Some((1, 11))),
    (b"t.values :a", &[Rows], Some((0, 9))),
    (b"valued :a", &[Rows], Some((0, 7))),
    (b"VALUES /* c */\n:a", &[Rows], None),
    (b"f(:a)", &[Rows], Some((0, 2))),
];

const PLAIN: Reading = Reading {
    no_backslash_escape: false,
    wide_names: false,
};

fn finds(rt: &impl Abort, cases: &[Case]) {
    for (query, kinds, wanted) in cases {
        let found = first_unbracketed(*query, PLAIN, *kinds);
        assert_eq!(rt; found, *wanted, "of {query:?}");
    }
}

#[test]
fn places_of_lists(rt: HostRuntime) {
    finds(&rt, USES);
    finds(&rt, ATTACKS);
    finds(&rt, NEIGHBOURS);
}

// In the other mode the string ends before the bracket, and a name with a capital is read as wide.
#[test]
fn places_in_another_reading(rt: HostRuntime) {
    let query = b"a = '\\\\' AND b IN (:a) AND c = 'f(:b)'";
    let other = Reading {
        no_backslash_escape: true,
        wide_names: true,
    };
    assert_eq!(rt; first_unbracketed(query, PLAIN, &[List]), None);
    let query = b"a = '\\' AND f(:Ids) AND b = ''";
    assert_eq!(rt; first_unbracketed(query, other, &[List]), Some((0, 14)));
    assert_eq!(rt; first_unbracketed(query, PLAIN, &[List]), None);
    let query = b"a IN (:userIds) AND LIMIT :Page";
    assert_eq!(rt;
        first_unbracketed(query, other, &[List, List]),
        Some((1, 26))
    );
    assert_eq!(rt; first_unbracketed(query, other, &[List]), None);
    assert_eq!(rt; first_unbracketed(query, other, &[]), None);
}
