//! SQL statements that fill a test file with a meter that was read every quarter of an hour for a
//! day, and queries about its rows.

/// SQL statements that insert the rows of a meter that has one reading.
pub(crate) const READ: &str = "INSERT INTO devices VALUES (1, 'inv', 1, 5, 1);
INSERT INTO registers VALUES (1, 'main', 'inv', 3, 40094, 1, 40096);
INSERT INTO installations VALUES (1, 'm1', 'main', 100000, 0, 1900, 5200, 0, 200000);
INSERT INTO entries VALUES ('m1', 1, 1, 1000, 5000, 0, 0, 0), ('m1', 2, 2, 1900, 5200, 0, 0, 0);
INSERT INTO polls VALUES (1, 'inv', 1, 1898, 0, 3, 40094, 3);
INSERT INTO outcomes VALUES (1, 1900, 1, 0);
INSERT INTO intervals VALUES ('m1', 900, 177777), ('m1', 1800, 22223)";

/// SQL statements that insert a reading for each quarter of an hour of a day, each 100 Wh above the
/// previous one. Of these 100 Wh, 88,888 mWh belong to the quarter hour of the previous reading,
/// and 11,112 mWh to the next.
pub(crate) const DAY: &str =
    "UPDATE installations SET last_moment = 88300, last_raw = 14800, total = 9800000;
UPDATE intervals SET mwh = 111111 WHERE start = 1800;
INSERT INTO polls WITH RECURSIVE n (i) AS (SELECT 1 UNION ALL SELECT i + 1 FROM n WHERE i < 96) SELECT 1 + i, 'inv', 1, 1898 + 900 * i, i, 3, 40094, 3 FROM n;
INSERT INTO outcomes SELECT poll, started + 2, 1, 0 FROM polls WHERE 1 < poll;
INSERT INTO entries SELECT 'm1', 1 + poll, 2, started + 2, 5100 + 100 * poll, 0, 0, 0 FROM polls WHERE 1 < poll;
INSERT INTO intervals SELECT 'm1', started - 98, 100000 FROM polls WHERE 1 < poll AND poll < 97;
INSERT INTO intervals VALUES ('m1', 88200, 11112)";

/// SQL statements that turn a database file with the tables of version 3 into a file with the
/// tables of version 1.
pub(crate) const FIRST: &str = "DROP TABLE voids; DROP TABLE ranges; UPDATE meta SET version = 1";

/// Queries about the rows of a test file of any version, each with the number that the query
/// returns.
pub(crate) static ROWS: [(&str, i64); 12] = [
    (
        "SELECT count(*) FROM meta WHERE id = 1 AND zone = 'UTC0'",
        1,
    ),
    ("SELECT count(*) FROM devices", 1),
    ("SELECT count(*) FROM registers", 1),
    ("SELECT count(*) FROM polls", 97),
    ("SELECT count(*) FROM outcomes WHERE outcome = 1", 97),
    ("SELECT count(*) FROM entries WHERE meter = 'm1'", 98),
    ("SELECT sum(raw) FROM entries", 975_000),
    ("SELECT count(*) FROM intervals", 98),
    ("SELECT sum(mwh) FROM intervals", 9_800_000),
    ("SELECT sum(start) FROM intervals", 4_365_900),
    ("SELECT count(*) FROM installations", 1),
    (
        "SELECT total FROM installations WHERE meter = 'm1' AND last_moment = 88300 AND last_raw = 14800 AND last_sf = 0 AND ended = 0",
        9_800_000,
    ),
];

/// Queries about a file of version 1, each with the number that the query returns.
pub(crate) static OLD: [(&str, i64); 2] = [
    ("SELECT version FROM meta", 1),
    (
        "SELECT count(*) FROM sqlite_schema WHERE type = 'table'",
        11,
    ),
];

/// Queries about a file of version 3, each with the number that the query returns.
pub(crate) static NEW: [(&str, i64); 5] = [
    ("SELECT version FROM meta", 3),
    (
        "SELECT count(*) FROM sqlite_schema WHERE type = 'table'",
        13,
    ),
    ("SELECT count(*) FROM ranges", 1),
    (
        "SELECT \"range\" FROM ranges WHERE meter = 'm1'",
        4_294_967_296,
    ),
    ("SELECT count(*) FROM voids", 0),
];
