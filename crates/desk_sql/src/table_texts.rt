use crate::database::Value;
use desk_keep::Table;

const NO_KEY_OF_ONE: &[Value<'static>] = &[Value::Null];

const NO_KEY_OF_TWO: &[Value<'static>] = &[Value::Null, Value::Null];

/// The tables, in their order.
pub(crate) const TABLES: &[Table] = &[
    Table::Sites,
    Table::Actions,
    Table::Files,
    Table::Computers,
    Table::Reports,
    Table::Results,
];

/// The statements of a table.
#[derive(Clone, Copy)]
pub(crate) struct TableTexts {
    /// Adds a row, unless one of its key is there.
    pub(crate) add: &'static str,
    /// Writes a row over that of its key. None where a row is nothing but its key.
    pub(crate) replace: Option<&'static str>,
    pub(crate) find: &'static str,
    pub(crate) list: &'static str,
    /// The parameters of `find` for a key that no row has.
    pub(crate) no_key: &'static [Value<'static>],
    /// Counts the rows by an index, which has no texts and no bytes.
    pub(crate) count: &'static str,
}

/// The rows of the sites without their texts, by an index.
pub(crate) const VERSIONS: &str = "SELECT name, version FROM sites ORDER BY name";

pub(crate) const RESULTS: &str =
    "SELECT computer, action, number, outcome, begun, ended, exit, component, line, seq FROM results WHERE computer = ?1 ORDER BY action";

/// The statements of each table.
pub(crate) fn table_texts(table: Table) -> TableTexts {
    match table {
        Table::Sites => TableTexts {
            add: "INSERT INTO sites (name, version, text) VALUES (?1, ?2, ?3) ON CONFLICT DO NOTHING",
            replace: Some("UPDATE sites SET version = ?2, text = ?3 WHERE name = ?1"),
            find: "SELECT name, version, text FROM sites WHERE name = ?1",
            list: "SELECT name, version, text FROM sites ORDER BY name",
            no_key: NO_KEY_OF_ONE,
            count: "SELECT count(name) FROM sites",
        },
        Table::Actions => TableTexts {
            add: "INSERT INTO actions (id, text, digest) VALUES (?1, ?2, ?3) ON CONFLICT DO NOTHING",
            replace: Some("UPDATE actions SET text = ?2, digest = ?3 WHERE id = ?1"),
            find: "SELECT id, text, digest FROM actions WHERE id = ?1",
            list: "SELECT id, text, digest FROM actions ORDER BY id",
            no_key: NO_KEY_OF_ONE,
            count: "SELECT count(id) FROM actions",
        },
        Table::Files => TableTexts {
            add: "INSERT INTO files (digest, bytes) VALUES (?1, ?2) ON CONFLICT DO NOTHING",
            replace: Some("UPDATE files SET bytes = ?2 WHERE digest = ?1"),
            find: "SELECT digest, bytes FROM files WHERE digest = ?1",
            list: "SELECT digest, bytes FROM files ORDER BY digest",
            no_key: NO_KEY_OF_ONE,
            count: "SELECT count(digest) FROM files",
        },
        Table::Computers => TableTexts {
            add: "INSERT INTO computers (name) VALUES (?1) ON CONFLICT DO NOTHING",
            replace: None,
            find: "SELECT name FROM computers WHERE name = ?1",
            list: "SELECT name FROM computers ORDER BY name",
            no_key: NO_KEY_OF_ONE,
            count: "SELECT count(name) FROM computers",
        },
        Table::Reports => TableTexts {
            add: "INSERT INTO reports (computer, seq, digest) VALUES (?1, ?2, ?3) ON CONFLICT DO NOTHING",
            replace: Some("UPDATE reports SET digest = ?3 WHERE computer = ?1 AND seq = ?2"),
            find: "SELECT computer, seq, digest FROM reports WHERE computer = ?1 AND seq = ?2",
            list: "SELECT computer, seq, digest FROM reports ORDER BY computer, seq",
            no_key: NO_KEY_OF_TWO,
            count: "SELECT count(computer) FROM reports",
        },
        Table::Results => TableTexts {
            add: "INSERT INTO results (computer, action, number, outcome, begun, ended, exit, component, line, seq) VALUES (?1, ?2, ?3, ?4, ?5, ?6, ?7, ?8, ?9, ?10) ON CONFLICT DO NOTHING",
            replace: Some(
                "UPDATE results SET number = ?3, outcome = ?4, begun = ?5, ended = ?6, exit = ?7, component = ?8, line = ?9, seq = ?10 WHERE computer = ?1 AND action = ?2",
            ),
            find: "SELECT computer, action, number, outcome, begun, ended, exit, component, line, seq FROM results WHERE computer = ?1 AND action = ?2",
            list: "SELECT computer, action, number, outcome, begun, ended, exit, component, line, seq FROM results ORDER BY computer, action",
            no_key: NO_KEY_OF_TWO,
            count: "SELECT count(computer) FROM results",
        },
    }
}
