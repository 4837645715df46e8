use act_rules::{Note, Outcome};
use desk_base::Bytes;
use desk_keep::{Change, Find, ReportRow, ResultRow, Table};
use rel_lexer::Text;
use std::alloc::Global;

fn number(word: Option<&str>) -> Option<u64> {
    word?.parse().ok()
}

fn text(alloc: Global, word: Option<&str>) -> Option<Text> {
    Text::from_str(alloc, word?).ok()
}

fn bytes(alloc: Global, word: Option<&str>) -> Option<Bytes> {
    Bytes::from_slice(alloc, word.unwrap_or("").as_bytes()).ok()
}

/// The digest whose bytes are all this number.
fn digest(word: Option<&str>) -> Option<[u8; 32]> {
    Some([word?.parse().ok()?; 32])
}

/// The table of this name.
pub(crate) fn table(word: &str) -> Option<Table> {
    match word {
        "sites" => Some(Table::Sites),
        "actions" => Some(Table::Actions),
        "files" => Some(Table::Files),
        "computers" => Some(Table::Computers),
        "reports" => Some(Table::Reports),
        "results" => Some(Table::Results),
        _ => None,
    }
}

/// The row of these words: its table, its key, and what else it has.
pub(crate) fn row(alloc: Global, line: &str) -> Option<Change> {
    let mut words = line.split(' ');
    let name = table(words.next()?)?;
    Some(match name {
        Table::Sites => Change::Site {
            name: text(alloc, words.next())?,
            version: number(words.next())?,
            text: bytes(alloc, words.next())?,
        },
        Table::Actions => Change::Action {
            id: number(words.next())?,
            digest: digest(words.next())?,
            text: bytes(alloc, words.next())?,
        },
        Table::Files => Change::File {
            digest: digest(words.next())?,
            bytes: bytes(alloc, words.next())?,
        },
        Table::Computers => Change::Computer(text(alloc, words.next())?),
        Table::Reports => Change::Report {
            computer: text(alloc, words.next())?,
            seq: number(words.next())?,
            digest: digest(words.next())?,
        },
        Table::Results => Change::Result(ResultRow {
            computer: text(alloc, words.next())?,
            row: report_row(number(words.next())?, words.next()?)?,
            seq: number(words.next())?,
        }),
    })
}

/// The row of an action with this outcome.
fn report_row(action: u64, outcome: &str) -> Option<ReportRow> {
    let mut row = ReportRow {
        action,
        number: 2,
        begun: 1060,
        end: None,
        note: Note {
            exit: None,
            place: None,
        },
    };
    match outcome {
        "running" => {}
        "fixed" => {
            row.end = Some((1060, Outcome::Fixed));
            row.note.exit = Some(0);
        }
        "failed" => {
            row.end = Some((1060, Outcome::Failed));
            row.note.exit = Some(-3);
            row.note.place = Some((0, 9));
        }
        _ => return None,
    }
    Some(row)
}

/// The key of these words: its table, and what the key is made of.
pub(crate) fn find(alloc: Global, line: &str) -> Option<Find> {
    let mut words = line.split(' ');
    Some(match table(words.next()?)? {
        Table::Sites => Find::Site(text(alloc, words.next())?),
        Table::Actions => Find::Action(number(words.next())?),
        Table::Files => Find::File(digest(words.next())?),
        Table::Computers => Find::Computer(text(alloc, words.next())?),
        Table::Reports => Find::Report(text(alloc, words.next())?, number(words.next())?),
        Table::Results => Find::Result(text(alloc, words.next())?, number(words.next())?),
    })
}
