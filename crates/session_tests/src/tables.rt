use act_rules::{Note, Outcome};
use desk_base::Bytes;
use desk_keep::{Applied, Change, Changes, Keeper, MemoryKeeper, ReportRow, ResultRow};
use rel_lexer::Text;
use std::alloc::{AllocError, Global};

/// The names of computers.
const COMPUTERS: [&str; 4] = [".", "pc1", "pc1-a", "pc2"];

/// Actions and their texts.
const ACTIONS: [(u64, &str); 3] = [
    (3, "action 3\nstate open\nend\n"),
    (17, "action 17\nstate stopped\nend\n"),
    (30, "action 30\nstate open\nend\n"),
];

/// Sites and their texts.
const SITES: [(&str, &str); 3] = [
    ("..", "site .. 1\n"),
    ("actionsite", ""),
    ("desk", "site desk 3\n"),
];

/// A result as plain data: a computer, an action, whether it has ended, and the exit code.
type Last = (&'static str, u64, bool, i64);

const RESULTS: [Last; 5] = [
    (".", 5, true, 0),
    ("pc1", 7, true, -3),
    ("pc1", 17, false, 0),
    ("pc1-a", 3, true, 0),
    ("pc9", 8, true, 0),
];

fn text(alloc: Global, text: &str) -> Result<Text, AllocError> {
    Text::from_str(alloc, text)
}

fn bytes(alloc: Global, text: &str) -> Result<Bytes, AllocError> {
    Bytes::from_slice(alloc, text.as_bytes())
}

/// The result of plain data. What has ended has failed.
fn result_of(alloc: Global, last: Last) -> Result<ResultRow, AllocError> {
    let (computer, action, ended, exit) = last;
    let mut row = ReportRow {
        action,
        number: 2,
        begun: 1000,
        end: None,
        note: Note {
            exit: None,
            place: None,
        },
    };
    if ended {
        row.end = Some((1060, Outcome::Failed));
        row.note.exit = Some(exit);
        row.note.place = Some((0, 9));
    }
    Ok(ResultRow {
        computer: text(alloc, computer)?,
        row,
        seq: 4,
    })
}

/// The rows of all tables.
fn rows(alloc: Global) -> Result<Changes, AllocError> {
    let mut rows = Changes::new(alloc);
    for (name, site) in SITES {
        rows.push(Change::Site {
            name: text(alloc, name)?,
            version: 3,
            text: bytes(alloc, site)?,
        })?;
    }
    for (id, action) in ACTIONS {
        rows.push(Change::Action {
            id,
            text: bytes(alloc, action)?,
            digest: [7; 32],
        })?;
    }
    for name in COMPUTERS {
        rows.push(Change::Computer(text(alloc, name)?))?;
    }
    for last in RESULTS {
        rows.push(Change::Result(result_of(alloc, last)?))?;
    }
    Ok(rows)
}

/// Puts the rows, and answers whether they were put.
fn put(keeper: &mut MemoryKeeper, rows: &[Change]) -> bool {
    if !rows.iter().all(|row| row.fits()) {
        return false;
    }
    match keeper.apply(rows) {
        Applied::Done => true,
        _ => false,
    }
}

/// A keeper of these rows. The reading calls with these numbers fail. None where the rows aren't put.
pub fn keeper(alloc: Global, fails: Vec<u32>) -> Option<MemoryKeeper> {
    let rows = rows(alloc).ok()?;
    let mut keeper = MemoryKeeper::new(alloc, Vec::new(alloc), fails);
    if !put(&mut keeper, rows.as_slice()) {
        return None;
    }
    Some(keeper)
}
