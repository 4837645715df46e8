use act_rules::{Note, Outcome};
use desk_base::Bytes;
use desk_keep::{
    Applied, Change, Changes, Counted, Find, Found, Keeper, Listed, ReportRow, ResultRow, Table,
};
use rel_lexer::Text;
use std::alloc::Global;
use std::test::Fail;

/// A row as plain data: its table, a name, the number of its key, and another number. A text or bytes are those of the name.
pub type Plain = (Table, &'static str, u64, u64);

/// Some rows of each table, out of order.
pub const SOME_ROWS: [Plain; 14] = [
    (Table::Results, "pc2", 7, 1),
    (Table::Results, "pc10", 7, 2),
    (Table::Results, "pc2", 3, 1),
    (Table::Reports, "pc2", 10, 202),
    (Table::Reports, "pc2", 9, 202),
    (Table::Computers, "pc2", 0, 0),
    (Table::Computers, "pc10", 0, 0),
    (Table::Files, "two", 202, 0),
    (Table::Files, "", 11, 0),
    (Table::Actions, "ten", 10, 0),
    (Table::Actions, "nine", 9, 0),
    (Table::Sites, "desk", 3, 0),
    (Table::Sites, "actionsite", 1, 0),
    (Table::Sites, "desk", 2, 0),
];

/// The row of plain data.
pub fn row(alloc: Global, plain: Plain) -> Result<Change, Fail> {
    let (table, name, number, other) = plain;
    Ok(match table {
        Table::Sites => Change::Site {
            name: Text::from_str(alloc, name)?,
            version: number,
            text: bytes(alloc, name)?,
        },
        Table::Actions => Change::Action {
            id: number,
            text: bytes(alloc, name)?,
            digest: digest(0),
        },
        Table::Files => Change::File {
            digest: digest(number),
            bytes: bytes(alloc, name)?,
        },
        Table::Computers => Change::Computer(Text::from_str(alloc, name)?),
        Table::Reports => Change::Report {
            computer: Text::from_str(alloc, name)?,
            seq: number,
            digest: digest(other),
        },
        Table::Results => Change::Result(result_of(alloc, name, number, other)?),
    })
}

fn bytes(alloc: Global, text: &str) -> Result<Bytes, Fail> {
    Ok(Bytes::from_slice(alloc, text.as_bytes())?)
}

/// The digest whose bytes are all this one.
fn digest(byte: u64) -> [u8; 32] {
    [u8::try_from(byte).unwrap_or(0); 32]
}

fn result_of(alloc: Global, computer: &str, action: u64, seq: u64) -> Result<ResultRow, Fail> {
    Ok(ResultRow {
        computer: Text::from_str(alloc, computer)?,
        row: ReportRow {
            action,
            number: 2,
            begun: 1000,
            end: Some((1060, Outcome::Failed)),
            note: Note {
                exit: Some(-3),
                place: Some((0, 9)),
            },
        },
        seq,
    })
}

/// The rows of plain data.
pub fn rows(alloc: Global, plain: &[Plain]) -> Result<Changes, Fail> {
    let mut rows = Changes::new(alloc);
    for one in plain {
        rows.push(row(alloc, *one)?)?;
    }
    Ok(rows)
}

/// The key of this table, name and number.
pub fn find(alloc: Global, table: Table, name: &str, number: u64) -> Result<Find, Fail> {
    Ok(match table {
        Table::Sites => Find::Site(Text::from_str(alloc, name)?),
        Table::Actions => Find::Action(number),
        Table::Files => Find::File(digest(number)),
        Table::Computers => Find::Computer(Text::from_str(alloc, name)?),
        Table::Reports => Find::Report(Text::from_str(alloc, name)?, number),
        Table::Results => Find::Result(Text::from_str(alloc, name)?, number),
    })
}

/// A line of its own.
fn line_of(alloc: Global, text: &str) -> Result<String, Fail> {
    let mut line = String::new(alloc);
    line.push_str(text)?;
    Ok(line)
}

/// What an apply or an opening was answered.
fn applied(applied: &Applied) -> &'static str {
    match applied {
        Applied::Done => "done",
        Applied::Failed => "failed",
        Applied::Memory => "memory",
    }
}

/// Opens the keeper.
pub fn opened<K: Keeper>(alloc: Global, keeper: &mut K) -> Result<String, Fail> {
    let place = Text::from_str(alloc, "k")?;
    line_of(alloc, applied(&keeper.open(&place)))
}

/// Puts the rows of plain data.
pub fn put<K: Keeper>(alloc: Global, keeper: &mut K, plain: &[Plain]) -> Result<String, Fail> {
    let rows = rows(alloc, plain)?;
    line_of(alloc, put_rows(keeper, rows.as_slice()))
}

fn put_rows<K: Keeper>(keeper: &mut K, rows: &[Change]) -> &'static str {
    if !rows.iter().all(|row| row.fits()) {
        return "not in form";
    }
    applied(&keeper.apply(rows))
}

/// A number of rows, as it is answered.
pub fn count_line(alloc: Global, counted: &Counted) -> Result<String, Fail> {
    let mut line = String::new(alloc);
    match counted {
        Counted::Rows(rows) => write!(line, "{rows}")?,
        Counted::Failed => line.push_str("failed")?,
        Counted::Memory => line.push_str("memory")?,
    }
    Ok(line)
}

/// The row of the key of this table, name and number.
pub fn found<K: Keeper>(
    alloc: Global,
    keeper: &mut K,
    table: Table,
    name: &str,
    number: u64,
) -> Result<String, Fail> {
    let key = find(alloc, table, name, number)?;
    found_line(alloc, &keeper.get(&key))
}

fn found_line(alloc: Global, found: &Found) -> Result<String, Fail> {
    let mut line = String::new(alloc);
    match found {
        Found::Change(row) => show(&mut line, row)?,
        Found::Nothing => line.push_str("nothing")?,
        Found::Failed => line.push_str("failed")?,
        Found::Memory => line.push_str("memory")?,
    }
    Ok(line)
}

/// The rows that are answered, each behind the one before.
pub fn list_line(alloc: Global, listed: &Listed) -> Result<String, Fail> {
    let mut line = String::new(alloc);
    match listed {
        Listed::Changes(rows) => show_all(&mut line, rows.as_slice())?,
        Listed::Failed => line.push_str("failed")?,
        Listed::Memory => line.push_str("memory")?,
    }
    Ok(line)
}

fn show_all(line: &mut String, rows: &[Change]) -> Result<(), Fail> {
    for row in rows {
        show(line, row)?;
        line.push_str(", ")?;
    }
    Ok(())
}

/// Appends a row.
fn show(line: &mut String, row: &Change) -> Result<(), Fail> {
    match row {
        Change::Site {
            name,
            version,
            text,
        } => {
            let bytes = text.as_slice().len();
            write!(line, "site {} {version} of {bytes}", name.as_str())?;
        }
        Change::Action { id, text, .. } => {
            write!(line, "action {id} of {}", text.as_slice().len())?;
        }
        Change::File { digest, bytes } => {
            write!(line, "file {} of {}", digest[0], bytes.as_slice().len())?;
        }
        Change::Computer(name) => write!(line, "computer {}", name.as_str())?,
        Change::Report {
            computer,
            seq,
            digest,
        } => write!(line, "report {} {seq} {}", computer.as_str(), digest[31])?,
        Change::Result(last) => show_result(line, last)?,
    }
    Ok(())
}

fn show_result(line: &mut String, last: &ResultRow) -> Result<(), Fail> {
    let (name, row, seq) = (last.computer.as_str(), &last.row, last.seq);
    write!(
        line,
        "result {name} {} {} from {seq}",
        row.action, row.number
    )?;
    match (row.end, row.note.exit, row.note.place) {
        (Some((end, Outcome::Failed)), Some(exit), Some((component, at))) => {
            write!(line, " failed {end} {exit} {component} {at}")?;
        }
        _ => line.push_str(" other")?,
    }
    Ok(())
}
