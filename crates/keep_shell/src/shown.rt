use act_rules::Outcome;
use desk_keep::{Change, Found, Listed, ResultRow};
use std::io;

/// Writes the row that was found.
pub(crate) fn show_found(rt: &HostRuntime, found: &Found) -> io::Result<()> {
    match found {
        Found::Change(row) => show(rt, row),
        Found::Nothing => println!(rt; "nothing"),
        Found::Failed => println!(rt; "failed"),
        Found::Memory => println!(rt; "memory"),
    }
}

/// Writes the rows that were listed.
pub(crate) fn show_listed(rt: &HostRuntime, listed: &Listed) -> io::Result<()> {
    match listed {
        Listed::Changes(rows) => {
            for row in rows.as_slice() {
                show(rt, row)?;
            }
            let count = rows.as_slice().len();
            println!(rt; "{count} rows")
        }
        Listed::Failed => println!(rt; "failed"),
        Listed::Memory => println!(rt; "memory"),
    }
}

fn show(rt: &HostRuntime, row: &Change) -> io::Result<()> {
    match row {
        Change::Site {
            name,
            version,
            text,
        } => {
            let (name, bytes) = (name.as_str(), text.as_slice().len());
            println!(rt; "  site {name} {version}, {bytes} bytes")
        }
        Change::Action { id, text, digest } => {
            let (bytes, first) = (text.as_slice().len(), digest[0]);
            println!(rt; "  action {id} {first}, {bytes} bytes")
        }
        Change::File { digest, bytes } => {
            let (bytes, first) = (bytes.as_slice().len(), digest[0]);
            println!(rt; "  file {first}, {bytes} bytes")
        }
        Change::Computer(name) => {
            let name = name.as_str();
            println!(rt; "  computer {name}")
        }
        Change::Report {
            computer,
            seq,
            digest,
        } => {
            let (name, first) = (computer.as_str(), digest[0]);
            println!(rt; "  report {name} {seq} {first}")
        }
        Change::Result(last) => show_result(rt, last),
    }
}

fn show_result(rt: &HostRuntime, last: &ResultRow) -> io::Result<()> {
    let (name, action, number) = (last.computer.as_str(), last.row.action, last.row.number);
    let (begun, seq) = (last.row.begun, last.seq);
    match (last.row.end, last.row.note.exit, last.row.note.place) {
        (None, None, None) => println!(rt;
            "  result {name} {action} {number} running {begun} {seq}"
        ),
        (Some((end, Outcome::Fixed)), Some(exit), None) => {
            println!(rt; "  result {name} {action} {number} fixed {begun} {end} {exit} {seq}")
        }
        (Some((end, Outcome::Failed)), Some(exit), Some((component, line))) => {
            println!(rt;
                "  result {name} {action} {number} failed {begun} {end} {exit} {component} {line} {seq}"
            )
        }
        (Some((end, Outcome::Failed)), None, None) => {
            println!(rt; "  result {name} {action} {number} failed {begun} {end} {seq}")
        }
        _ => println!(rt; "  result {name} {action} {number} other {begun} {seq}"),
    }
}
