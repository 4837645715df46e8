use crate::batch::Batch;
use crate::rows::{find, row, table};
use crate::shown::{show_found, show_listed};
use act_rules::{Note, Outcome};
use desk_base::Bytes;
use desk_keep::{Applied, Change, Counted, Keeper, ReportRow, ResultRow};
use desk_sql::{Database, SqlKeeper};
use rel_lexer::Text;
use std::alloc::{AllocError, Global};
use std::io;
use std::time::Instant;

/// Obeys the command of a line.
pub(crate) fn obey<D: Database>(
    rt: &HostRuntime,
    keeper: &mut SqlKeeper<'_, D>,
    batch: &mut Batch,
    line: &str,
) -> io::Result<()> {
    let alloc = rt.alloc();
    let (word, rest) = match line.split_once(' ') {
        Some((word, rest)) => (word, rest),
        None => (line, ""),
    };
    match word {
        "open" => match Text::from_str(alloc, rest) {
            Ok(place) => open(rt, keeper, &place),
            Err(_) => println!(rt; "memory"),
        },
        "close" => {
            let closed = shown(keeper.close());
            println!(rt; "{closed}")
        }
        "row" => add(rt, batch, rest),
        "apply" => apply(rt, keeper, batch),
        "get" => match find(alloc, rest) {
            Some(find) => show_found(rt, &keeper.get(&find)),
            None => println!(rt; "no key"),
        },
        "list" => match table(rest) {
            Some(table) => show_listed(rt, &keeper.list(table)),
            None => println!(rt; "no table"),
        },
        "versions" => show_listed(rt, &keeper.versions()),
        "results" => match Text::from_str(alloc, rest) {
            Ok(name) => show_listed(rt, &keeper.results(&name)),
            Err(_) => println!(rt; "memory"),
        },
        "count" => count(rt, keeper, rest),
        "fill" => fill(rt, keeper, rest.parse().unwrap_or(0)),
        "files" => files(rt, keeper, rest.parse().unwrap_or(0)),
        "time" => time(rt, keeper),
        _ => println!(rt; "no command"),
    }
}

fn shown(applied: Applied) -> &'static str {
    match applied {
        Applied::Done => "done",
        Applied::Failed => "failed",
        Applied::Memory => "memory",
    }
}

fn open<K: Keeper>(rt: &HostRuntime, keeper: &mut K, place: &Text) -> io::Result<()> {
    let begun = Instant::now(rt)?;
    let opened = shown(keeper.open(place));
    let spent = begun.elapsed(rt)?;
    println!(rt; "{opened}")?;
    eprintln!(rt; "opened in {spent:?}")
}

/// Adds a row to the batch.
fn add(rt: &HostRuntime, batch: &mut Batch, rest: &str) -> io::Result<()> {
    let Some(row) = row(rt.alloc(), rest) else {
        return println!(rt; "no row");
    };
    match batch.add(row) {
        Ok(true) => Ok(()),
        Ok(false) => println!(rt; "no row"),
        Err(_) => println!(rt; "memory"),
    }
}

/// Puts the batch, and begins a new one.
fn apply<K: Keeper>(rt: &HostRuntime, keeper: &mut K, batch: &mut Batch) -> io::Result<()> {
    let applied = shown(keeper.apply(batch.as_slice()));
    *batch = Batch::new(rt.alloc());
    println!(rt; "{applied}")
}

fn count<K: Keeper>(rt: &HostRuntime, keeper: &mut K, rest: &str) -> io::Result<()> {
    let Some(table) = table(rest) else {
        return println!(rt; "no table");
    };
    match keeper.count(table) {
        Counted::Rows(rows) => println!(rt; "{rows}"),
        Counted::Failed => println!(rt; "failed"),
        Counted::Memory => println!(rt; "memory"),
    }
}

/// What a server puts for report `n`: the computer, the report and one result.
fn report(alloc: Global, n: u64) -> Result<Batch, AllocError> {
    let computer = n % 10_000;
    let name = format!(in alloc; "pc{computer}")?;
    let seq = n / 10_000 + 1;
    let mut digest = [7u8; 32];
    digest[..8].copy_from_slice(&n.to_be_bytes());
    let mut batch = Batch::new(alloc);
    batch.add(Change::Computer(Text::from_str(alloc, name.as_str())?))?;
    batch.add(Change::Report {
        computer: Text::from_str(alloc, name.as_str())?,
        seq,
        digest,
    })?;
    batch.add(Change::Result(ResultRow {
        computer: Text::from_str(alloc, name.as_str())?,
        row: ReportRow {
            action: 7,
            number: 1,
            begun: 1000,
            end: Some((1010, Outcome::Fixed)),
            note: Note {
                exit: Some(0),
                place: None,
            },
        },
        seq,
    }))?;
    Ok(batch)
}

/// Puts so many reports, each in an apply of its own, behind those that are there.
fn fill<K: Keeper>(rt: &HostRuntime, keeper: &mut K, reports: u64) -> io::Result<()> {
    let Counted::Rows(from) = keeper.count(desk_keep::Table::Reports) else {
        return println!(rt; "failed");
    };
    let begun = Instant::now(rt)?;
    let mut done = 0u64;
    for n in from..from.saturating_add(reports) {
        let Ok(batch) = report(rt.alloc(), n) else {
            return println!(rt; "memory");
        };
        if let Applied::Done = keeper.apply(batch.as_slice()) {
            done = done.saturating_add(1);
        }
    }
    let spent = begun.elapsed(rt)?;
    println!(rt; "{done} applies")?;
    eprintln!(rt; "filled in {spent:?}")
}

/// Puts so many files and sites of 4 MiB each.
fn files<K: Keeper>(rt: &HostRuntime, keeper: &mut K, count: u64) -> io::Result<()> {
    let alloc = rt.alloc();
    let mut done = 0u64;
    for n in 0..count {
        let Ok(row) = large_row(alloc, n) else {
            return println!(rt; "memory");
        };
        if let Applied::Done = keeper.apply(row.as_slice()) {
            done = done.saturating_add(1);
        }
    }
    println!(rt; "{done} applies")
}

fn large_row(alloc: Global, n: u64) -> Result<Batch, AllocError> {
    let mut digest = [7u8; 32];
    digest[..8].copy_from_slice(&n.to_be_bytes());
    let mut bytes = Bytes::new(alloc);
    for _ in 0..4096 {
        bytes.extend(&[b'x'; 1024])?;
    }
    let name = format!(in alloc; "site{n}")?;
    let mut rows = Batch::new(alloc);
    rows.add(Change::Site {
        name: Text::from_str(alloc, name.as_str())?,
        version: 1,
        text: bytes.copy()?,
    })?;
    rows.add(Change::File { digest, bytes })?;
    Ok(rows)
}

/// How long it takes to ask for the versions.
fn time<K: Keeper>(rt: &HostRuntime, keeper: &mut K) -> io::Result<()> {
    let begun = Instant::now(rt)?;
    let _ = keeper.versions();
    let spent = begun.elapsed(rt)?;
    println!(rt; "done")?;
    eprintln!(rt; "versions in {spent:?}")
}
