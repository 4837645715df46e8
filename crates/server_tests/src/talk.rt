use desk_base::Bytes;
use desk_keep::{Change, Keeper, Listed, MemoryKeeper, Table};
use rel_lexer::Text;
use server_core::{Limits, Server};
use server_text::{Request, say_reply};
use sha2::{Digest, Sha256};
use std::alloc::Global;
use std::test::Fail;

/// Limits that nothing meets here.
pub const AMPLE: Limits = Limits {
    sites: 100,
    actions: 1000,
    files: 500,
    computers: 100_000,
    reports: 2_000_000,
};

/// A request as plain data. A file is asked for by its bytes.
#[derive(Clone, Copy)]
pub enum Said {
    Publish(&'static str),
    Act(&'static str),
    Stop(u64),
    File(&'static str),
    AskSites,
    AskSite(&'static str, u64),
    AskFile(&'static str),
    Report(&'static str),
    Results(&'static str),
}

/// The request of plain data.
pub fn request(alloc: Global, said: Said) -> Result<Request, Fail> {
    Ok(match said {
        Said::Publish(site) => Request::Publish(bytes(alloc, site)?),
        Said::Act(action) => Request::Act(bytes(alloc, action)?),
        Said::Stop(id) => Request::Stop(id),
        Said::File(file) => Request::File(bytes(alloc, file)?),
        Said::AskSites => Request::AskSites,
        Said::AskSite(name, version) => Request::AskSite(Text::from_str(alloc, name)?, version),
        Said::AskFile(file) => Request::AskFile(Sha256::digest(file.as_bytes())),
        Said::Report(report) => Request::Report(bytes(alloc, report)?),
        Said::Results(computer) => Request::Results(Text::from_str(alloc, computer)?),
    })
}

/// The bytes of a text.
pub fn bytes(alloc: Global, text: &str) -> Result<Bytes, Fail> {
    Ok(Bytes::from_slice(alloc, text.as_bytes())?)
}

/// A keeper of nothing whose applies and reading calls with these numbers fail.
pub fn keeper(alloc: Global, applies: &[u32], reads: &[u32]) -> Result<MemoryKeeper, Fail> {
    let applies = Vec::from_slice(alloc, applies)?;
    let reads = Vec::from_slice(alloc, reads)?;
    Ok(MemoryKeeper::new(alloc, applies, reads))
}

/// What the server answers to a request, as it is written.
pub fn answered<K: Keeper>(
    alloc: Global,
    limits: Limits,
    keeper: &mut K,
    request: &Request,
) -> Result<String, Fail> {
    let reply = Server::new(limits)
        .answer(alloc, keeper, &request.copy()?)
        .copy()?;
    let mut out = Bytes::new(alloc);
    say_reply(&reply, &mut out)?;
    Ok(String::from_utf8(Vec::from_slice(alloc, out.as_slice())?)?)
}

/// The same of plain data.
pub fn told<K: Keeper>(
    alloc: Global,
    limits: Limits,
    keeper: &mut K,
    said: Said,
) -> Result<String, Fail> {
    answered(alloc, limits, keeper, &request(alloc, said)?)
}

/// All tables in a line.
pub fn tables<K: Keeper>(alloc: Global, keeper: &mut K) -> Result<String, Fail> {
    let mut line = String::new(alloc);
    let all = [
        Table::Sites,
        Table::Actions,
        Table::Files,
        Table::Computers,
        Table::Reports,
        Table::Results,
    ];
    for table in all {
        show_rows(&mut line, &keeper.list(table))?;
    }
    Ok(line)
}

fn show_rows(line: &mut String, rows: &Listed) -> Result<(), Fail> {
    let Listed::Changes(rows) = rows else {
        return Err("not listed".into());
    };
    for row in rows.as_slice() {
        show(line, row)?;
        line.push_str(", ")?;
    }
    Ok(())
}

/// Appends a row: its key, and of texts the length, of digests the first byte.
fn show(line: &mut String, row: &Change) -> Result<(), Fail> {
    match row {
        Change::Site {
            name,
            version,
            text,
        } => write!(
            line,
            "site {} {version} {}",
            name.as_str(),
            text.as_slice().len()
        )?,
        Change::Action { id, text, digest } => {
            write!(line, "action {id} {} {}", text.as_slice().len(), digest[0])?;
        }
        Change::File { digest, bytes } => {
            write!(line, "file {} {}", digest[0], bytes.as_slice().len())?;
        }
        Change::Computer(name) => write!(line, "computer {}", name.as_str())?,
        Change::Report {
            computer,
            seq,
            digest,
        } => write!(line, "report {} {seq} {}", computer.as_str(), digest[0])?,
        Change::Result(last) => write!(
            line,
            "result {} {} {} {}",
            last.computer.as_str(),
            last.row.action,
            last.row.number,
            last.seq
        )?,
    }
    Ok(())
}
