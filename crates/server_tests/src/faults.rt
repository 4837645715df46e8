use crate::talk::{AMPLE, Said, keeper, tables, told};
use crate::texts::*;
use desk_keep::{Applied, Change, Changes, Keeper, Listed, MemoryKeeper, Table};
use std::alloc::Global;
use std::test::Fail;

/// The rows of a server that has kept a site, an action, a file and a report.
fn some_rows(alloc: Global) -> Result<Changes, Fail> {
    let mut keeper = keeper(alloc, &[], &[])?;
    let kept = [
        Said::Publish(DESK_1),
        Said::Act(ACTION_7),
        Said::File("abc"),
        Said::Report(REPORT_1),
    ];
    for said in kept {
        told(alloc, AMPLE, &mut keeper, said)?;
    }
    let all = [
        Table::Sites,
        Table::Actions,
        Table::Files,
        Table::Computers,
        Table::Reports,
        Table::Results,
    ];
    let mut rows = Changes::new(alloc);
    for table in all {
        add_rows(&mut rows, &keeper.list(table))?;
    }
    Ok(rows)
}

fn add_rows(rows: &mut Changes, listed: &Listed) -> Result<(), Fail> {
    let Listed::Changes(listed) = listed else {
        return Err("not listed".into());
    };
    for row in listed.as_slice() {
        rows.push(row.copy()?)?;
    }
    Ok(())
}

/// A keeper of these rows, put by its first apply. The reading call and the apply with these numbers fail.
fn keeper_of(alloc: Global, rows: &[Change], apply: u32, read: u32) -> Result<MemoryKeeper, Fail> {
    let mut keeper = keeper(alloc, &[apply], &[read])?;
    if !rows.iter().all(|row| row.fits()) {
        return Err("not in form".into());
    }
    match keeper.apply(rows) {
        Applied::Done => Ok(keeper),
        _ => Err("not put".into()),
    }
}

/// How many reading calls a request makes. Each of them fails once; then the reply is a fault, and the tables are as before.
fn reads_of(alloc: Global, rows: &[Change], before: &str, said: Said) -> Result<Option<u32>, Fail> {
    for read in 1..20 {
        let mut keeper = keeper_of(alloc, rows, 0, read)?;
        if told(alloc, AMPLE, &mut keeper, said)?.as_str() != "keeper fault\n" {
            return Ok(Some(read - 1));
        }
        if tables(alloc, &mut keeper)?.as_str() != before {
            return Err("the tables have changed".into());
        }
    }
    Ok(None)
}

#[test]
fn each_call_of_the_keeper_fails_once(rt: HostRuntime) -> Result<(), Fail> {
    let alloc = rt.alloc();
    let rows = some_rows(alloc)?;
    let before = tables(alloc, &mut keeper_of(alloc, rows.as_slice(), 0, 0)?)?;
    let requests = [
        (Said::Publish(DESK_2), 1),
        (Said::Publish(TOOLS_1), 3),
        (Said::Act(ACTION_7), 1),
        (Said::Act(ACTION_8), 4),
        (Said::Stop(7), 2),
        (Said::File("abd"), 2),
        (Said::AskSites, 1),
        (Said::AskSite("desk", 0), 1),
        (Said::AskSite("actionsite", 1), 1),
        (Said::AskSite("actionsite", 0), 2),
        (Said::AskFile("abc"), 1),
        (Said::Report(REPORT_1), 1),
        (Said::Report(REPORT_3), 5),
        (Said::Report(OF_PC2), 4),
        (Said::Results("pc1"), 2),
        (Said::Publish(NO_SITE), 0),
    ];
    for (said, reads) in requests {
        let made = reads_of(alloc, rows.as_slice(), before.as_str(), said)?;
        assert_eq!(rt; made, Some(reads));
    }
    Ok(())
}

/// What is answered to a request whose apply fails, and to the same behind that. The tables stay where it fails.
fn retried(
    alloc: Global,
    rows: &[Change],
    before: &str,
    said: Said,
) -> Result<(String, String), Fail> {
    let mut keeper = keeper_of(alloc, rows, 2, 0)?;
    let first = told(alloc, AMPLE, &mut keeper, said)?;
    if tables(alloc, &mut keeper)?.as_str() != before {
        return Err("the tables have changed".into());
    }
    Ok((first, told(alloc, AMPLE, &mut keeper, said)?))
}

#[test]
fn an_apply_that_fails_leaves_the_tables(rt: HostRuntime) -> Result<(), Fail> {
    let alloc = rt.alloc();
    let rows = some_rows(alloc)?;
    let before = tables(alloc, &mut keeper_of(alloc, rows.as_slice(), 0, 0)?)?;
    let requests = [
        (Said::Publish(DESK_2), "ok\n"),
        (Said::Act(ACTION_8), "ok\n"),
        (Said::Stop(7), "ok\n"),
        (Said::Report(REPORT_3), "ok\n"),
        (Said::File(""), NOTHING_IS_KEPT),
    ];
    for (said, wanted) in requests {
        let (first, second) = retried(alloc, rows.as_slice(), before.as_str(), said)?;
        assert_eq!(rt;
            (first.as_str(), second.as_str()),
            ("keeper fault\n", wanted)
        );
    }
    Ok(())
}
