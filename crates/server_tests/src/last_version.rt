use crate::talk::{AMPLE, Said, answered, bytes, keeper, request};
use crate::texts::*;
use desk_base::Bytes;
use desk_keep::{Applied, Change, Keeper, MemoryKeeper};
use rel_lexer::Text;
use sha2::{Digest, Sha256};
use std::alloc::Global;
use std::test::Fail;

/// The last version of a site.
pub const LAST: u64 = 9_007_199_254_740_992;

/// Puts rows, as a server left them.
fn put<K: Keeper>(keeper: &mut K, rows: &[Change]) -> Result<(), Fail> {
    if !rows.iter().all(|row| row.fits()) {
        return Err("not in form".into());
    }
    match keeper.apply(rows) {
        Applied::Done => Ok(()),
        _ => Err("not put".into()),
    }
}

/// The row of `actionsite` in this version.
fn actionsite(alloc: Global, version: u64) -> Result<Change, Fail> {
    Ok(Change::Site {
        name: Text::from_str(alloc, "actionsite")?,
        version,
        text: Bytes::new(alloc),
    })
}

/// The row of the first action with this text.
fn action_7(alloc: Global, text: &str) -> Result<Change, Fail> {
    Ok(Change::Action {
        id: 7,
        text: bytes(alloc, text)?,
        digest: Sha256::digest(ACTION_7.as_bytes()),
    })
}

/// A keeper of the site of actions in a version, and of the first action with this text.
pub fn begun(alloc: Global, version: u64, action: &str) -> Result<MemoryKeeper, Fail> {
    let mut keeper = keeper(alloc, &[], &[])?;
    put(
        &mut keeper,
        &[actionsite(alloc, version)?, action_7(alloc, action)?],
    )?;
    Ok(keeper)
}

/// The row of an action whose text has so many bytes before its state.
fn long_action(alloc: Global, length: usize, end: &str) -> Result<Change, Fail> {
    let mut text = Bytes::new(alloc);
    let piece = [b'x'; 65_536];
    for _ in 0..length / 65_536 {
        text.extend(&piece)?;
    }
    for _ in 0..length % 65_536 {
        text.push(b'x')?;
    }
    text.extend(end.as_bytes())?;
    Ok(Change::Action {
        id: 1,
        text,
        digest: [0; 32],
    })
}

#[test]
fn the_text_of_actions_stays_short(rt: HostRuntime) -> Result<(), Fail> {
    let alloc = rt.alloc();
    // the longest text beside which the first action has room: 4,194,304 bytes less 105 of the site, 150 of the action and 18 of a state
    let rows = [
        (4_194_031, "state open\nend\n", 1, "ok\n"),
        (4_194_031, "state stopped\nend\n", 1, "ok\n"),
        (4_194_032, "state open\nend\n", 1, "full 4194304\n"),
        (4_194_032, "state stopped\nend\n", LAST, "full 4194304\n"),
        (
            4_194_031,
            "state open\nend\n",
            LAST,
            "full 9007199254740992\n",
        ),
    ];
    for (length, end, version, wanted) in rows {
        let mut keeper = keeper(alloc, &[], &[])?;
        put(
            &mut keeper,
            &[
                actionsite(alloc, version)?,
                long_action(alloc, length, end)?,
            ],
        )?;
        let act = request(alloc, Said::Act(ACTION_7))?;
        assert_eq!(rt; answered(alloc, AMPLE, &mut keeper, &act)?.as_str(), wanted);
    }
    Ok(())
}
