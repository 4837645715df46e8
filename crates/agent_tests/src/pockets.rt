use agent_text::{Loaded, MemoryPocket, Pocket, SaveResult, SurePocket};
use rel_lexer::Text;
use std::mem::drop;
use std::test::Fail;

/// What a load answered, in a word.
fn named(loaded: &Loaded) -> &'static str {
    match loaded {
        Loaded::Nothing => "nothing",
        Loaded::Saved(text) if text.as_slice() == b"one".as_slice() => "one",
        Loaded::Saved(text) if text.as_slice() == b"two".as_slice() => "two",
        Loaded::Saved(_) => "another text",
        Loaded::Failed => "failed",
        Loaded::Memory => "memory",
    }
}

/// What a copy of the answer is.
fn copied(loaded: &Loaded) -> &'static str {
    let Ok(copy) = loaded.copy() else {
        return "no copy";
    };
    let name = named(&copy);
    drop(copy);
    name
}

/// What a load answers, in a word, as a copy of it tells.
fn loaded<P: Pocket>(pocket: &mut P) -> &'static str {
    let loaded = pocket.load();
    let name = copied(&loaded);
    drop(loaded);
    name
}

/// What a save answers, in a word.
fn saved<P: Pocket>(pocket: &mut P, text: &[u8]) -> &'static str {
    match pocket.save(text) {
        SaveResult::Done => "done",
        SaveResult::Failed => "failed",
        SaveResult::Memory => "memory",
    }
}

#[test]
fn a_pocket_holds_the_last_text(rt: HostRuntime) -> Result<(), Fail> {
    let alloc = rt.alloc();
    let loads = [2].to_vec(alloc)?;
    let saves = [2].to_vec(alloc)?;
    let mut pocket = MemoryPocket::new(alloc, loads, saves);
    let place = Text::from_str(alloc, "here")?;
    pocket.open(&place)?;
    assert_eq!(rt; loaded(&mut pocket), "nothing");
    assert_eq!(rt; loaded(&mut pocket), "failed");
    assert_eq!(rt; saved(&mut pocket, b"one"), "done");
    assert_eq!(rt; saved(&mut pocket, b"two"), "failed");
    assert_eq!(rt; loaded(&mut pocket), "one");
    assert_eq!(rt; saved(&mut pocket, b"two"), "done");
    assert_eq!(rt; loaded(&mut pocket), "two");
    assert_eq!(rt; pocket.text().is_some(), true);
    Ok(())
}

#[test]
fn a_pocket_that_never_fails_holds_the_last_text(rt: HostRuntime) -> Result<(), Fail> {
    let mut pocket = SurePocket::new(rt.alloc());
    assert_eq!(rt; loaded(&mut pocket), "nothing");
    assert_eq!(rt; saved(&mut pocket, b"one"), "done");
    assert_eq!(rt; saved(&mut pocket, b"two"), "done");
    assert_eq!(rt; loaded(&mut pocket), "two");
    assert_eq!(rt; pocket.text().is_some(), true);
    Ok(())
}
