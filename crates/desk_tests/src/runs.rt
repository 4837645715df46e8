// One run of the top call over devices in memory.
use agent_text::MemoryPocket;
use bf_machine::{PlainMachine, read_world};
use desk_base::{MemorySink, MemorySource, StepClock};
use desk_door::{MemoryDoor, MemoryLink};
use desk_keep::MemoryKeeper;
use desk_top::desk;
use rel_lexer::Text;
use std::alloc::Global;
use std::mem::drop;

/// A machine with nothing on it.
const BARE: &[u8] = b"world\nname pc1\nsystem 12.4 Debian\noffset 0\nmoment 0\nend\n";

fn texts(alloc: Global, words: &[&str]) -> Option<Vec<Text>> {
    let mut texts = Vec::new(alloc);
    for word in words {
        let text = Text::from_str(alloc, word).ok()?;
        texts.push(text).ok()?;
    }
    Some(texts)
}

fn bare_machine(alloc: Global) -> Option<PlainMachine> {
    let world = read_world(alloc, BARE).ok()?;
    let none = || Vec::new(alloc);
    Some(PlainMachine::new(alloc, world, none(), none(), none()))
}

/// The number of the status of a run over these devices, and a machine with nothing on it.
pub fn run_over(
    alloc: Global,
    words: &[&str],
    source: &mut MemorySource,
    sink: &mut MemorySink,
    pocket: &mut MemoryPocket,
    keeper: &mut MemoryKeeper,
    door: &mut MemoryDoor,
    link: &mut MemoryLink,
    clock: &mut StepClock,
) -> Option<u8> {
    let words = texts(alloc, words)?;
    let mut machine = bare_machine(alloc)?;
    let status = desk(
        alloc,
        &words,
        source,
        sink,
        &mut machine,
        pocket,
        keeper,
        door,
        link,
        clock,
    )
    .number();
    drop(words);
    drop(machine);
    Some(status)
}

/// The same with a clock without a moment, an empty pocket and a link that nobody answers.
pub fn run(
    alloc: Global,
    words: &[&str],
    source: &mut MemorySource,
    sink: &mut MemorySink,
    keeper: &mut MemoryKeeper,
    door: &mut MemoryDoor,
) -> Option<u8> {
    let mut pocket = MemoryPocket::new(alloc, Vec::new(alloc), Vec::new(alloc));
    let mut link = MemoryLink::new(alloc, Vec::new(alloc), Vec::new(alloc));
    let mut clock = StepClock::new(alloc, Vec::new(alloc), Vec::new(alloc));
    let status = run_over(
        alloc,
        words,
        source,
        sink,
        &mut pocket,
        keeper,
        door,
        &mut link,
        &mut clock,
    );
    drop(pocket);
    drop(link);
    drop(clock);
    status
}
