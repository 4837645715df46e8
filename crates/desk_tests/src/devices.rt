use desk_base::{
    Bytes, Clock, Got, MemorySink, MemorySource, Put, Room, Sink, Source, StepClock, Told, Whole,
    decimal, read_all,
};
use std::test::Fail;

#[test]
fn bytes_grow_and_are_copied(rt: HostRuntime) -> Result<(), Fail> {
    let mut bytes = Bytes::new(rt.alloc());
    bytes.push(b'a')?;
    bytes.extend(b" is ")?;
    decimal(u64::MAX, &mut bytes)?;
    assert_eq!(rt;
        bytes.copy()?.as_slice(),
        b"a is 18446744073709551615".as_slice()
    );
    Ok(())
}

#[test]
fn a_room_is_filled(rt: HostRuntime) -> Result<(), Fail> {
    let mut room = Room::with_capacity(rt.alloc(), 3)?;
    room.push(b'a');
    room.extend(b" b");
    room.reserve(2)?;
    room.extend(b"42");
    assert_eq!(rt; room.into_bytes().as_slice(), b"a b42".as_slice());
    Ok(())
}

/// How many bytes a read gave. Where nothing was left that is 100, and where it failed 200.
fn count(got: Got) -> usize {
    match got {
        Got::Some(count) => count,
        Got::End => 100,
        Got::Failed => 200,
    }
}

#[test]
fn a_source_is_read_to_its_end(rt: HostRuntime) -> Result<(), Fail> {
    let alloc = rt.alloc();
    let bytes = Bytes::from_slice(alloc, b"12345")?;
    let mut source = MemorySource::new(alloc, bytes, [2].to_vec(alloc)?);
    let mut room = [0u8; 2];
    let reads = [source.read(&mut room), source.read(&mut room)].map(count);
    assert_eq!(rt; reads, [2, 200]);
    let whole = read_all(alloc, &mut source, 3);
    let Whole::Read(rest) = whole.copy()? else {
        return Err("not read".into());
    };
    assert_eq!(rt; rest.as_slice(), b"345".as_slice());
    Ok(())
}

fn is_done(put: Put) -> bool {
    matches!(put, Put::Done)
}

fn moment(told: Told) -> i64 {
    match told {
        Told::Moment(moment) => moment,
        Told::Failed => -1,
    }
}

#[test]
fn sinks_and_clocks_in_memory_fail_at_the_listed_calls(rt: HostRuntime) -> Result<(), Fail> {
    let alloc = rt.alloc();
    let mut sink = MemorySink::new(alloc, [2].to_vec(alloc)?);
    let writes = [sink.write(b"a"), sink.write(b"b"), sink.write(b"c")].map(is_done);
    assert_eq!(rt; writes, [true, false, true]);
    assert_eq!(rt; sink.as_slice(), b"ac".as_slice());
    let mut clock = StepClock::new(alloc, [7, 5].to_vec(alloc)?, [2].to_vec(alloc)?);
    let told = [clock.now(), clock.now(), clock.now(), clock.now()].map(moment);
    assert_eq!(rt; told, [7, -1, 5, -1]);
    Ok(())
}
