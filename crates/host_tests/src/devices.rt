use desk_base::{Clock, Got, Put, Sink, Source, Told};
use host_edge::{FileSink, FileSource, SystemClock};
use std::io::{self, Error, ErrorKind, Read, Write};
use std::time::{self, Duration};

/// A reader, writer and clock that fails at each call.
#[derive(Drop)]
struct Broken;

impl Read for Broken {
    fn read(&mut self, _buf: &mut [u8]) -> io::Result<usize> {
        Err(Error::from(ErrorKind::BrokenPipe))
    }
}

impl Write for Broken {
    fn write(&mut self, _buf: &[u8]) -> io::Result<usize> {
        Err(Error::from(ErrorKind::BrokenPipe))
    }

    fn flush(&mut self) -> io::Result<()> {
        Ok(())
    }
}

impl time::Clock for Broken {
    fn monotonic(&self) -> io::Result<Duration> {
        Err(Error::from(ErrorKind::BrokenPipe))
    }

    fn since_1970(&self) -> io::Result<Duration> {
        Err(Error::from(ErrorKind::BrokenPipe))
    }
}

/// A clock that stands still at a number of seconds since 1970.
#[derive(Drop)]
struct Still(u64);

impl time::Clock for Still {
    fn monotonic(&self) -> io::Result<Duration> {
        Ok(Duration::from_secs(self.0))
    }

    fn since_1970(&self) -> io::Result<Duration> {
        Ok(Duration::from_secs(self.0))
    }
}

#[test]
fn what_is_broken_is_a_fault(rt: HostRuntime) {
    let mut room = [0u8; 4];
    assert!(rt; matches!(FileSource::new(Broken, &rt).read(&mut room), Got::Failed));
    assert!(rt; matches!(FileSink::new(Broken, &rt).write(b"1"), Put::Failed));
    assert!(rt; matches!(SystemClock::new(Broken, &rt).now(), Told::Failed));
}

#[test]
fn bytes_go_through_as_they_are(rt: HostRuntime) {
    let mut room = [0u8; 4];
    let bytes: &[u8] = b"12";
    let mut source = FileSource::new(bytes, &rt);
    assert!(rt; matches!(source.read(&mut room), Got::Some(2)));
    assert_eq!(rt; room, *b"12\0\0");
    assert!(rt; matches!(source.read(&mut room), Got::End));
}

/// 2^37 seconds are the last moment.
#[test]
fn a_clock_behind_the_last_moment_gives_that(rt: HostRuntime) {
    assert!(rt; matches!(SystemClock::new(Still(7), &rt).now(), Told::Moment(7)));
    assert!(rt;
        matches!(
            SystemClock::new(Still(1 << 40), &rt).now(),
            Told::Moment(137_438_953_472)
        )
    );
}
