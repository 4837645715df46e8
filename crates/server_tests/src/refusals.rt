use crate::talk::{AMPLE, answered, keeper};
use desk_base::Bytes;
use server_text::Request;
use std::alloc::Global;
use std::test::Fail;

/// So many bytes.
fn long(alloc: Global, pieces: usize) -> Result<Bytes, Fail> {
    let mut bytes = Bytes::new(alloc);
    for _ in 0..pieces {
        bytes.extend(&[b'x'; 65_536])?;
    }
    bytes.push(b'x')?;
    Ok(bytes)
}

#[test]
fn a_text_that_is_too_long_is_told_by_line_0(rt: HostRuntime) -> Result<(), Fail> {
    let alloc = rt.alloc();
    let mut keeper = keeper(alloc, &[], &[])?;
    let requests = [
        Request::Publish(long(alloc, 64)?),
        Request::Act(long(alloc, 64)?),
        Request::Report(long(alloc, 1)?),
    ];
    for request in &requests {
        assert_eq!(rt;
            answered(alloc, AMPLE, &mut keeper, request)?.as_str(),
            "bad text 0\n"
        );
    }
    Ok(())
}
