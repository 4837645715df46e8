use desk_base::Bytes;
use fix_site::read_site;
use line_forms::write_digest;
use rel_lexer::Text;
use relay_core::{Asked, Gathered, Relay};
use sha2::{Digest, Sha256};
use std::alloc::Global;
use std::test::Fail;

/// Gives the relay the empty site of this first line. The answer is the kept version, 0 where the site is new.
fn given(alloc: Global, relay: &mut Relay, line: &[u8]) -> Result<u64, Fail> {
    let mut text = Bytes::from_slice(alloc, line)?;
    text.extend(b"digest ")?;
    write_digest(&Sha256::digest(line), &mut text)?;
    text.push(b'\n')?;
    let Ok(site) = read_site(alloc, text.as_slice()) else {
        return Err("no site".into());
    };
    match relay.site(&site) {
        Gathered::New => Ok(0),
        Gathered::Older(version) => Ok(version),
        Gathered::Memory => Err("no memory".into()),
    }
}

/// The version that the relay answers to one who has this version, 0 where it has none above it.
fn newer(relay: &Relay, name: &Text, version: u64) -> u64 {
    match relay.ask(name, version) {
        Asked::New(site) => site.version,
        Asked::Same => 0,
    }
}

#[test]
fn the_newest_sites_are_kept(rt: HostRuntime) -> Result<(), Fail> {
    let alloc = rt.alloc();
    let mut relay = Relay::new(alloc, 0);
    let rows = [
        (b"site c2 3\n".as_slice(), 0),
        (b"site c10 1\n".as_slice(), 0),
        (b"site c2 2\n".as_slice(), 3),
        (b"site c2 3\n".as_slice(), 3),
        (b"site c2 4\n".as_slice(), 0),
        (b"site c 9\n".as_slice(), 0),
    ];
    for (line, wanted) in rows {
        assert_eq!(rt; given(alloc, &mut relay, line)?, wanted);
    }
    let sites = relay.sites();
    assert_eq!(rt; sites.len(), 3);
    assert_eq!(rt; (sites[0].name.as_str(), sites[0].version), ("c", 9));
    assert_eq!(rt; (sites[1].name.as_str(), sites[1].version), ("c10", 1));
    assert_eq!(rt; (sites[2].name.as_str(), sites[2].version), ("c2", 4));
    let name = Text::from_str(alloc, "c2")?;
    assert_eq!(rt; newer(&relay, &name, 3), 4);
    assert_eq!(rt; newer(&relay, &name, 4), 0);
    assert_eq!(rt; newer(&relay, &Text::from_str(alloc, "c1")?, 0), 0);
    Ok(())
}
