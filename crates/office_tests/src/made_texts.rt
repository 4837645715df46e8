// The texts that are made. The text for two computers was written by hand. The SHA-256 of those for one and for 2,000 is that of the
// texts which a program outside this repository makes.
use office_text::make;
use sha2::{Digest, Sha256};
use std::alloc::Global;
use std::test::Fail;

const TWO: &str = "office
publish
site desk 1
fixlet 1
title Upgrade agentd
relevance exists packages whose (name of it = \"agentd\" and version of it < \"1.2\")
success relevance
| wait upgrade agentd
end
digest 02505955b5f0b201e7eba54f47083f76401f6ed9b1727f913fa3628c9e14b864
act
action 1
issued 0
content desk 1
members stop
target all
start none
until none
hours none
days 1111111
retries 0 0
reapply never
state open
end
relay r1
computer c1 r1
world
name c1
system 12.4 Debian
offset 0
moment 1000
package 1.0 agentd
program 0 0 upgrade agentd
gives 1.2 agentd
end
computer c2 r1
world
name c2
system 12.4 Debian
offset 0
moment 1000
package 1.1 agentd
program 0 0 upgrade agentd
gives 1.2 agentd
end
gather r1
turn c1 1000
report c1
turn c2 1000
report c2
forward r1
end
";

#[test]
fn two_computers_are_made(rt: HostRuntime) -> Result<(), Fail> {
    let text = make(rt.alloc(), 2)?;
    assert_eq!(rt; text.as_slice() == TWO.as_bytes(), true);
    Ok(())
}

/// The digest of the text for so many computers.
fn digest(alloc: Global, number: u32) -> Result<[u8; 32], Fail> {
    if number < 1 || number > 2000 {
        return Err("too many".into());
    }
    let text = make(alloc, number)?;
    Ok(Sha256::digest(text.as_slice()))
}

#[test]
fn one_and_2000_computers_are_made(rt: HostRuntime) -> Result<(), Fail> {
    assert_eq!(rt;
        digest(rt.alloc(), 1)?
            == *b"\x48\x79\x3b\xb9\x4d\x87\xcd\x6d\xa3\x3f\x2b\x3a\x36\x5d\x14\xb3\xd7\x2c\xdf\xaa\x5c\xae\xf1\xb9\x27\x96\x2f\x61\x28\x47\xd4\x1e",
        true
    );
    assert_eq!(rt;
        digest(rt.alloc(), 2000)?
            == *b"\xdb\x74\xcb\x09\x9f\x0c\x96\xa9\x91\xb0\x56\x54\x40\x1f\x95\x8b\x82\x03\x58\x6f\xeb\x69\x6e\x6e\xc4\x1d\x0e\xa2\x69\xf0\x73\x16",
        true
    );
    Ok(())
}
