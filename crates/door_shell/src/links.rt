use desk_door::{Exchanged, Link};
use rel_lexer::Text;
use std::io;

/// `link UPSTREAM`, `ask TEXT`, and `pause`.
pub(crate) fn obey<L: Link>(
    rt: &HostRuntime,
    link: &mut L,
    word: &str,
    rest: &str,
) -> io::Result<()> {
    match word {
        "link" => {
            let opened = open(rt, link, rest);
            println!(rt; "{opened}")
        }
        "ask" => show(rt, &link.exchange(rest.as_bytes())),
        _ => {
            link.pause();
            println!(rt; "paused")
        }
    }
}

fn open<L: Link>(rt: &HostRuntime, link: &mut L, upstream: &str) -> &'static str {
    let Ok(upstream) = Text::from_str(rt.alloc(), upstream) else {
        return "memory";
    };
    match link.open(&upstream) {
        Ok(()) => "done",
        Err(_) => "memory",
    }
}

/// Shows how many bytes a reply has.
fn show(rt: &HostRuntime, exchanged: &Exchanged) -> io::Result<()> {
    match exchanged {
        Exchanged::Reply(reply) => {
            let count = reply.as_slice().len();
            println!(rt; "reply {count}")
        }
        Exchanged::Failed => println!(rt; "failed"),
        Exchanged::Memory => println!(rt; "memory"),
    }
}
