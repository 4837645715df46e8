use agent_text::{Loaded, Pocket, SaveResult};
use rel_lexer::Text;
use std::io;

/// `pocket PLACE`, `load`, and `save TEXT`.
pub(crate) fn obey<P: Pocket>(
    rt: &HostRuntime,
    pocket: &mut P,
    word: &str,
    rest: &str,
) -> io::Result<()> {
    match word {
        "pocket" => {
            let opened = open(rt, pocket, rest);
            println!(rt; "{opened}")
        }
        "load" => show(rt, &pocket.load()),
        _ => {
            let saved = match pocket.save(rest.as_bytes()) {
                SaveResult::Done => "done",
                SaveResult::Failed => "failed",
                SaveResult::Memory => "memory",
            };
            println!(rt; "{saved}")
        }
    }
}

fn open<P: Pocket>(rt: &HostRuntime, pocket: &mut P, place: &str) -> &'static str {
    let Ok(place) = Text::from_str(rt.alloc(), place) else {
        return "memory";
    };
    match pocket.open(&place) {
        Ok(()) => "done",
        Err(_) => "memory",
    }
}

/// Shows the text that was loaded, or a word.
fn show(rt: &HostRuntime, loaded: &Loaded) -> io::Result<()> {
    match loaded {
        Loaded::Nothing => println!(rt; "nothing"),
        Loaded::Saved(text) => match str::from_utf8(text.as_slice()) {
            Ok(text) => println!(rt; "saved {text}"),
            Err(_) => println!(rt; "no text"),
        },
        Loaded::Failed => println!(rt; "failed"),
        Loaded::Memory => println!(rt; "memory"),
    }
}
