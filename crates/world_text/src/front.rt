ghost use Rattle.world_text.specs.Fronts.{Splits};

use memchr::memchr;

/// A world's text, and what comes behind it.
#[derive(Clone, Copy)]
pub struct WorldFront<'a> {
    pub world: &'a [u8],
    pub rest: &'a [u8],
}

/// Cuts a text behind its first line `end`. Where no line is `end`, all of it is the world's text.
pub fn world_front(text: &[u8]) -> WorldFront<'_>
    ensures { Splits text.now result.world.now result.rest.now }
{
    let mut at = 0;
    while let Some(length) = memchr(b'\n', &text[at..]) {
        let line = &text[at..at + length];
        at += length + 1;
        if line == b"end".as_slice() {
            return WorldFront {
                world: &text[..at],
                rest: &text[at..],
            };
        }
    }
    WorldFront {
        world: text,
        rest: &[],
    }
}
