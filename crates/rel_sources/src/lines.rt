ghost use Rattle.std.specs.Prelude.{◌≡◌, IfOk, map, Some, None};
ghost use Rattle.rel_sources.specs.Words.{text_lines, readable};
ghost use Rattle.rel_sources.specs.Rows.{line_item, is_asked};
ghost use Rattle.rel_sources.specs.Sources.{lines_left};
ghost use Rattle.rel_sources.specs.Draws.{item_in, Draws};

use crate::content::{first_line, readable};
use crate::held::{Drawn, HeldItem};
use desk_base::Bytes;
use rel_lexer::Text;
use std::alloc::{AllocError, Global};

/// The lines of a content, those that contain the wanted text where one is wanted.
#[derive(Drop)]
pub struct Lines {
    wanted: Option<Text>,
    content: Bytes,
    from: usize,
}

impl Lines {
    pub fn new(wanted: Option<Text>, content: Bytes) -> Lines
        ensures { lines_left result ≡ map (line_item wanted) (text_lines content) }
    {
        Lines {
            wanted,
            content,
            from: 0,
        }
    }

    pub fn draw(&mut self, alloc: Global) -> Drawn
        ensures { Draws (lines_left self.old) result (lines_left self.new) }
    {
        let content = self.content.as_slice();
        let from = self.from.min(content.len());
        let left = &content[from..];
        if left.is_empty() {
            return Drawn::End;
        }
        let first = first_line(left);
        let Ok(item) = line_item(alloc, &self.wanted, first.line) else {
            return Drawn::Memory;
        };
        self.from = from + first.taken;
        Drawn::Item(item)
    }
}

/// A line that contains the wanted text, where one is wanted; one that is too long is so whether it contains it or not.
fn line_item(alloc: Global, wanted: &Option<Text>, line: &[u8]) -> Result<HeldItem, AllocError>
    ensures { IfOk result (λ held. item_in held ≡ line_item wanted.now (readable line.now)) }
{
    let line = readable(alloc, line)?;
    let asked = contains(wanted, line.as_str());
    match HeldItem::text(line) {
        HeldItem::Value(_) if !asked => Ok(HeldItem::Nothing),
        item => Ok(item),
    }
}

/// Whether the line contains the wanted text, where one is wanted.
fn contains(wanted: &Option<Text>, line: &str) -> bool
    ensures { result ≡ is_asked wanted.now line.now }
{
    match wanted {
        Some(wanted) => line.contains(wanted.as_str()),
        None => true,
    }
}
