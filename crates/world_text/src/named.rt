ghost use Rattle.line_forms.specs.Names.{IsName};
ghost use Rattle.world_text.specs.Texts.{ReadsNamedWorld};
ghost use Rattle.world_text.specs.Readings.{HasOtherName};

use crate::error::WorldError;
use crate::head::read_name_line;
use crate::read::read_world;
use bf_world::World;
use line_forms::Lines;
use std::alloc::Global;

/// Reads the text of a world that is to have this name. The line of another name is a bad line.
pub fn read_named_world(alloc: Global, name: &str, text: &[u8]) -> Result<World, WorldError>
    requires { IsName name.now }
    ensures { ReadsNamedWorld name.now text.now result }
{
    let mut lines = Lines::new(text);
    if has_other_name(&mut lines, name) {
        return Err(WorldError::BadLine(lines.number()));
    }
    read_world(alloc, text)
}

/// Whether the second line of a world is that of another name. If so, it is ahead afterwards.
fn has_other_name(lines: &mut Lines<'_>, name: &str) -> bool
    ensures { HasOtherName name.now lines.old lines.new result }
{
    if !lines.take_exactly(b"world") {
        return false;
    }
    let Some(line) = lines.line_ahead() else {
        return false;
    };
    let Some(other) = read_name_line(line) else {
        return false;
    };
    other != name
}
