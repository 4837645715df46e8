ghost use Rattle.std.specs.Prelude.{◌<◌, ◌^◌, length};
ghost use Rattle.script_text.specs.Readings.{ReadsScript};

use crate::reader::Reader;
use crate::{Script, ScriptError};
use rel_lexer::Text;
use std::alloc::Global;

/// Reads a script. A statement that isn't closed is answered only where no line is refused otherwise.
pub fn read_script(alloc: Global, lines: &[Text]) -> Result<Script, ScriptError>
    requires { length lines.now < 2 ^ 32 }
    ensures { ReadsScript lines.now result }
{
    let mut reader = Reader::new(alloc);
    for (index, line) in lines.iter().enumerate() {
        reader = reader.with_line(alloc, index as u32 + 1, line.as_str())?;
    }
    reader.finish()
}
