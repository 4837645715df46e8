ghost use Rattle.std.specs.Prelude.{◌≡◌, ◌++◌, List, ℕ, OnOk, OnErr};
ghost use Rattle.std.specs.Option.{option_copied};
ghost use Rattle.line_forms.specs.Reads.{Reads};
ghost use Rattle.line_forms.specs.Contents.{content_line, IsContentLine};

use crate::around::write_around;
use crate::name::read_rest;
use desk_base::Bytes;
use std::alloc::{AllocError, Global};

/// Reads the content that a line holds: nothing after `|` alone, and otherwise what follows `| `, which isn't empty.
pub fn read_content(line: &[u8]) -> Option<&str>
    ensures { Reads (IsContentLine line.now) (option_copied result) }
{
    match line {
        b"|" => Some(""),
        [b'|', b' ', content @ ..] => read_rest(content),
        _ => None,
    }
}

/// Appends the line that holds the content, without its LF.
pub fn write_content(alloc: Global, content: &[u8], out: &mut Bytes) -> Result<(), AllocError>
    ensures ok { OnOk result (out.new ≡ out.old ++ content_line content.now) }
    ensures err { OnErr result (out.new ≡ out.old) }
{
    if content.is_empty() {
        return out.push(b'|');
    }
    write_around(alloc, b"| ", content, b"", out)
}

/// A line holds one content at most.
pub fn one_content()
    ensures { (line content other : List ℕ) → IsContentLine line content → IsContentLine line other
        → other ≡ content }
{}
