ghost use Rattle.std.specs.Prelude.{length};
ghost use Rattle.hex.specs.Hex.{encode_lower};
ghost use Rattle.desk_base.specs.Rooms.{HasRoom, Fills};
ghost use Rattle.line_forms.specs.Contents.{content_line};
ghost use Rattle.line_forms.specs.Fields.{field_text};
ghost use Rattle.line_forms.specs.Lines.{ended_line};

use crate::digest::digits_of;
use desk_base::Room;

/// Appends a field and the space behind it. It takes no memory, as all that is named `fill`.
pub fn fill_field(field: &[u8], room: &mut Room)
    requires { HasRoom room.old (length (field_text field.now)) }
    ensures { Fills room.old room.new (field_text field.now) }
{
    room.extend(field);
    room.push(b' ')
}

/// Appends a line and its LF.
pub fn fill_ended_line(line: &[u8], room: &mut Room)
    requires { HasRoom room.old (length (ended_line line.now)) }
    ensures { Fills room.old room.new (ended_line line.now) }
{
    room.extend(line);
    room.push(b'\n')
}

/// Appends the line that holds the content, without its LF.
pub fn fill_content(content: &[u8], room: &mut Room)
    requires { HasRoom room.old (length (content_line content.now)) }
    ensures { Fills room.old room.new (content_line content.now) }
{
    if content.is_empty() {
        return room.push(b'|');
    }
    room.extend(b"| ");
    room.extend(content)
}

/// Appends a digest in its 64 hexadecimal digits.
pub fn fill_digest(digest: &[u8; 32], room: &mut Room)
    requires { HasRoom room.old 64 }
    ensures { Fills room.old room.new (encode_lower digest.now) }
{
    room.extend(digits_of(digest).as_slice())
}
