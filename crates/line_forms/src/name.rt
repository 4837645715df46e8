ghost use Rattle.std.specs.Prelude.{◌≡◌};
ghost use Rattle.line_forms.specs.Reads.{ReadsText};
ghost use Rattle.line_forms.specs.Names.{is_name_byte, IsName, IsLineText, IsRest};

/// The most bytes of a name.
const LONGEST_NAME: usize = 64;

/// Reads a name: 1 to 64 ASCII letters, digits, `-`, `_` and `.`. It is written as it is.
pub fn read_name(text: &[u8]) -> Option<&str>
    ensures { ReadsText IsName text.now result }
{
    let Ok(name) = str::from_utf8(text) else {
        return None;
    };
    if text.is_empty() || text.len() > LONGEST_NAME {
        return None;
    }
    if !text.iter().all(|byte| is_name_byte(*byte)) {
        return None;
    }
    Some(name)
}

fn is_name_byte(byte: u8) -> bool
    ensures { result ≡ is_name_byte byte }
{
    byte.is_ascii_alphanumeric() || byte == b'-' || byte == b'_' || byte == b'.'
}

/// Reads the rest of a line: one or more bytes of UTF-8, without LF. It is written as it is.
pub fn read_rest(text: &[u8]) -> Option<&str>
    ensures { ReadsText IsRest text.now result }
{
    if text.is_empty() {
        return None;
    }
    read_line_text(text)
}

/// Reads UTF-8 without LF, which may be empty.
pub(crate) fn read_line_text(text: &[u8]) -> Option<&str>
    ensures { ReadsText IsLineText text.now result }
{
    if text.iter().any(|byte| *byte == b'\n') {
        return None;
    }
    str::from_utf8(text).ok()
}
