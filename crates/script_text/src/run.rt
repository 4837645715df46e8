// Runs of bytes that a line begins with.
ghost use Rattle.std.specs.Prelude.{◌≡◌, ◌∷◌, ◌<◌, MatchOption};
ghost use Rattle.script_text.specs.Bytes.{NotNext, SplitsRun, is_blank};
ghost use Rattle.script_text.specs.Lines.{IsTrimmed};
ghost use Rattle.script_text.specs.Readings.{DropsBlanks};
ghost use Rattle.script_text.specs.Runs.{passes};

/// Space or tab.
pub(crate) fn is_blank(byte: u8) -> bool
    ensures { result ≡ is_blank byte }
{
    byte == b' ' || byte == b'\t'
}

/// Of what bytes a run consists.
#[derive(Clone, Copy)]
pub(crate) enum Run {
    /// Spaces and tabs.
    Blanks,
    /// Any but spaces and tabs.
    Field,
    /// Any but `{`.
    Plain,
    /// Any but `{` and `"`.
    QuotedPlain,
    /// Any but `{`, `}` and `"`.
    Name,
}

impl Run {
    fn passes(self, byte: u8) -> bool
        ensures { result ≡ passes self byte }
    {
        match self {
            Run::Blanks => is_blank(byte),
            Run::Field => !is_blank(byte),
            Run::Plain => byte != b'{',
            Run::QuotedPlain => byte != b'{' && byte != b'"',
            Run::Name => byte != b'{' && byte != b'}' && byte != b'"',
        }
    }
}

/// The longest run that the text begins with, and what follows it.
pub(crate) fn split_run(run: Run, text: &str) -> (&str, &str)
    ensures { SplitsRun (passes run) text.now result.0.now result.1.now }
{
    for (at, byte) in text.as_bytes().iter().enumerate() {
        if !run.passes(*byte) {
            return text.split_at(at);
        }
    }
    text.split_at(text.len())
}

/// What follows this byte, where the text begins with it. The byte is ASCII.
pub(crate) fn after(byte: u8, text: &str) -> Option<&str>
    requires { byte < 128 }
    ensures { MatchOption result (NotNext byte text.now) (λ rest. text.now ≡ byte ∷ rest.now) }
{
    let first = text.as_bytes().first()?;
    if *first != byte {
        return None;
    }
    let (_, rest) = text.split_at(1);
    Some(rest)
}

/// The text without the blanks at its ends.
pub(crate) fn trimmed(text: &str) -> &str
    ensures { IsTrimmed text.now result.now }
{
    let (_, left) = split_run(Run::Blanks, text);
    before_blanks(left)
}

/// The text without the blanks at its end.
fn before_blanks(text: &str) -> &str
    ensures { DropsBlanks text.now result.now }
{
    let bytes = text.as_bytes();
    let mut end = bytes.len();
    while end > 0 && is_blank(bytes[end - 1]) {
        end -= 1;
    }
    let (kept, _) = text.split_at(end);
    kept
}
