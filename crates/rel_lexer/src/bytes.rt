// Single bytes of a question, and runs of them.
ghost use Rattle.std.specs.Prelude.{◌≡◌, ◌∷◌, MatchOption};
ghost use Rattle.rel_lexer.specs.Bytes.{NotNext, begins_word, is_blank};
ghost use Rattle.rel_lexer.specs.Runs.{passes};
ghost use Rattle.rel_lexer.specs.Reads.{SplitsRun};

/// Whether a byte is a blank of questions: space, tab, CR or LF.
pub fn is_blank(byte: u8) -> bool
    ensures { result ≡ is_blank byte }
{
    byte == b' ' || byte == b'\t' || byte == b'\r' || byte == b'\n'
}

/// A letter or `_`.
pub(crate) fn begins_word(byte: u8) -> bool
    ensures { result ≡ begins_word byte }
{
    byte.is_ascii_alphabetic() || byte == b'_'
}

/// Of what bytes a run consists.
#[derive(Clone, Copy)]
pub(crate) enum Run {
    /// Letters, digits and `_`.
    Word,
    /// Digits.
    Number,
    /// Any byte but `"`.
    String,
}

impl Run {
    fn passes(self, byte: u8) -> bool
        ensures { result ≡ passes self byte }
    {
        match self {
            Run::Word => byte.is_ascii_alphanumeric() || byte == b'_',
            Run::Number => byte.is_ascii_digit(),
            Run::String => byte != b'"',
        }
    }
}

/// The longest run that the bytes begin with, and what follows it.
pub(crate) fn split_run(run: Run, bytes: &[u8]) -> (&[u8], &[u8])
    ensures { SplitsRun (passes run) bytes.now result.0.now result.1.now }
{
    for (at, byte) in bytes.iter().enumerate() {
        if !run.passes(*byte) {
            return bytes.split_at(at);
        }
    }
    bytes.split_at(bytes.len())
}

/// What follows this byte, where the bytes begin with it.
pub(crate) fn after(byte: u8, bytes: &[u8]) -> Option<&[u8]>
    ensures { MatchOption result (NotNext byte bytes.now) (λ rest. bytes.now ≡ byte ∷ rest.now) }
{
    let (first, rest) = bytes.split_first()?;
    (*first == byte).then_some(rest)
}
