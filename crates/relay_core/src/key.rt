ghost use Rattle.std.specs.Prelude.{◌≡◌, ◌≤◌, length};
ghost use Rattle.relay_core.specs.ReportKeys.{key_of, same_key};
ghost use Rattle.relay_core.specs.Indexes.{shown_key};

use arrayvec::ArrayString;
use report_text::Report;

/// The most bytes of a computer's name.
pub(crate) const LONGEST_NAME: usize = 64;

/// The key of a report: the name of its computer and its number. It owns no memory of its own.
#[derive(Clone, Copy, PartialEq, Eq, PartialOrd, Ord)]
pub(crate) struct Key {
    pub(crate) computer: ArrayString<LONGEST_NAME>,
    pub(crate) seq: u64,
}

impl Key {
    /// The key of this computer and number.
    pub(crate) fn new(computer: &str, seq: u64) -> Key
        requires { length computer.now ≤ 64 }
        ensures { shown_key result ≡ record { computer = computer.now; seq = seq } }
    {
        let mut name = ArrayString::new();
        name.push_str(computer);
        Key {
            computer: name,
            seq,
        }
    }

    /// Whether this is the key of the report.
    pub(crate) fn is_of(&self, report: &Report) -> bool
        ensures { result ≡ same_key (shown_key self.now) (key_of report.now) }
    {
        self.seq == report.seq && self.computer.as_str() == report.computer.as_str()
    }
}
