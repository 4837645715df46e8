ghost use Rattle.std.specs.Prelude.{◌≡◌, ◌+◌, ◌≤◌};

/// The bytes of a question from `from` up to, and without, `to`, counted from 0.
#[derive(Clone, Copy, Debug, PartialEq, Eq)]
pub struct Place {
    pub from: u32,
    pub to: u32,
}

impl Place {
    /// The place of so many bytes from this one on.
    pub(crate) fn of_bytes(from: u32, count: usize) -> Place
        requires { from + count ≤ 65537 }
        ensures { result ≡ record { from = from; to = from + count } }
    {
        Place {
            from,
            to: from + count as u32,
        }
    }
}
