ghost use Rattle.std.specs.Prelude.{◌≡◌};
ghost use Rattle.route_rules.specs.Routes.{method_word};
ghost use Rattle.route_rules.specs.Finding.{ReadsMethod};

/// The methods that are asked by.
#[derive(Clone, Copy)]
pub enum Asking {
    Get,
    Post,
}

impl Asking {
    /// Its word in a request.
    pub fn word(self) -> &'static str
        ensures { result.now ≡ method_word self }
    {
        match self {
            Asking::Get => "GET",
            Asking::Post => "POST",
        }
    }
}

/// The method of this word.
pub(crate) fn read_method(word: &[u8]) -> Option<Asking>
    ensures { ReadsMethod word.now result }
{
    if word == b"GET".as_slice() {
        return Some(Asking::Get);
    }
    if word == b"POST".as_slice() {
        return Some(Asking::Post);
    }
    None
}
