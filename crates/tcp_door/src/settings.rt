ghost use Rattle.std.specs.Prelude.{◌≡◌, Some, MatchOption};
ghost use Rattle.line_forms.specs.Reads.{Reads};
ghost use Rattle.line_forms.specs.Numbers.{IsNumber};

use line_forms::read_number;
use std::net::Ipv4Addr;

/// The most seconds between two rounds: a day.
const MOST_SECONDS: u64 = 86_400;

/// The address that a door listens on, by the text of DESK_LISTEN, or where that is absent this machine's own, which nobody else reaches.
/// None where the text is no IPv4 address.
pub fn listen_address(variable: Option<&str>) -> Option<Ipv4Addr> {
    match variable {
        Some(text) => text.parse::<Ipv4Addr>().ok(),
        None => Some(Ipv4Addr::LOCALHOST),
    }
}

/// The seconds that a link pauses, by the text of DESK_EVERY, or where that is absent 0. None where the text is no number from 0 to 86,400.
pub fn seconds_between(variable: Option<&str>) -> Option<u64>
    ensures { MatchOption variable.entry (result ≡ Some 0) (λ text. Reads (IsNumber 86400 text.now) result) }
{
    match variable {
        Some(text) => read_number(text.as_bytes(), MOST_SECONDS),
        None => Some(0),
    }
}
