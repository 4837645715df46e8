ghost use Rattle.std.specs.Prelude.{◌≡◌, ℕ, ℤ, ◌+◌, ◌-◌, ◌*◌, ◌/◌, ◌%◌, ◌<◌, ◌≤◌, ◌≤ℤ◌, negsuc, [], ◌∷◌, length, slice_index, IfOk, IfSome, Option, Some, pos, option_map};
ghost use Rattle.desk_base.specs.Moments.{IsMoment};
ghost use Rattle.line_forms.specs.Numbers.{IsOffset};
ghost use Rattle.rel_value.specs.Spellings.{month_name, shown_seconds, time_text};
ghost use Rattle.rel_value.specs.TimesRead.{time_of};

use crate::calendar::days_to;
use crate::time_text::{SECONDS_OF_1969, write_time};
use desk_base::LAST_MOMENT;
use rel_lexer::Text;
use std::alloc::{AllocError, Global};

/// A moment, and the offset at which a clock shows it.
#[derive(Clone, Copy)]
struct Shown {
    moment: i64,
    offset: i64,
}

/// The moment whose time text this is, at some offset. The numbers are read first, and what they write is then compared.
pub(crate) fn time_of(alloc: Global, text: &str) -> Result<Option<i64>, AllocError>
    ensures { IfOk result (λ moment. moment ≡ option_map pos (time_of text.now)) }
{
    let Some(shown) = read(text.as_bytes()) else {
        return Ok(None);
    };
    let mut again = Text::from_str(alloc, "")?;
    write_time(shown.moment, shown.offset, &mut again)?;
    if again.as_str() != text {
        return Ok(None);
    }
    Ok(Some(shown.moment))
}

/// What a time text must have for its moment and offset, if it is one.
fn read(text: &[u8]) -> Option<Shown>
    ensures moment { IfSome result (λ s. IsMoment s.moment) }
    ensures offset { IfSome result (λ s. IsOffset s.offset) }
    ensures whole { (moment offset : ℤ) → IsMoment moment → IsOffset offset → text.now ≡ time_text moment offset
        → result ≡ Some (record { moment = moment; offset = offset }) }
{
    if text.len() != 31 {
        return None;
    }
    let days = days_at(text)?;
    let offset = offset_at(text);
    let moment = (86_400 * days + clock_at(text)) as i64 - SECONDS_OF_1969 - 60 * offset;
    if offset < -840 || offset > 840 || moment < 0 || moment > LAST_MOMENT {
        return None;
    }
    Some(Shown { moment, offset })
}

/// The days from 1 January 1969 to the date of a time text.
fn days_at(text: &[u8]) -> Option<u64>
    requires { length text.now ≡ 31 }
    ensures value { (moment offset : ℤ) → IsMoment moment → IsOffset offset → text.now ≡ time_text moment offset
        → result ≡ Some (shown_seconds moment offset / 86400) }
    ensures bound { IfSome result (λ days. days < 2000000) }
{
    let year = 100 * two_at(text, 12) + two_at(text, 14);
    days_to(year, month_at(text[8], text[9], text[10]), two_at(text, 5))
}

/// The seconds of the day of a time text.
fn clock_at(text: &[u8]) -> u64
    requires { length text.now ≡ 31 }
    ensures value { (moment offset : ℤ) → IsMoment moment → IsOffset offset → text.now ≡ time_text moment offset
        → result ≡ shown_seconds moment offset % 86400 }
    ensures bound { result < 10000000 }
{
    3600 * two_at(text, 17) + 60 * two_at(text, 20) + two_at(text, 23)
}

/// The offset of a time text.
fn offset_at(text: &[u8]) -> i64
    requires { length text.now ≡ 31 }
    ensures value { (moment offset : ℤ) → IsMoment moment → IsOffset offset → text.now ≡ time_text moment offset
        → result ≡ offset }
    ensures low { negsuc 199999 ≤ℤ result }
    ensures high { result ≤ℤ pos 200000 }
{
    let size = (60 * two_at(text, 27) + two_at(text, 29)) as i64;
    if text[26] == b'-' { -size } else { size }
}

/// The number that two digits write.
fn two_at(text: &[u8], at: usize) -> u64
    requires { at + 1 < length text.now }
    ensures value { result ≡ 10 * (slice_index text.now at - 48) + (slice_index text.now (at + 1) - 48) }
    ensures bound { result < 2500 }
{
    10 * u64::from(text[at].saturating_sub(b'0')) + u64::from(text[at + 1].saturating_sub(b'0'))
}

/// The month of such a name, or 0.
fn month_at(first: u8, second: u8, third: u8) -> u64
    ensures value { (m : ℕ) → 1 ≤ m → m ≤ 12 → month_name m ≡ first ∷ second ∷ third ∷ [] → result ≡ m }
    ensures bound { result ≤ 12 }
{
    match (first, second, third) {
        (b'J', b'a', b'n') => 1,
        (b'F', b'e', b'b') => 2,
        (b'M', b'a', b'r') => 3,
        (b'A', b'p', b'r') => 4,
        (b'M', b'a', b'y') => 5,
        (b'J', b'u', b'n') => 6,
        (b'J', b'u', b'l') => 7,
        (b'A', b'u', b'g') => 8,
        (b'S', b'e', b'p') => 9,
        (b'O', b'c', b't') => 10,
        (b'N', b'o', b'v') => 11,
        (b'D', b'e', b'c') => 12,
        _ => 0,
    }
}
