ghost use Rattle.std.specs.Prelude.{◌≡◌, ℕ, ℤ, ◌^◌, ◌-◌, pos, negsuc, ◌++◌, List, OnOk, OnErr, IsTrue, ◌↔◌, decimal};
ghost use Rattle.std.specs.Fmt.{signed_decimal};
ghost use Rattle.line_forms.specs.Reads.{Reads};
ghost use Rattle.line_forms.specs.Numbers.{IsNumber, IsSignedNumber, IsId, IsMomentText, IsOffsetText};
ghost use Rattle.line_forms.specs.Readers.{Spells};

use desk_base::{Bytes, LAST_MOMENT};
/// Appends a number in decimal digits, as `read_number` and `read_u32` read it.
pub use desk_base::decimal as write_number;
use itoa::{Buffer, Integer};
use std::alloc::AllocError;

/// The last id, the last version of a site and the last number of a report: 2^53.
pub const LAST_ID: u64 = 9_007_199_254_740_992;

/// The farthest offset from UTC, in minutes, to the east and to the west.
const FARTHEST_OFFSET: i64 = 840;

/// Whether this is the one text of the number, as `+7` and `07` aren't that of 7.
fn is_text_of<I: Integer>(number: I, text: &str) -> bool
    ensures { IsTrue result ↔ (text.now ≡ I.text number) }
{
    Buffer::new().format(number) == text
}

/// Reads a number from 0 to `most`.
pub fn read_number(text: &[u8], most: u64) -> Option<u64>
    ensures { Reads (IsNumber most text.now) result }
{
    let Ok(text) = str::from_utf8(text) else {
        return None;
    };
    let Ok(number) = text.parse::<u64>() else {
        return None;
    };
    if number > most {
        return None;
    }
    if !is_text_of(number, text) {
        return None;
    }
    Some(number)
}

/// Reads a number from 0 to 4,294,967,295.
pub fn read_u32(text: &[u8]) -> Option<u32>
    ensures { Reads (IsNumber (2 ^ 32 - 1) text.now) result }
{
    read_number(text, u64::from(u32::MAX)).map(|number| number as u32)
}

/// Reads an id, or the version of a site: from 1 to 9,007,199,254,740,992 (2^53).
pub fn read_id(text: &[u8]) -> Option<u64>
    ensures { Spells IsId decimal text.now result }
{
    let id = read_number(text, LAST_ID)?;
    if id == 0 {
        return None;
    }
    Some(id)
}

/// Reads a number from `least` to `most`, with a `-` before its digits where it is below 0.
fn read_signed_number(text: &[u8], least: i64, most: i64) -> Option<i64>
    ensures { Reads (IsSignedNumber least most text.now) result }
{
    let Ok(text) = str::from_utf8(text) else {
        return None;
    };
    let Ok(number) = text.parse::<i64>() else {
        return None;
    };
    if number < least {
        return None;
    }
    if number > most {
        return None;
    }
    if !is_text_of(number, text) {
        return None;
    }
    Some(number)
}

/// Reads a moment: seconds since 1970-01-01 00:00:00 UTC, from 0 to 137,438,953,472 (2^37).
pub fn read_moment(text: &[u8]) -> Option<i64>
    ensures { Reads (IsMomentText text.now) result }
{
    read_signed_number(text, 0, LAST_MOMENT)
}

/// Reads a number from -9,223,372,036,854,775,808 to 9,223,372,036,854,775,807.
pub fn read_i64(text: &[u8]) -> Option<i64>
    ensures { Reads (IsSignedNumber (negsuc (2 ^ 63 - 1)) (pos (2 ^ 63 - 1)) text.now) result }
{
    read_signed_number(text, i64::MIN, i64::MAX)
}

/// Reads an offset: minutes east of UTC, from -840 to 840.
pub fn read_offset(text: &[u8]) -> Option<i64>
    ensures { Reads (IsOffsetText text.now) result }
{
    read_signed_number(text, -FARTHEST_OFFSET, FARTHEST_OFFSET)
}

/// Appends a number that may be below 0, a moment or an offset, as `read_i64`, `read_moment` and `read_offset` read it.
pub fn write_signed_number(number: i64, out: &mut Bytes) -> Result<(), AllocError>
    ensures ok { OnOk result (out.new ≡ out.old ++ signed_decimal number) }
    ensures err { OnErr result (out.new ≡ out.old) }
{
    out.extend(Buffer::new().format(number).as_bytes())
}

/// A text is one number at most, and each number has one text. So what was written is read again.
pub fn one_number()
    ensures { (text : List ℕ) (m n : ℕ) → IsNumber (2 ^ 64 - 1) text m → IsNumber (2 ^ 64 - 1) text n
        → m ≡ n }
{}

/// A text is one moment or offset at most.
pub fn one_signed_number()
    ensures { let least = negsuc (2 ^ 63 - 1) in let most = pos (2 ^ 63 - 1) in
        (text : List ℕ) (m n : ℤ) → IsSignedNumber least most text m → IsSignedNumber least most text n
        → m ≡ n }
{}
