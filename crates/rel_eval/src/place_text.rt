ghost use Rattle.std.specs.Prelude.{◌≡◌, ◌++◌, OnOk, OnErr};
ghost use Rattle.rel_eval.specs.PlaceTexts.{place_text};

use desk_base::{Bytes, decimal};
use rel_lexer::Place;
use std::alloc::{AllocError, Global};

/// Appends a place as `(from..to)`, in bytes of the question from 0. At an error nothing is appended.
#[tactic(auto, unfolding(crate::specs::PlaceTexts::place_text))]
pub fn write_place(alloc: Global, place: Place, out: &mut Bytes) -> Result<(), AllocError>
    ensures ok { OnOk result (out.new ≡ out.old ++ place_text place) }
    ensures err { OnErr result (out.new ≡ out.old) }
{
    let mut text = Bytes::from_slice(alloc, b"(")?;
    decimal(u64::from(place.from), &mut text)?;
    text.extend(b"..")?;
    decimal(u64::from(place.to), &mut text)?;
    text.push(b')')?;
    out.extend(text.as_slice())
}
