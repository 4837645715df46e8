// Comparing the bytes that came for a file with what its line states.
ghost use Rattle.std.specs.Prelude.{◌≡◌, length, IfOk, MatchResult};
ghost use Rattle.hex.specs.Hex.{encode_lower};
ghost use Rattle.script_run.specs.OneStep.{Compares};

use crate::Cause;
use rel_lexer::Text;
use script_text::Prefetch;
use sha1::Sha1;
use sha2::{Digest, Sha256};
use std::alloc::{AllocError, Global};

/// Why bytes aren't those of a file, if they aren't: their size is compared first, then their SHA-1 and then their SHA-256. The error
/// is want of memory, which only digests take.
pub(crate) fn mismatch(
    alloc: Global,
    fetch: &Prefetch,
    bytes: &[u8],
) -> Result<Option<Cause>, AllocError>
    ensures { MatchResult result (λ cause. Compares fetch.now bytes.now cause) (λ _. length bytes.now ≡ fetch.now.size) }
{
    if bytes.len() as u64 != fetch.size {
        return Ok(Some(Cause::WrongSize {
            stated: fetch.size,
            found: bytes.len() as u64,
        }));
    }
    let sha1 = Sha1::digest(bytes);
    if sha1 != fetch.sha1 {
        return Ok(Some(wrong_digest(alloc, &fetch.sha1, &sha1)?));
    }
    let sha256 = Sha256::digest(bytes);
    if sha256 != fetch.sha256 {
        return Ok(Some(wrong_digest(alloc, &fetch.sha256, &sha256)?));
    }
    Ok(None)
}

fn wrong_digest(alloc: Global, stated: &[u8], found: &[u8]) -> Result<Cause, AllocError>
    ensures { IfOk result (λ cause. cause ≡ Cause.WrongDigest (encode_lower stated.now) (encode_lower found.now)) }
{
    Ok(Cause::WrongDigest {
        stated: digits(alloc, stated)?,
        found: digits(alloc, found)?,
    })
}

/// A digest in hexadecimal digits in lower case.
fn digits(alloc: Global, digest: &[u8]) -> Result<Text, AllocError>
    ensures { IfOk result (λ text. text ≡ encode_lower digest.now) }
{
    let text = hex::encode(alloc, digest)?;
    Text::from_str(alloc, text.as_str())
}
