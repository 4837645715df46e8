ghost use Rattle.std.specs.Prelude.{◌≡◌, ◌++◌, List, ℕ, OnOk, OnErr, IsTrue, ◌↔◌};
ghost use Rattle.hex.specs.Hex.{encode_lower};
ghost use Rattle.line_forms.specs.Reads.{Reads};
ghost use Rattle.line_forms.specs.Digests.{IsDigest};

use desk_base::Bytes;
use hex::{FromHex, encode_to_slice};
use std::alloc::AllocError;

/// Reads a digest of 32 bytes: 64 hexadecimal digits in lower case.
pub fn read_digest(text: &[u8]) -> Option<[u8; 32]>
    ensures { Reads (IsDigest text.now) result }
{
    let Ok(digest) = <[u8; 32] as FromHex>::from_hex(text) else {
        return None;
    };
    // digits in upper case are decoded too
    if !is_text_of(&digest, text) {
        return None;
    }
    Some(digest)
}

fn is_text_of(digest: &[u8; 32], text: &[u8]) -> bool
    ensures { IsTrue result ↔ (text.now ≡ encode_lower digest.now) }
{
    digits_of(digest).as_slice() == text
}

/// Appends a digest as `read_digest` reads it.
pub fn write_digest(digest: &[u8; 32], out: &mut Bytes) -> Result<(), AllocError>
    ensures ok { OnOk result (out.new ≡ out.old ++ encode_lower digest.now) }
    ensures err { OnErr result (out.new ≡ out.old) }
{
    out.extend(&digits_of(digest))
}

pub(crate) fn digits_of(digest: &[u8; 32]) -> [u8; 64]
    ensures { result ≡ encode_lower digest.now }
{
    let mut digits = [0; 64];
    encode_to_slice(digest.as_slice(), &mut digits).unwrap();
    digits
}

/// A text is one digest at most.
pub fn one_digest()
    ensures { (text digest other : List ℕ) → IsDigest text digest → IsDigest text other
        → other ≡ digest }
{}
