ghost use Rattle.std.specs.Prelude.{◌≡◌, ◌++◌, OnOk, OnErr};

use desk_base::Bytes;
use std::alloc::{AllocError, Global};

/// Appends a text with what stands around it, all or nothing.
pub(crate) fn write_around(
    alloc: Global,
    before: &[u8],
    text: &[u8],
    after: &[u8],
    out: &mut Bytes,
) -> Result<(), AllocError>
    ensures ok { OnOk result (out.new ≡ out.old ++ (before.now ++ (text.now ++ after.now))) }
    ensures err { OnErr result (out.new ≡ out.old) }
{
    let mut whole = Bytes::from_slice(alloc, before)?;
    whole.extend(text)?;
    whole.extend(after)?;
    out.extend(whole.as_slice())
}
