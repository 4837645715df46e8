// Files.
ghost use Rattle.server_text.specs.Entries.{Filed};
ghost use Rattle.server_core.specs.ServerParts.{Takes};

use crate::keeping::put;
use crate::limits::Limits;
use crate::looking::{count_of, has_row};
use crate::stop::Stop;
use desk_base::Bytes;
use desk_keep::{Change, Find, Keeper, Table};
use server_text::Reply;
use sha2::{Digest, Sha256};

/// Keeps a file of these bytes, if it is accepted.
pub(crate) fn keep_file<K: Keeper>(
    keeper: &mut K,
    limits: Limits,
    bytes: &Bytes,
) -> Result<Reply, Stop>
    ensures { Takes limits (Filed bytes.now) (K.told keeper.old) result (K.told keeper.new) }
{
    let digest = Sha256::digest(bytes.as_slice());
    if has_row(keeper, &Find::File(digest))? {
        return Ok(Reply::Digest(digest));
    }
    if limits.files <= count_of(keeper, Table::Files)? {
        return Ok(Reply::Full(limits.files));
    }
    let row = Change::File {
        digest,
        bytes: bytes.copy()?,
    };
    put(keeper, &[row])?;
    Ok(Reply::Digest(digest))
}
