// What a server puts into its tables.
ghost use Rattle.std.specs.Prelude.{◌≡◌, ◌≤◌, ◌+◌, ◌<◌, ◌^◌, All, Some, IfOk, IfSome, IfNone, IsErrOf, OnOk};
ghost use Rattle.line_forms.specs.Numbers.{IsId};
ghost use Rattle.desk_keep.specs.Calls.{IfTold, OnlyReads};
ghost use Rattle.desk_keep.specs.Forms.{Fits};
ghost use Rattle.desk_keep.specs.Tables.{put_all};
ghost use Rattle.server_core.specs.AcceptedTables.{actions_version, version_row};
ghost use Rattle.server_core.specs.ServerParts.{KeepsAtStop};

use crate::looking::actions_version;
use crate::stop::Stop;
use desk_base::Bytes;
use desk_keep::{Applied, Change, Keeper};
use line_forms::LAST_ID;
use rel_lexer::Text;
use std::alloc::{AllocError, Global};

/// Puts rows, all of them or none.
pub(crate) fn put<K: Keeper>(keeper: &mut K, batch: &[Change]) -> Result<(), Stop>
    requires { All Fits batch.now }
    ensures ok { OnOk result (IfTold (K.told keeper.old).rows
        (λ rows. (K.told keeper.new).rows ≡ Some (put_all batch.now rows))) }
    ensures ends { KeepsAtStop (K.told keeper.old) result (K.told keeper.new) }
{
    match keeper.apply(batch) {
        Applied::Done => Ok(()),
        Applied::Failed => Err(Stop::Keeper),
        Applied::Memory => Err(Stop::Memory),
    }
}

/// The next version of `actionsite`, if there is one.
pub(crate) fn next_version<K: Keeper>(alloc: Global, keeper: &mut K) -> Result<Option<u64>, Stop>
    ensures only { OnlyReads (IsErrOf result Stop.Keeper) (K.told keeper.old) (K.told keeper.new) }
    ensures good { IfOk result (λ next. IfSome next IsId) }
    ensures next { IfOk result (λ next. IfTold (K.told keeper.old).rows
        (λ rows. IfSome next (λ version. (version ≡ actions_version rows + 1) × (actions_version rows < 2 ^ 53)))) }
    ensures last { IfOk result (λ next. IfTold (K.told keeper.old).rows (λ rows. IfNone next (2 ^ 53 ≤ actions_version rows))) }
{
    let version = actions_version(alloc, keeper)?;
    if version >= LAST_ID {
        return Ok(None);
    }
    Ok(Some(version + 1))
}

/// The row of `actionsite` in this version.
pub(crate) fn version_row(alloc: Global, version: u64) -> Result<Change, AllocError>
    ensures { IfOk result (λ row. row ≡ version_row version) }
{
    Ok(Change::Site {
        name: Text::from_str(alloc, "actionsite")?,
        version,
        text: Bytes::new(alloc),
    })
}
