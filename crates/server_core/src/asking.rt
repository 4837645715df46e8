// What is asked of the kept sites, files and results.
ghost use Rattle.std.specs.Prelude.{◌≡◌, true, IfOk};
ghost use Rattle.server_core.specs.Replies.{file_reply, results_reply, site_reply, versions_reply};
ghost use Rattle.server_core.specs.AcceptedTables.{file_at, site_at};
ghost use Rattle.server_core.specs.ServerParts.{Learns, is_plain};

use crate::looking::{actions_of, has_row, results_of, row_of, versions_of};
use crate::stop::Stop;
use desk_keep::{Change, Find, Keeper};
use rel_lexer::Text;
use server_text::{Reply, actionsite_text, results_in, sites_in};
use std::alloc::Global;

/// The sites and their versions.
pub(crate) fn ask_sites<K: Keeper>(alloc: Global, keeper: &mut K) -> Result<Reply, Stop>
    ensures plain { IfOk result (λ reply. is_plain reply ≡ true) }
    ensures learns { Learns versions_reply (K.told keeper.old) result (K.told keeper.new) }
{
    let rows = versions_of(keeper)?;
    Ok(Reply::Sites(sites_in(alloc, rows.as_slice())?))
}

/// The text of a site, where its version is greater than this one.
pub(crate) fn ask_site<K: Keeper>(
    alloc: Global,
    keeper: &mut K,
    name: &Text,
    version: u64,
) -> Result<Reply, Stop>
    ensures plain { IfOk result (λ reply. is_plain reply ≡ true) }
    ensures learns { Learns (λ rows. site_reply rows version (site_at name.now rows))
        (K.told keeper.old) result (K.told keeper.new) }
{
    let Some(
        Change::Site {
            name,
            version: kept,
            text,
        },
    ) = row_of(keeper, &Find::Site(name.copy()?))?
    else {
        return Ok(Reply::NoSuch);
    };
    if kept <= version {
        return Ok(Reply::Same);
    }
    if name.as_str() != "actionsite" {
        return Ok(Reply::Site(text));
    }
    let actions = actions_of(keeper)?;
    Ok(Reply::Site(actionsite_text(alloc, kept, actions.as_slice())?))
}

/// The bytes of a file.
pub(crate) fn ask_file<K: Keeper>(keeper: &mut K, digest: [u8; 32]) -> Result<Reply, Stop>
    ensures plain { IfOk result (λ reply. is_plain reply ≡ true) }
    ensures learns { Learns (λ rows. file_reply (file_at digest rows)) (K.told keeper.old) result (K.told keeper.new) }
{
    match row_of(keeper, &Find::File(digest))? {
        Some(Change::File { bytes, .. }) => Ok(Reply::Content(bytes)),
        _ => Ok(Reply::NoSuch),
    }
}

/// The results of a computer.
pub(crate) fn ask_results<K: Keeper>(
    alloc: Global,
    keeper: &mut K,
    computer: &Text,
) -> Result<Reply, Stop>
    ensures plain { IfOk result (λ reply. is_plain reply ≡ true) }
    ensures learns { Learns (λ rows. results_reply rows computer.now) (K.told keeper.old) result (K.told keeper.new) }
{
    if !has_row(keeper, &Find::Computer(computer.copy()?))? {
        return Ok(Reply::NoSuch);
    }
    let rows = results_of(keeper, computer)?;
    Ok(Reply::Rows(results_in(alloc, rows.as_slice())?))
}
