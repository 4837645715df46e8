// Actions that are issued and stopped.
ghost use Rattle.std.specs.Prelude.{◌≡◌, [], ◌∷◌, true, IfOk, IfSome};
ghost use Rattle.fix_site.specs.Actions.{IsAction, action_text};
ghost use Rattle.desk_keep.specs.Calls.{IfTold};
ghost use Rattle.server_text.specs.Entries.{Issued, Stopped};
ghost use Rattle.server_core.specs.declared.limits.Limits.{Limits};
ghost use Rattle.server_core.specs.Replies.{first_of, full_of_actions, full_version, known_action, reply_to};
ghost use Rattle.server_core.specs.ServerParts.{Learns, Takes, is_plain};

use crate::keeping::{next_version, put, version_row};
use crate::limits::Limits;
use crate::looking::{actions_of, count_of, row_of};
use crate::stop::Stop;
use desk_base::Bytes;
use desk_keep::{Change, Find, Keeper, Table};
use fix_site::Action;
use line_forms::LAST_ID;
use server_text::{Reply, before_state, is_stopped, longest_actionsite, stopped_text};
use sha2::{Digest, Sha256};
use std::alloc::Global;

/// The most bytes of the text of a site.
const LONGEST_SITE: usize = 4_194_304;

/// Keeps an action of this id, of which this is the text, if it is accepted.
pub(crate) fn issue_action<K: Keeper>(
    alloc: Global,
    keeper: &mut K,
    limits: Limits,
    action: &Action,
    text: &Bytes,
) -> Result<Reply, Stop>
    requires good { IsAction action.now }
    requires text { text.now ≡ action_text action.now }
    ensures { Takes limits (Issued action.now) (K.told keeper.old) result (K.told keeper.new) }
{
    let Some(
        Change::Action {
            text: kept,
            digest,
            ..
        },
    ) = row_of(keeper, &Find::Action(action.id))?
    else {
        return issue_new_action(alloc, keeper, limits, action, text);
    };
    Ok(known_action(kept.as_slice(), digest, text.as_slice()))
}

/// Keeps an action of which none of its id is kept, if there is room.
fn issue_new_action<K: Keeper>(
    alloc: Global,
    keeper: &mut K,
    limits: Limits,
    action: &Action,
    text: &Bytes,
) -> Result<Reply, Stop>
    requires good { IsAction action.now }
    requires text { text.now ≡ action_text action.now }
    requires fresh { IfTold (K.told keeper.old).rows (λ rows. reply_to limits rows (Issued action.now)
        ≡ first_of (full_of_actions limits rows (action_text action.now) ∷ full_version rows ∷ [])) }
    ensures { Takes limits (Issued action.now) (K.told keeper.old) result (K.told keeper.new) }
{
    if let Some(full) = full_of_actions(keeper, limits, text.as_slice())? {
        return Ok(full);
    }
    let Some(version) = next_version(alloc, keeper)? else {
        return Ok(Reply::Full(LAST_ID));
    };
    let row = Change::Action {
        id: action.id,
        text: text.copy()?,
        digest: Sha256::digest(text.as_slice()),
    };
    put(keeper, &[row, version_row(alloc, version)?])?;
    Ok(Reply::Ok)
}

/// The reply to an action of this text, where this text is kept of its id, and this is the digest of the text as it came.
fn known_action(kept: &[u8], digest: [u8; 32], text: &[u8]) -> Reply
    ensures { result ≡ known_action kept.now digest text.now }
{
    if before_state(kept) == before_state(text) {
        Reply::Again
    } else {
        Reply::Conflict(digest)
    }
}

/// Full, where no action of another id, of this text, is taken.
fn full_of_actions<K: Keeper>(
    keeper: &mut K,
    limits: Limits,
    text: &[u8],
) -> Result<Option<Reply>, Stop>
    ensures plain { IfOk result (λ reply. IfSome reply (λ reply. is_plain reply ≡ true)) }
    ensures learns { Learns (λ rows. full_of_actions limits rows text.now) (K.told keeper.old) result (K.told keeper.new) }
{
    if limits.actions <= count_of(keeper, Table::Actions)? {
        return Ok(Some(Reply::Full(limits.actions)));
    }
    let actions = actions_of(keeper)?;
    if longest_actionsite(text, actions.as_slice()) > LONGEST_SITE {
        return Ok(Some(Reply::Full(LONGEST_SITE as u64)));
    }
    Ok(None)
}

/// Stops the action of this id, if there is one that isn't stopped.
pub(crate) fn stop_action<K: Keeper>(alloc: Global, keeper: &mut K, id: u64) -> Result<Reply, Stop>
    ensures { (limits : Limits) → Takes limits (Stopped id) (K.told keeper.old) result (K.told keeper.new) }
{
    let Some(Change::Action { id, text, digest }) = row_of(keeper, &Find::Action(id))? else {
        return Ok(Reply::NoSuch);
    };
    if is_stopped(text.as_slice()) {
        return Ok(Reply::Again);
    }
    let Some(version) = next_version(alloc, keeper)? else {
        return Ok(Reply::Full(LAST_ID));
    };
    let row = Change::Action {
        id,
        text: stopped_text(alloc, text.as_slice())?,
        digest,
    };
    put(keeper, &[row, version_row(alloc, version)?])?;
    Ok(Reply::Ok)
}
