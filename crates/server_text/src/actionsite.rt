// The site `actionsite`, which is made of the kept actions.
ghost use Rattle.std.specs.Prelude.{◌≡◌, ◌++◌, [], ◌∷◌, ◌-◌, ◌^◌, min, IfOk, OnOk};
ghost use Rattle.std.specs.List.{concat};
ghost use Rattle.server_text.specs.Actionsite.{actionsite_body, actionsite_text, longest_actionsite};
ghost use Rattle.server_text.specs.TextParts.{most_bytes};
ghost use Rattle.server_text.specs.ToldRows.{action_texts};

use crate::action_state::stopped_len;
use desk_base::{Bytes, decimal};
use desk_keep::Change;
use line_forms::write_digest;
use sha2::{Digest, Sha256};
use std::alloc::{AllocError, Global};

/// The bytes of the text beside those of actions: `site actionsite `, 16 digits and an LF, `digest `, 64 digits and an LF.
const HEAD_AND_DIGEST: usize = 105;

/// The text of `actionsite` in this version, from 1 to 2^53, of the actions among these rows, which stand in ascending order of their ids.
/// The error is want of memory.
#[tactic(auto, unfolding(crate::specs::Actionsite::actionsite_text))]
pub fn actionsite_text(alloc: Global, version: u64, actions: &[Change]) -> Result<Bytes, AllocError>
    ensures { IfOk result (λ text. text ≡ actionsite_text version (action_texts actions.now)) }
{
    let mut out = actionsite_body(alloc, version, actions)?;
    let digest = Sha256::digest(out.as_slice());
    out.extend(b"digest ")?;
    write_digest(&digest, &mut out)?;
    out.push(b'\n')?;
    Ok(out)
}

/// The text before its last line.
#[tactic(auto, using(crate::proofs::Gathering::nothing_gathered))]
fn actionsite_body(alloc: Global, version: u64, actions: &[Change]) -> Result<Bytes, AllocError>
    ensures { IfOk result (λ text. text ≡ actionsite_body version (action_texts actions.now)) }
{
    let mut out = Bytes::from_slice(alloc, b"site actionsite ")?;
    decimal(version, &mut out)?;
    out.push(b'\n')?;
    for action in actions {
        add_text(action, &mut out)?;
    }
    Ok(out)
}

/// Appends the text of an action.
fn add_text(action: &Change, out: &mut Bytes) -> Result<(), AllocError>
    ensures { OnOk result (out.new ≡ out.old ++ concat (action_texts (action.now ∷ []))) }
{
    match action {
        Change::Action { text, .. } => out.extend(text.as_slice()),
        _ => Ok(()),
    }
}

/// The most bytes that `actionsite` will have of the actions among these rows and one of this text, however many of them are stopped, and
/// in whatever version; 2^64 - 1 where it would be more.
pub fn longest_actionsite(text: &[u8], actions: &[Change]) -> usize
    ensures { result ≡ min (longest_actionsite (text.now ∷ action_texts actions.now)) (2 ^ 64 - 1) }
{
    let mut most = HEAD_AND_DIGEST.saturating_add(stopped_len(text));
    for action in actions {
        most = most.saturating_add(most_of(action));
    }
    most
}

/// The most bytes of a kept action.
fn most_of(action: &Change) -> usize
    ensures { result ≡ most_bytes (action_texts (action.now ∷ [])) }
{
    match action {
        Change::Action { text, .. } => stopped_len(text.as_slice()),
        _ => 0,
    }
}
