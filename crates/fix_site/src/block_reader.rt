ghost use Rattle.std.specs.Prelude.{ℕ, List, IfOk, IsTrue, ◌↔◌};
ghost use Rattle.line_forms.specs.Readers.{ReadsPart};
ghost use Rattle.line_forms.specs.Numbers.{IsId};
ghost use Rattle.fix_site.specs.Blocks.{AreBlocks, block_rest};
ghost use Rattle.fix_site.specs.Readings.{TakesBlock};
ghost use Rattle.fix_site.specs.BlockHeads.{IsActions, IsHeadAhead, CanStand, IsBlockOf, FindsHead};

use crate::action_reader::take_action;
use crate::block::Block;
use crate::blocks_so_far::BlocksSoFar;
use crate::content_reader::{take_baseline, take_fixlet};
use crate::error::SiteError;
use line_forms::{Lines, read_id};
use std::alloc::{AllocError, Global};

/// What a block is.
#[derive(Clone, Copy)]
enum Kind {
    Fixlet,
    Baseline,
    Action,
}

/// The kind and the id of a block, which its first line spells.
#[derive(Clone, Copy)]
struct Head {
    kind: Kind,
    id: u64,
}

/// Takes the lines of a block that can follow these ones in the site of this name, if the first of them is ahead. An error
/// leaves the line ahead whose number it has.
pub(crate) fn take_block(
    alloc: Global,
    name: &str,
    blocks: &BlocksSoFar,
    lines: &mut Lines<'_>,
) -> Result<Option<Block>, SiteError>
    requires { AreBlocks name.now blocks.now }
    ensures { TakesBlock name.now blocks.now lines.old lines.new result }
{
    let Some(head) = head_ahead(name, lines) else {
        return Ok(None);
    };
    if blocks.has_id(head.id) {
        return Err(SiteError::TwiceId(lines.number()));
    }
    if !can_follow(head, blocks) {
        return Ok(None);
    }
    lines.skip_line();
    match take_block_behind(alloc, head, blocks, lines)? {
        Some(block) => Ok(Some(block)),
        None => Err(SiteError::BadLine(lines.number())),
    }
}

/// Whether the site of this name has actions, and nothing else.
pub(crate) fn has_actions(name: &str) -> bool
    ensures { IsTrue result ↔ IsActions name.now }
{
    name == "actionsite"
}

/// The kind and the id of the block whose first line is ahead, if there is one that the site of this name can have.
fn head_ahead(name: &str, lines: &Lines<'_>) -> Option<Head>
    ensures { FindsHead name.now lines.now result }
{
    if has_actions(name) {
        return head_of(Kind::Action, b"action", lines);
    }
    if let Some(head) = head_of(Kind::Fixlet, b"fixlet", lines) {
        return Some(head);
    }
    head_of(Kind::Baseline, b"baseline", lines)
}

fn head_of(kind: Kind, word: &[u8], lines: &Lines<'_>) -> Option<Head>
    ensures { IsHeadAhead kind word.now lines.now result }
{
    let Some(field) = lines.rest_ahead(word) else {
        return None;
    };
    let Some(id) = read_id(field) else {
        return None;
    };
    Some(Head { kind, id })
}

/// Whether a block with a new id can follow these: an action of a higher id, and a baseline where there is a fixlet.
fn can_follow(head: Head, blocks: &BlocksSoFar) -> bool
    ensures { IsTrue result ↔ CanStand blocks.now head }
{
    match head.kind {
        Kind::Fixlet => true,
        Kind::Baseline => blocks.has_fixlets(),
        Kind::Action => blocks.are_below(head.id),
    }
}

/// Takes the lines of a block behind the first.
fn take_block_behind(
    alloc: Global,
    head: Head,
    blocks: &BlocksSoFar,
    lines: &mut Lines<'_>,
) -> Result<Option<Block>, AllocError>
    requires id { IsId head.id }
    requires some { CanStand blocks.now head }
    requires good { (name : List ℕ) × AreBlocks name blocks.now }
    ensures { IfOk result (λ block. ReadsPart (IsBlockOf blocks.now head) block_rest lines.old lines.new block) }
{
    match head.kind {
        Kind::Fixlet => {
            let Some(fixlet) = take_fixlet(alloc, head.id, lines)? else {
                return Ok(None);
            };
            Ok(Some(Block::Fixlet(fixlet)))
        }
        Kind::Baseline => {
            let Some(baseline) = take_baseline(alloc, blocks, head.id, lines)? else {
                return Ok(None);
            };
            Ok(Some(Block::Baseline(baseline)))
        }
        Kind::Action => {
            let Some(action) = take_action(alloc, head.id, lines)? else {
                return Ok(None);
            };
            Ok(Some(Block::Action(action)))
        }
    }
}
