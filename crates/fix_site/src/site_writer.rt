ghost use Rattle.std.specs.Prelude.{◌≡◌, ◌++◌, IfOk, OnOk};
ghost use Rattle.line_forms.specs.Lines.{lines_text};
ghost use Rattle.fix_site.specs.Blocks.{block_lines};
ghost use Rattle.fix_site.specs.Sites.{IsSite, body_lines, site_text};

use crate::action_writer::add_action;
use crate::block::Block;
use crate::content_writer::{add_baseline, add_fixlet};
use crate::site::Site;
use desk_base::Bytes;
use line_forms::{write_digest, write_number};
use sha2::{Digest, Sha256};
use std::alloc::{AllocError, Global};

/// The text of a site. The error is want of memory.
pub fn write_site(alloc: Global, site: &Site) -> Result<Bytes, AllocError>
    requires { IsSite site.now }
    ensures { IfOk result (λ text. text ≡ site_text site.now) }
{
    let mut out = body(alloc, site)?;
    let digest = Sha256::digest(out.as_slice());
    out.extend(b"digest ")?;
    write_digest(&digest, &mut out)?;
    out.push(b'\n')?;
    Ok(out)
}

/// The text of a site before its last line.
fn body(alloc: Global, site: &Site) -> Result<Bytes, AllocError>
    ensures { IfOk result (λ text. text ≡ lines_text (body_lines site.now)) }
{
    let mut out = Bytes::from_slice(alloc, b"site ")?;
    out.extend(site.name.as_str().as_bytes())?;
    out.push(b' ')?;
    write_number(site.version, &mut out)?;
    out.push(b'\n')?;
    for block in site.blocks.as_slice() {
        add_block(block, &mut out)?;
    }
    Ok(out)
}

/// Appends the lines of a block.
fn add_block(block: &Block, out: &mut Bytes) -> Result<(), AllocError>
    ensures { OnOk result (out.new ≡ out.old ++ lines_text (block_lines block.now)) }
{
    match block {
        Block::Fixlet(fixlet) => add_fixlet(fixlet, out),
        Block::Baseline(baseline) => add_baseline(baseline, out),
        Block::Action(action) => add_action(action, out),
    }
}
