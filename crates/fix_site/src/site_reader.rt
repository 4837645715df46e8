ghost use Rattle.std.specs.Prelude.{◌≡◌, ◌∷◌, [], ℕ, List, MatchOption};
ghost use Rattle.line_forms.specs.Names.{IsName};
ghost use Rattle.line_forms.specs.Readers.{TakesOne, Passes};
ghost use Rattle.line_forms.specs.Numbers.{IsId};
ghost use Rattle.fix_site.specs.Sites.{IsDigestValue, digest_line, site_line};
ghost use Rattle.fix_site.specs.Answers.{ReadsSite};
ghost use Rattle.fix_site.specs.Readings.{ReadsStated, TakesBlocks};

use crate::action_reader::LONGEST_TEXT;
use crate::block::Blocks;
use crate::block_reader::take_block;
use crate::blocks_so_far::BlocksSoFar;
use crate::error::SiteError;
use crate::field::{Named, read_named};
use crate::site::Site;
use line_forms::{Lines, read_digest};
use rel_lexer::Text;
use sha2::{Digest, Sha256};
use std::alloc::Global;

/// The bytes of a site's last line: `digest `, 64 digits and an LF.
const DIGEST_LINE: usize = 72;

/// A site as its lines spell it, and the digest that they state.
#[derive(Drop)]
struct Stated {
    site: Site,
    digest: [u8; 32],
}

/// Reads a site: its name and version, its blocks and its digest. The answer is the first thing that is wrong: too many
/// bytes, the first bad line or the first id that stood before, or a digest that isn't that of the text.
pub fn read_site(alloc: Global, text: &[u8]) -> Result<Site, SiteError>
    ensures { ReadsSite text.now result }
{
    if text.len() > LONGEST_TEXT {
        return Err(SiteError::TooLong);
    }
    let mut lines = Lines::new(text);
    let stated = read_stated(alloc, &mut lines)?;
    if !lines.is_over() {
        return Err(SiteError::BadLine(lines.number()));
    }
    let found = Sha256::digest(&text[..text.len() - DIGEST_LINE]);
    if stated.digest != found {
        return Err(SiteError::WrongDigest {
            stated: stated.digest,
            found,
        });
    }
    Ok(stated.site)
}

/// Reads the lines ahead as a site. An error leaves the line ahead whose number it has.
fn read_stated(alloc: Global, lines: &mut Lines<'_>) -> Result<Stated, SiteError>
    ensures { ReadsStated lines.old lines.new result }
{
    let Some(head) = take_site(lines) else {
        return Err(SiteError::BadLine(lines.number()));
    };
    let blocks = take_blocks(alloc, head.name, lines)?;
    let Some(digest) = take_digest(lines) else {
        return Err(SiteError::BadLine(lines.number()));
    };
    Ok(Stated {
        site: Site {
            name: Text::from_str(alloc, head.name)?,
            version: head.id,
            blocks,
        },
        digest,
    })
}

/// Takes the line of the site's name and version, if it is ahead.
fn take_site<'a>(lines: &mut Lines<'a>) -> Option<Named<'a>>
    ensures { MatchOption result
        ((lines.new ≡ lines.old) × ((name : List ℕ) (version : ℕ) (more : List (List ℕ)) → IsName name → IsId version
        → ¬ (lines.old.lines ≡ site_line name version ∷ more)))
        (λ n. IsName n.name.now × IsId n.id × Passes lines.old lines.new (site_line n.name.now n.id ∷ [])) }
{
    let head = read_named(lines.rest_ahead(b"site")?)?;
    lines.skip_line();
    Some(head)
}

/// Takes the lines of blocks, as far as they go.
fn take_blocks(alloc: Global, name: &str, lines: &mut Lines<'_>) -> Result<Blocks, SiteError>
    ensures { TakesBlocks name.now lines.old lines.new result }
{
    let mut blocks = BlocksSoFar::new(alloc);
    while let Some(block) = take_block(alloc, name, &blocks, lines)? {
        blocks = blocks.with(block)?;
    }
    Ok(blocks.into_blocks())
}

/// Takes the last line, if it is ahead.
fn take_digest(lines: &mut Lines<'_>) -> Option<[u8; 32]>
    ensures { TakesOne IsDigestValue digest_line lines.old lines.new result }
{
    let digest = read_digest(lines.rest_ahead(b"digest")?)?;
    lines.skip_line();
    Some(digest)
}
