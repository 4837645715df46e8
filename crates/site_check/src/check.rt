ghost use Rattle.std.specs.Prelude.{◌≡◌, ◌≤◌, ◌-◌, ◌^◌, ℕ, List, All, IfOk, length, count_by};
ghost use Rattle.fix_site.specs.Sites.{IsSite, site_lines};
ghost use Rattle.fix_site.specs.Answers.{ReadsSite};
ghost use Rattle.fix_site.specs.Pieces.{pieces_of};
ghost use Rattle.site_check.specs.Findings.{Finds, JudgesPieces, is_baseline, is_fixlet};
ghost use Rattle.site_check.specs.Judgements.{IsNumbered};

use crate::finding::Finding;
use crate::piece_check::refusal_of;
use crate::refusal::PieceRefusal;
use fix_site::{
    Block, Piece, Site, SiteError, a_piece_stands_at_its_line, a_site_has_few_lines, pieces,
    read_site,
};
use std::alloc::{AllocError, Global};

/// Says what is wrong first with the text of a site. A text of too many bytes, a bad line, an id that stood before and a wrong
/// digest come before all pieces, and of the pieces that are refused the first one is told.
pub fn check_site(alloc: Global, text: &[u8]) -> Finding
    ensures { Finds text.now result }
{
    let site = match read_site(alloc, text) {
        Ok(site) => site,
        Err(error) => return unread(error),
    };
    // Proof: each line of the site has a number of 32 bits.
    a_site_has_few_lines();
    match refusal_of_site(alloc, &site) {
        Ok(Some(refusal)) => Finding::BadPiece(refusal),
        Ok(None) => good(site.blocks.as_slice()),
        Err(_) => Finding::Memory,
    }
}

/// Why a text isn't read.
fn unread(error: SiteError) -> Finding
    ensures { (text : List ℕ) → ReadsSite text (Err error) → Finds text result }
{
    match error {
        SiteError::BadLine(line) => Finding::BadLine(line),
        SiteError::TwiceId(line) => Finding::TwiceId(line),
        SiteError::WrongDigest { stated, found } => Finding::WrongDigest { stated, found },
        SiteError::TooLong => Finding::TooLong,
        SiteError::Memory => Finding::Memory,
    }
}

/// Why the first piece of a site that is no good one is refused, if there is one. Lines are those of the site's text. The error is
/// want of memory.
pub fn refusal_of_site(alloc: Global, site: &Site) -> Result<Option<PieceRefusal>, AllocError>
    requires good { IsSite site.now }
    requires lines { length (site_lines site.now) ≤ 2 ^ 32 - 1 }
    ensures { IfOk result (λ refusal. JudgesPieces (pieces_of site.now) refusal) }
{
    let pieces = pieces(alloc, site)?;
    // Proof: so the lines of each piece have theirs.
    a_piece_stands_at_its_line();
    first_refusal(alloc, pieces.as_slice())
}

fn first_refusal(alloc: Global, pieces: &[Piece]) -> Result<Option<PieceRefusal>, AllocError>
    requires { All IsNumbered pieces.now }
    ensures { IfOk result (λ refusal. JudgesPieces pieces.now refusal) }
{
    for piece in pieces {
        if let Some(refusal) = refusal_of(alloc, piece)? {
            return Ok(Some(refusal));
        }
    }
    Ok(None)
}

/// The finding on a site of these blocks whose pieces are all good.
fn good(blocks: &[Block]) -> Finding
    ensures { result ≡ Finding.Good (count_by is_fixlet blocks.now) (count_by is_baseline blocks.now) }
{
    let mut fixlets = 0;
    let mut baselines = 0;
    for block in blocks {
        match block {
            Block::Fixlet(_) => fixlets += 1,
            Block::Baseline(_) => baselines += 1,
            Block::Action(_) => {}
        }
    }
    Finding::Good { fixlets, baselines }
}
