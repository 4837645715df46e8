ghost use Rattle.std.specs.Prelude.{◌≡◌, ◌≤◌, ◌+◌, ◌-◌, ◌^◌, ◌++◌, ◌∷◌, [], IfOk, OnOk, length};
ghost use Rattle.fix_site.specs.declared.piece.Piece.TheVariants.{Relevance};
ghost use Rattle.fix_site.specs.Contents.{fixlet_rest, baseline_rest};
ghost use Rattle.fix_site.specs.Blocks.{block_lines};
ghost use Rattle.fix_site.specs.Sites.{IsSite, site_lines};
ghost use Rattle.fix_site.specs.Pieces.{pieces_of, block_pieces, fixlet_pieces, relevance_pieces, success_pieces, script_pieces};
ghost use Rattle.fix_site.specs.Readings.{IsContent};

use crate::baseline::Baseline;
use crate::block::Block;
use crate::block_reader::has_actions;
use crate::fixlet::{Fixlet, Success};
use crate::piece::{Piece, Pieces};
use crate::site::Site;
use crate::texts::Texts;
use rel_lexer::Text;
use std::alloc::{AllocError, Global};

/// The questions and scripts of a site in the order of their lines, each with the number of the line on which it begins
/// in the site's text. An action has none. The error is want of memory.
pub fn pieces(alloc: Global, site: &Site) -> Result<Pieces, AllocError>
    requires good { IsSite site.now }
    requires lines { length (site_lines site.now) ≤ 2 ^ 32 - 1 }
    ensures { IfOk result (λ pieces. pieces ≡ pieces_of site.now) }
{
    if has_actions(site.name.as_str()) {
        return Ok(Pieces::from_vec(Vec::new(alloc)));
    }
    let mut list = PieceList {
        pieces: Vec::new(alloc),
        line: 2,
    };
    for block in site.blocks.as_slice() {
        list.add_block(block)?;
    }
    Ok(Pieces::from_vec(list.pieces))
}

/// Pieces, and the number of the line behind those that were gone over.
#[derive(Drop)]
struct PieceList {
    pieces: Vec<Piece>,
    line: u32,
}

impl PieceList {
    /// Adds the pieces of a block that is no action.
    fn add_block(&mut self, block: &Block) -> Result<(), AllocError>
        requires some { IsContent block.now }
        requires fits { self.old.line + length (block_lines block.now) ≤ 2 ^ 32 - 1 }
        ensures pieces { OnOk result (self.new.pieces.items ≡ self.old.pieces.items ++ block_pieces self.old.line block.now) }
        ensures line { OnOk result (self.new.line ≡ self.old.line + length (block_lines block.now)) }
    {
        match block {
            Block::Fixlet(fixlet) => self.add_fixlet(fixlet),
            Block::Baseline(baseline) => self.add_baseline(baseline),
            Block::Action(_) => Ok(()),
        }
    }

    fn add_fixlet(&mut self, fixlet: &Fixlet) -> Result<(), AllocError>
        requires { self.old.line + length (fixlet_rest fixlet.now) + 1 ≤ 2 ^ 32 - 1 }
        ensures pieces { OnOk result (self.new.pieces.items ≡ self.old.pieces.items ++ fixlet_pieces self.old.line fixlet.now) }
        ensures line { OnOk result (self.new.line ≡ self.old.line + length (fixlet_rest fixlet.now) + 1) }
    {
        self.skip(2);
        self.add_relevance(&fixlet.relevance)?;
        self.add_success(&fixlet.success)?;
        self.add_script(&fixlet.script)?;
        self.skip(1);
        Ok(())
    }

    fn add_baseline(&mut self, baseline: &Baseline) -> Result<(), AllocError>
        requires { self.old.line + length (baseline_rest baseline.now) + 1 ≤ 2 ^ 32 - 1 }
        ensures pieces { OnOk result (self.new.pieces.items
            ≡ self.old.pieces.items ++ relevance_pieces (self.old.line + 2) baseline.now.relevance) }
        ensures line { OnOk result (self.new.line ≡ self.old.line + length (baseline_rest baseline.now) + 1) }
    {
        self.skip(2);
        self.add_relevance(&baseline.relevance)?;
        self.skip(baseline.components.as_slice().len());
        self.skip(1);
        Ok(())
    }

    /// Goes on over so many lines.
    fn skip(&mut self, count: usize)
        requires { self.old.line + count ≤ 2 ^ 32 - 1 }
        ensures pieces { self.new.pieces.items ≡ self.old.pieces.items }
        ensures line { self.new.line ≡ self.old.line + count }
    {
        self.line += count as u32;
    }

    fn add_relevance(&mut self, questions: &Texts) -> Result<(), AllocError>
        requires { self.old.line + length questions.now ≤ 2 ^ 32 - 1 }
        ensures pieces { OnOk result (self.new.pieces.items
            ≡ self.old.pieces.items ++ relevance_pieces self.old.line questions.now) }
        ensures line { OnOk result (self.new.line ≡ self.old.line + length questions.now) }
    {
        for question in questions.as_slice() {
            self.add_question(question)?;
        }
        Ok(())
    }

    /// Adds the question of the line, and goes on behind it.
    fn add_question(&mut self, question: &Text) -> Result<(), AllocError>
        requires { self.old.line + 1 ≤ 2 ^ 32 - 1 }
        ensures pieces { OnOk result (self.new.pieces.items
            ≡ self.old.pieces.items ++ Relevance self.old.line question.now ∷ []) }
        ensures line { OnOk result (self.new.line ≡ self.old.line + 1) }
    {
        self.pieces.push(Piece::Relevance {
            line: self.line,
            text: question.copy()?,
        })?;
        self.skip(1);
        Ok(())
    }

    fn add_success(&mut self, success: &Success) -> Result<(), AllocError>
        requires { self.old.line + 1 ≤ 2 ^ 32 - 1 }
        ensures pieces { OnOk result (self.new.pieces.items ≡ self.old.pieces.items ++ success_pieces self.old.line success.now) }
        ensures line { OnOk result (self.new.line ≡ self.old.line + 1) }
    {
        if let Success::Clause(question) = success {
            return self.add_question(question);
        }
        self.skip(1);
        Ok(())
    }

    fn add_script(&mut self, script: &Texts) -> Result<(), AllocError>
        requires { self.old.line + length script.now ≤ 2 ^ 32 - 1 }
        ensures pieces { OnOk result (self.new.pieces.items ≡ self.old.pieces.items ++ script_pieces self.old.line script.now) }
        ensures line { OnOk result (self.new.line ≡ self.old.line + length script.now) }
    {
        if script.as_slice().is_empty() {
            return Ok(());
        }
        self.pieces.push(Piece::Script {
            line: self.line,
            lines: script.copy()?,
        })?;
        self.skip(script.as_slice().len());
        Ok(())
    }
}
