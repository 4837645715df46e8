ghost use Rattle.std.specs.Prelude.{◌≡◌, All, IfOk, map};
ghost use Rattle.fix_site.specs.Blocks.{IsBlock};
ghost use Rattle.agent_attempt.specs.AskedBlocks.{IsAsked, block_relevance};

use crate::clauses::Clauses;
use fix_site::{Block, Blocks};
use rel_lexer::Text;
use std::alloc::{AllocError, Global};

/// A block, and what its relevance reads as.
#[derive(Drop)]
pub struct AskedBlock {
    pub block: Block,
    pub relevance: Clauses,
}

impl AskedBlock {
    /// Reads the relevance of a block. The error is want of memory, here and below.
    fn read(alloc: Global, block: Block) -> Result<AskedBlock, AllocError>
        requires { IsBlock block }
        ensures { IfOk result (λ asked. IsAsked asked × (asked.block ≡ block)) }
    {
        Ok(AskedBlock {
            relevance: Clauses::read(alloc, relevance_of(&block))?,
            block,
        })
    }
}

/// The questions of a block's relevance. An action has none.
fn relevance_of(block: &Block) -> &[Text]
    ensures { result.now ≡ block_relevance block.now }
{
    match block {
        Block::Fixlet(fixlet) => fixlet.relevance.as_slice(),
        Block::Baseline(baseline) => baseline.relevance.as_slice(),
        Block::Action(_) => &[],
    }
}

/// Reads the relevance of blocks, in their order.
pub(crate) fn ask_blocks(alloc: Global, blocks: Blocks) -> Result<Vec<AskedBlock>, AllocError>
    requires { All IsBlock blocks }
    ensures asked { IfOk result (λ asked. All IsAsked asked.items) }
    ensures blocks { IfOk result (λ asked. map (λ one. one.block) asked.items ≡ blocks) }
{
    let mut asked = Vec::new(alloc);
    for block in blocks.into_vec() {
        let one = AskedBlock::read(alloc, block)?;
        asked.push(one)?;
    }
    Ok(asked)
}
