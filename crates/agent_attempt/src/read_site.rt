ghost use Rattle.std.specs.Prelude.{◌≡◌, map, IfOk};
ghost use Rattle.fix_site.specs.Sites.{IsSite};
ghost use Rattle.agent_attempt.specs.ReadBlocks.{shown_block};
ghost use Rattle.agent_attempt.specs.ActionContents.{block_content};
ghost use Rattle.agent_attempt.specs.FoundContents.{FindsBlock, FindsContent, FindsFixlet, shown_if};

use crate::read_block::{ReadBaseline, ReadBlock};
use crate::read_blocks::ReadBlocks;
use crate::read_fixlet::ReadFixlet;
use fix_site::Site;
use rel_lexer::Text;
use std::alloc::{AllocError, Global};
use std::marker::Model;

/// A site whose texts were read once. Contracts see the site.
#[derive(Drop)]
pub struct ReadSite {
    name: Text,
    version: u64,
    blocks: ReadBlocks,
}

impl Model for ReadSite {
    ghost use Rattle.fix_site.specs.declared.site.Site.{Site};
    ghost use Rattle.fix_site.specs.Sites.{IsSite};

    ghost Value = { Site };

    ghost view = { λ s. record { name = s.name; version = s.version; blocks = s.blocks } };

    ghost invariant = { λ s. IsSite (record { name = s.name; version = s.version; blocks = s.blocks }) };
}

/// A baseline, and the site that it is of. Only a site makes one, of a baseline of its own.
#[derive(Clone, Copy)]
pub struct SiteBaseline<'a> {
    pub(crate) site: &'a ReadSite,
    pub(crate) baseline: &'a ReadBaseline,
}

/// What an action runs.
#[derive(Clone, Copy)]
pub enum Content<'a> {
    Fixlet(&'a ReadFixlet),
    Baseline(SiteBaseline<'a>),
}

impl ReadSite {
    /// Reads the texts of a site. The error is want of memory.
    pub fn read(alloc: Global, site: &Site) -> Result<ReadSite, AllocError>
        requires { IsSite site.now }
        ensures { IfOk result (λ read. read ≡ site.now) }
    {
        let Site {
            name,
            version,
            blocks,
        } = site.copy()?;
        // All texts are copied by now, so that what they read as lies together, which is what each turn goes through.
        let blocks = ReadBlocks::read(alloc, blocks)?;
        Ok(ReadSite {
            name,
            version,
            blocks,
        })
    }

    /// Its name.
    pub fn name(&self) -> &str
        ensures { result.now ≡ self.now.name }
    {
        self.name.as_str()
    }

    /// Its version.
    pub fn version(&self) -> u64
        ensures { result ≡ self.now.version }
    {
        self.version
    }

    /// Its blocks, in their order.
    pub fn blocks(&self) -> &[ReadBlock]
        ensures blocks { map shown_block result.now ≡ self.now.blocks }
        ensures good { IsSite self.now }
    {
        self.blocks.as_slice()
    }

    /// The place at which to look first for the block of this id. A wrong one would only cost time, so nothing is promised of it.
    pub fn place(&self, id: u64) -> usize {
        self.blocks.place(id)
    }

    fn block(&self, id: u64) -> Option<&ReadBlock>
        ensures { FindsBlock id self.now.blocks result }
    {
        self.blocks.get(id)
    }

    /// The block of this id, if there is one. This place is looked at first.
    fn block_near(&self, id: u64, place: usize) -> Option<&ReadBlock>
        ensures { FindsBlock id self.now.blocks result }
    {
        if let Some(block) = self.blocks.as_slice().get(place)
            && block.id() == id
        {
            return Some(block);
        }
        self.block(id)
    }

    /// The fixlet of this id, if there is one.
    pub(crate) fn fixlet(&self, id: u64) -> Option<&ReadFixlet>
        ensures { FindsFixlet id self.now.blocks result }
    {
        match self.block(id) {
            Some(block) => block.as_fixlet(),
            None => None,
        }
    }

    /// What an action of this content runs, if there is such a fixlet or baseline. This place is looked at first, so that it is found
    /// at once where it stands there.
    pub fn content_near(&self, id: u64, place: usize) -> Option<Content<'_>>
        ensures { FindsContent id self.now.blocks result }
    {
        match self.block_near(id, place) {
            Some(block) => self.content_of(block),
            None => None,
        }
    }

    /// What an action of this content runs, if there is such a fixlet or baseline.
    pub fn content(&self, id: u64) -> Option<Content<'_>>
        ensures { FindsContent id self.now.blocks result }
    {
        self.content_near(id, 0)
    }

    /// What an action of this block of the site runs.
    fn content_of<'a>(&'a self, block: &'a ReadBlock) -> Option<Content<'a>>
        ensures { shown_if result ≡ block_content self.now.blocks (shown_block block.now) }
    {
        match block {
            ReadBlock::Fixlet(fixlet) => Some(Content::Fixlet(fixlet)),
            ReadBlock::Baseline(baseline) => Some(Content::Baseline(SiteBaseline {
                site: self,
                baseline,
            })),
            ReadBlock::Action(_) => None,
        }
    }
}
