ghost use Rattle.std.specs.Prelude.{◌≡◌, ◌++◌, [], ◌∷◌, OnOk, OnErr, Some};
ghost use Rattle.desk_door.specs.Links.{AsksOnce};
ghost use Rattle.desk_door.specs.Memory.{ExchangesMemory, unasked_link, link_view};

use crate::asked::Asked;
use crate::link::{Exchanged, Link};
use desk_base::{Bytes, Calls};
use rel_lexer::Text;
use std::alloc::{AllocError, Global};
use std::collections::VecDeque;
use std::marker::Model;

/// A link in memory. It gives a list of replies in turn, and fails where that is used up.
#[derive(Drop)]
pub struct MemoryLink {
    alloc: Global,
    upstream: Option<Text>,
    asked: Vec<Asked>,
    replies: VecDeque<Bytes>,
    calls: Calls,
}

impl Model for MemoryLink {
    ghost use Rattle.desk_door.specs.Memory.{LinkState};

    ghost Value = { LinkState };

    ghost view = { λ l. record { upstream = l.upstream; asked = l.asked.items; replies = l.replies.items; calls = l.calls } };
}

impl MemoryLink {
    /// A link with these replies. The exchanges with these numbers fail, counted from 1, and use up none.
    pub fn new(alloc: Global, replies: Vec<Bytes>, fails: Vec<u32>) -> MemoryLink
        ensures { result ≡ unasked_link replies.items fails.items }
    {
        MemoryLink {
            alloc,
            upstream: None,
            asked: Vec::new(alloc),
            replies: VecDeque::from_vec(replies),
            calls: Calls::new(alloc, fails),
        }
    }

    /// The requests that it was asked, in order.
    pub fn asked(&self) -> &[Asked]
        ensures { result.now ≡ self.now.asked }
    {
        self.asked.as_slice()
    }
}

impl Link for MemoryLink {
    ghost told = { link_view };

    fn open(&mut self, upstream: &Text) -> Result<(), AllocError>
        ensures ok { OnOk result (self.new ≡ record self.old { upstream = Some upstream.now }) }
        ensures err { OnErr result (self.new ≡ self.old) }
    {
        self.upstream = Some(upstream.copy()?);
        Ok(())
    }

    fn exchange(&mut self, request: &[u8]) -> Exchanged
        ensures asks { AsksOnce request.now (link_view self.old) result (link_view self.new) }
        ensures memory { ExchangesMemory self.old result self.new }
    {
        let fails = self.calls.begin();
        if keep(self.alloc, &self.upstream, request, &mut self.asked).is_err() {
            return Exchanged::Memory;
        }
        if fails {
            self.calls.fault();
            return Exchanged::Failed;
        }
        match self.replies.pop_front() {
            Some(reply) => Exchanged::Reply(reply),
            None => {
                self.calls.fault();
                Exchanged::Failed
            }
        }
    }

    fn pause(&mut self)
        ensures { self.new ≡ self.old }
    {}
}

/// Keeps a request that was asked, with the upstream that is open. At an error nothing has changed.
fn keep(
    alloc: Global,
    upstream: &Option<Text>,
    request: &[u8],
    asked: &mut Vec<Asked>,
) -> Result<(), AllocError>
    ensures ok { OnOk result (asked.new.items ≡ asked.old.items ++ record { upstream = upstream.now; request = request.now } ∷ []) }
    ensures err { OnErr result (asked.new.items ≡ asked.old.items) }
{
    let upstream = match upstream {
        Some(upstream) => Some(upstream.copy()?),
        None => None,
    };
    let request = Bytes::from_slice(alloc, request)?;
    asked.push(Asked { upstream, request })?;
    Ok(())
}
