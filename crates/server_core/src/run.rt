ghost use Rattle.std.specs.Prelude.{◌≡◌, ◌≤◌, ◌++◌, [], ◌∷◌, List, IfOk, OnOk, OnErr};
ghost use Rattle.server_text.specs.Entries.{Entry};
ghost use Rattle.server_core.specs.CallAnswers.{AnswersAll, AreTables, CountsReplies};

use crate::server::Server;
use desk_keep::Keeper;
use server_text::{Reply, Request};
use std::alloc::{AllocError, Global};
use std::marker::Model;

/// Replies in their order. Contracts see the list of them.
#[derive(Drop)]
pub struct Replies {
    list: Vec<Reply>,
}

impl Model for Replies {
    ghost use Rattle.std.specs.Prelude.{List};
    ghost use Rattle.server_text.specs.declared.reply.Reply.{Reply};

    ghost Value = { List Reply };

    ghost view = { λ r. r.list.items };
}

impl Replies {
    /// None. It takes no memory.
    pub fn new(alloc: Global) -> Replies
        ensures { result ≡ [] }
    {
        Replies {
            list: Vec::new(alloc),
        }
    }

    /// The replies.
    pub fn as_slice(&self) -> &[Reply]
        ensures { result.now ≡ self.now }
    {
        self.list.as_slice()
    }

    /// Appends a reply. The error is want of memory; then nothing is appended.
    pub fn push(&mut self, reply: Reply) -> Result<(), AllocError>
        ensures ok { OnOk result (self.new ≡ self.old ++ reply ∷ []) }
        ensures err { OnErr result (self.new ≡ self.old) }
    {
        self.list.push(reply)?;
        Ok(())
    }
}

/// Answers requests in their order. Where the rows are the tables of some accepted requests, each reply is the one to these and to what
/// was accepted since, and the rows in the end are the tables of it all.
pub fn answer_all<K: Keeper>(
    alloc: Global,
    server: &Server,
    keeper: &mut K,
    requests: &[Request],
) -> Result<Replies, AllocError>
    ensures replies { IfOk result (λ replies. (accepted : List Entry) → AreTables (K.told keeper.old).rows accepted
        → (last : List Entry) × AnswersAll server.now.limits accepted requests.now replies last
        × AreTables (K.told keeper.new).rows last) }
    ensures counts { IfOk result (λ replies. CountsReplies replies (K.told keeper.old).faults (K.told keeper.new).faults) }
    ensures later { (K.told keeper.old).faults ≤ (K.told keeper.new).faults }
{
    let mut replies = Replies::new(alloc);
    for request in requests {
        replies.push(server.answer(alloc, keeper, request))?;
    }
    Ok(replies)
}
