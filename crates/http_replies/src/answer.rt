ghost use Rattle.std.specs.Prelude.{◌≡◌, ◌++◌, IfOk, OnOk};
ghost use Rattle.desk_http.specs.Calling.{HasStatus};
ghost use Rattle.http_replies.specs.Statuses.{IsCalled, answer_body, answer_status, reply_status};

use desk_base::Bytes;
use desk_http::Called;
use server_text::{Reply, say_reply};
use std::alloc::{AllocError, Global};

/// What is answered.
#[derive(Drop)]
pub enum Answer {
    /// What a server replies.
    Reply(Reply),
    /// The server holds the report, as a relay knows.
    Stored,
    /// The report is queued at a relay.
    Carried,
    /// The upstream of a relay didn't reply.
    LinkFault,
    /// The upstream of a relay replied what is no reply to a request of a file.
    BadAnswer,
}

impl Answer {
    /// Its status and its body, as a host gives them. Want of memory is the host's, and so is that of this call.
    pub fn called(self, alloc: Global) -> Called
        ensures called { IsCalled self result }
        ensures status { HasStatus result }
    {
        if matches!(self, Answer::Reply(Reply::Memory)) {
            return Called::Memory;
        }
        let status = self.status();
        match self.into_body(alloc) {
            Ok(body) => Called::Answer(status, body),
            Err(_) => Called::Memory,
        }
    }

    /// Its body. Bytes that it holds are moved, not copied. The error is want of memory.
    fn into_body(self, alloc: Global) -> Result<Bytes, AllocError>
        ensures { IfOk result (λ body. body ≡ answer_body self) }
    {
        match self {
            Answer::Reply(Reply::Content(bytes)) => Ok(bytes),
            Answer::Reply(Reply::Site(text)) => Ok(text),
            other => other.said(alloc),
        }
    }

    /// Its body, as a text of its own. The error is want of memory.
    fn said(&self, alloc: Global) -> Result<Bytes, AllocError>
        ensures { IfOk result (λ body. body ≡ answer_body self.now) }
    {
        let mut body = Bytes::new(alloc);
        self.say(&mut body)?;
        Ok(body)
    }

    fn status(&self) -> u16
        ensures { result ≡ answer_status self.now }
    {
        match self {
            Answer::Reply(reply) => status_of(reply),
            Answer::Stored | Answer::Carried => 200,
            Answer::LinkFault | Answer::BadAnswer => 502,
        }
    }

    /// Appends its body. The error is want of memory, after which `out` is of no use.
    fn say(&self, out: &mut Bytes) -> Result<(), AllocError>
        ensures { OnOk result (out.new ≡ out.old ++ answer_body self.now) }
    {
        match self {
            Answer::Reply(reply) => say_reply(reply, out),
            Answer::Stored => out.extend(b"stored\n"),
            Answer::Carried => out.extend(b"carried\n"),
            Answer::LinkFault => out.extend(b"link fault\n"),
            Answer::BadAnswer => out.extend(b"bad answer\n"),
        }
    }
}

fn status_of(reply: &Reply) -> u16
    ensures { result ≡ reply_status reply.now }
{
    match reply {
        Reply::Ok | Reply::Again | Reply::Digest(_) => 200,
        Reply::Sites(_) | Reply::Site(_) | Reply::Same => 200,
        Reply::Content(_) | Reply::Rows(_) => 200,
        Reply::BadText(_) => 400,
        Reply::NoSuch => 404,
        Reply::Conflict(_) | Reply::Older(_) => 409,
        Reply::KeeperFault => 500,
        Reply::Memory => 503,
        Reply::Full(_) => 507,
    }
}
