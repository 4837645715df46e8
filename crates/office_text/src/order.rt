ghost use Rattle.std.specs.Prelude.{◌≡◌, IfOk};

use bf_world::World;
use desk_base::Bytes;
use group_text::{Analysis, Group};
use rel_lexer::Text;
use std::alloc::AllocError;

/// What an office is told to do, by a word. Names have 1 to 64 ASCII letters, digits, `-`, `_` and `.`.
#[derive(Drop)]
pub enum Order {
    /// The server gets this text as a site.
    Publish(Bytes),
    /// It gets this text as an action.
    Act(Bytes),
    /// It stops the action of this id, from 1 to 2^53.
    Stop(u64),
    /// It gets these bytes as a file.
    File(Bytes),
    /// A new relay.
    Relay(Text),
    /// A new computer at a relay, with its machine.
    Computer {
        name: Text,
        relay: Text,
        world: World,
    },
    /// A relay takes each newer site.
    Gather(Text),
    /// A computer's agent turns at a moment, in seconds since 1970-01-01 00:00:00 UTC, from 0 to 2^37.
    Turn {
        name: Text,
        moment: i64,
    },
    /// It is opened again.
    Restart(Text),
    /// It sends the report of this number.
    Send {
        name: Text,
        seq: u64,
    },
    /// A relay sends each queued report.
    Push(Text),
    /// The message of this number arrives.
    Deliver(u64),
    /// A computer's agent sends each report, which arrives and is answered.
    Report(Text),
    /// A relay does.
    Forward(Text),
    /// A relay begins anew.
    Forget(Text),
    /// The book of what is measured gets an analysis.
    Analysis(Analysis),
    /// It gets a group.
    Group(Group),
    /// A computer is measured at a moment, in seconds since 1970-01-01 00:00:00 UTC, from 0 to 2^37.
    Measure {
        name: Text,
        moment: i64,
    },
    /// The members of the group of this name are said, whether it is known or not.
    Members(Text),
    /// The server gets this text as an action, of which the first line `target all` has become one for each member of the group.
    Target {
        group: Text,
        action: Bytes,
    },
}

impl Order {
    /// The same order once more. The error is want of memory.
    pub fn copy(&self) -> Result<Order, AllocError>
        ensures { IfOk result (λ order. order ≡ self.now) }
    {
        match self {
            Order::Publish(text) => Ok(Order::Publish(text.copy()?)),
            Order::Act(text) => Ok(Order::Act(text.copy()?)),
            Order::Stop(id) => Ok(Order::Stop(*id)),
            Order::File(bytes) => Ok(Order::File(bytes.copy()?)),
            Order::Relay(name) => Ok(Order::Relay(name.copy()?)),
            Order::Computer { name, relay, world } => Ok(Order::Computer {
                name: name.copy()?,
                relay: relay.copy()?,
                world: world.copy()?,
            }),
            Order::Gather(relay) => Ok(Order::Gather(relay.copy()?)),
            Order::Turn { name, moment } => Ok(Order::Turn {
                name: name.copy()?,
                moment: *moment,
            }),
            Order::Restart(name) => Ok(Order::Restart(name.copy()?)),
            Order::Send { name, seq } => Ok(Order::Send {
                name: name.copy()?,
                seq: *seq,
            }),
            Order::Push(relay) => Ok(Order::Push(relay.copy()?)),
            Order::Deliver(message) => Ok(Order::Deliver(*message)),
            Order::Report(name) => Ok(Order::Report(name.copy()?)),
            Order::Forward(relay) => Ok(Order::Forward(relay.copy()?)),
            Order::Forget(relay) => Ok(Order::Forget(relay.copy()?)),
            Order::Analysis(analysis) => Ok(Order::Analysis(analysis.copy()?)),
            Order::Group(group) => Ok(Order::Group(group.copy()?)),
            Order::Measure { name, moment } => Ok(Order::Measure {
                name: name.copy()?,
                moment: *moment,
            }),
            Order::Members(group) => Ok(Order::Members(group.copy()?)),
            Order::Target { group, action } => Ok(Order::Target {
                group: group.copy()?,
                action: action.copy()?,
            }),
        }
    }
}
