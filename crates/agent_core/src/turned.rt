ghost use Rattle.std.specs.Prelude.{◌≡◌, IfOk};

use act_rules::Outcome;
use agent_attempt::{Fail, copy_fail};
use std::alloc::AllocError;

/// What a turn of an agent comes to. Ids are those of actions; an attempt is said to have begun where it began in this turn.
#[derive(Drop)]
pub enum Turned {
    /// No attempt began, and none is held.
    Idle,
    /// The last attempt of this action ended, which had been broken off.
    Interrupted {
        id: u64,
    },
    /// The attempt waits at this line of the script of this component, or of the fixlet where the component is 0.
    Held {
        id: u64,
        began: bool,
        component: u32,
        line: u32,
    },
    /// The attempt wants the file of this SHA-256.
    Wants {
        id: u64,
        began: bool,
        digest: [u8; 32],
    },
    /// The attempt ended: as Fixed, or as Failed with what failed first.
    Ended {
        id: u64,
        began: bool,
        outcome: Outcome,
        fail: Option<Fail>,
    },
    /// A look failed before an attempt began.
    MachineFault,
    /// A save failed.
    PocketFault,
    /// Want of memory.
    Memory,
}

impl Turned {
    /// The same answer once more. The error is want of memory.
    pub fn copy(&self) -> Result<Turned, AllocError>
        ensures { IfOk result (λ turned. turned ≡ self.now) }
    {
        Ok(match self {
            Turned::Idle => Turned::Idle,
            Turned::Interrupted { id } => Turned::Interrupted { id: *id },
            Turned::Held {
                id,
                began,
                component,
                line,
            } => Turned::Held {
                id: *id,
                began: *began,
                component: *component,
                line: *line,
            },
            Turned::Wants { id, began, digest } => Turned::Wants {
                id: *id,
                began: *began,
                digest: *digest,
            },
            Turned::Ended {
                id,
                began,
                outcome,
                fail,
            } => Turned::Ended {
                id: *id,
                began: *began,
                outcome: *outcome,
                fail: copy_fail(fail)?,
            },
            Turned::MachineFault => Turned::MachineFault,
            Turned::PocketFault => Turned::PocketFault,
            Turned::Memory => Turned::Memory,
        })
    }
}
