use crate::Cause;
use bf_machine::ProcessNo;
use desk_base::Bytes;
use rel_lexer::Text;
use script_text::{Arm, Line, Prefetch, StatementList};
use std::collections::VecDeque;

/// Where a run stands.
#[derive(Drop)]
pub enum Place {
    /// Before the next prefetch line or statement.
    Ready,
    /// The file of a prefetch line is wanted.
    Wanting {
        fetch: Prefetch,
    },
    /// The bytes that came for a prefetch line are still to be compared.
    Supplied {
        fetch: Prefetch,
        bytes: Bytes,
    },
    /// The file of a prefetch line is still to be placed.
    Placing {
        line: u32,
        name: Text,
        bytes: Bytes,
    },
    /// Before a line of which nothing is done.
    Doing {
        line: u32,
        what: Line,
    },
    /// The line waits for a program.
    Waiting {
        line: u32,
        process: ProcessNo,
    },
    /// Before the first of these arms, none of which is tested.
    Testing {
        arms: VecDeque<Arm>,
        other: StatementList,
    },
    /// Before the test of an arm, with those behind it.
    Asking {
        arm: Arm,
        arms: VecDeque<Arm>,
        other: StatementList,
    },
    /// All lines are done.
    Done,
    /// A line failed, midway where anything of it was settled.
    Failed {
        line: u32,
        midway: bool,
        cause: Cause,
    },
}
