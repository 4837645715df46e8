ghost use Rattle.std.specs.Prelude.{◌≡◌};
ghost use Rattle.desk_top.specs.Rounded.{status_of_rounds};
ghost use Rattle.desk_top.specs.Served.{status_of_stop};
ghost use Rattle.desk_top.specs.Statuses.{status_number, status_of};

use desk_runs::AgentStop;
use desk_serve::Stop;
use rel_session::Halt;

/// How a run ended. The program exits with its number, 0 to 10 in this order.
#[derive(Clone, Copy)]
pub enum Status {
    /// All was read and said.
    Done,
    /// The words are none of the table's.
    Usage,
    /// The command refuses its input.
    Refused,
    /// The source failed.
    Source,
    /// The sink failed.
    Sink,
    /// The clock failed.
    Clock,
    /// The pocket failed.
    Pocket,
    /// The keeper couldn't be opened.
    Keeper,
    /// The door couldn't be opened, or gave no next conversation.
    Door,
    /// Memory ran out.
    Memory,
    /// The source gave more than 8,388,608 bytes.
    InputTooLong,
}

impl Status {
    /// The status of a run that ended early.
    pub(crate) fn of_halt(halt: Halt) -> Status
        ensures { result ≡ status_of halt }
    {
        match halt {
            Halt::Sink => Status::Sink,
            Halt::Clock => Status::Clock,
            Halt::Memory => Status::Memory,
        }
    }

    /// The status of a run of conversations that was cut.
    pub(crate) fn of_stop(stop: Stop) -> Status
        ensures { result ≡ status_of_stop stop }
    {
        match stop {
            Stop::Door => Status::Door,
            Stop::Sink => Status::Sink,
            Stop::Memory => Status::Memory,
        }
    }

    /// The status of rounds that were cut.
    pub(crate) fn of_rounds(stop: AgentStop) -> Status
        ensures { result ≡ status_of_rounds stop }
    {
        match stop {
            AgentStop::Clock => Status::Clock,
            AgentStop::Pocket => Status::Pocket,
            AgentStop::Sink => Status::Sink,
            AgentStop::Memory => Status::Memory,
        }
    }

    /// The number with which the program exits.
    pub fn number(self) -> u8
        ensures { result ≡ status_number self }
    {
        self as u8
    }
}
