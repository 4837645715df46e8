ghost use Rattle.std.specs.Prelude.{◌≡◌, ◌+◌, ◌<◌, IsErrOf, MatchResult};
ghost use Rattle.std.specs.Io.KnownBytes.{Appends};
ghost use Rattle.desk_base.specs.Counts.{CountsAtMost, CountsFaults};
ghost use Rattle.desk_base.specs.Flow.{AppendsSome, IsFront};
ghost use Rattle.bf_machine.specs.Views.{OnlyLooks};
ghost use Rattle.desk_top.specs.AllDevices.{all_devices};
ghost use Rattle.desk_top.specs.Commands.{AsksSome, AsksUpstream, HoldsTalks, IsAgents, IsCommand, ReadsSource, UsesKeeper};
ghost use Rattle.desk_top.specs.Endings.{CountsByStatus, Comes, Ended};
ghost use Rattle.office_text.specs.Made.{office_of};
ghost use Rattle.desk_top.specs.Runs.{input_limit, ReadsInput};
ghost use Rattle.desk_top.specs.Said.{AsksClock, AsksMachine};

use crate::checks::check_input;
use crate::command::{DeskCommand, command_of, help};
use crate::offices::play_input;
use crate::questioned::session_asked;
use crate::questions::{ask_machine, ask_world};
use crate::relayed::relay_asked;
use crate::rounded::agent_asked;
use crate::served::serve_asked;
use crate::status::Status;
use agent_text::Pocket;
use bf_machine::Machine;
use desk_base::{Bytes, Clock, Put, Sink, Source, Whole, read_all};
use desk_door::{Door, Link};
use desk_keep::Keeper;
use line_forms::lines_are_read_again;
use office_text::make;
use rel_lexer::Text;
use rel_session::{Halt, put};
use std::alloc::Global;

/// The most bytes that a source may give.
const INPUT_LIMIT: usize = 8_388_608;

/// Runs the words, without the program's name, and answers how that ended. A command that reads the source reads it whole, up to 8,388,608
/// bytes, before anything is written.
pub fn desk<S: Source, W: Sink, M: Machine, P: Pocket, K: Keeper, D: Door, L: Link, C: Clock>(
    alloc: Global,
    words: &[Text],
    source: &mut S,
    sink: &mut W,
    machine: &mut M,
    pocket: &mut P,
    keeper: &mut K,
    door: &mut D,
    link: &mut L,
    clock: &mut C,
) -> Status
    // What was done, by the status; and which status must come.
    ensures ended { Ended result words.now
        (all_devices (S.told source.old) (W.told sink.old) (M.told machine.old) (P.told pocket.old)
        (K.told keeper.old) (D.told door.old) (L.told link.old) (C.told clock.old))
        (all_devices (S.told source.new) (W.told sink.new) (M.told machine.new) (P.told pocket.new)
        (K.told keeper.new) (D.told door.new) (L.told link.new) (C.told clock.new))
        (record {
          sink = sink.new ≡ sink.old;
          machine = machine.new ≡ machine.old;
          clock = clock.new ≡ clock.old;
          door = door.new ≡ door.old;
        }) }
    ensures comes { Comes words.now (S.told source.old).left (P.told pocket.old).saved result }

    // No count of faults falls. None rises but for the fault that ended the run, the machine's, and those of conversations and of links.
    ensures counts { CountsByStatus result
        (all_devices (S.told source.old) (W.told sink.old) (M.told machine.old) (P.told pocket.old)
        (K.told keeper.old) (D.told door.old) (L.told link.old) (C.told clock.old))
        (all_devices (S.told source.new) (W.told sink.new) (M.told machine.new) (P.told pocket.new)
        (K.told keeper.new) (D.told door.new) (L.told link.new) (C.told clock.new)) }

    // Only `agent` does more with the machine than to look, and only `agent` uses the pocket. No other command than `qna` and `agent` asks
    // the machine, than these and `session` the clock, than `serve` and `session` the keeper, than `serve` and `relay` the door, than
    // `relay` and `agent` the link.
    ensures looks { ¬ AsksSome words.now IsAgents → OnlyLooks (M.told machine.old) (M.told machine.new) }
    ensures unsaved { ¬ AsksSome words.now IsAgents → pocket.new ≡ pocket.old }
    ensures unasked { ¬ AsksSome words.now AsksMachine → machine.new ≡ machine.old }
    ensures untimed { ¬ AsksSome words.now AsksClock → clock.new ≡ clock.old }
    ensures unkept { ¬ AsksSome words.now UsesKeeper → keeper.new ≡ keeper.old }
    ensures unserved { ¬ AsksSome words.now HoldsTalks → door.new ≡ door.old }
    ensures unlinked { ¬ AsksSome words.now AsksUpstream → link.new ≡ link.old }

    // The source is read at most so often, and is as it was where it isn't read.
    ensures reads { CountsAtMost (S.told source.old).reads (S.told source.new).reads (input_limit + 1) }
    ensures unread { ¬ AsksSome words.now ReadsSource → source.new ≡ source.old }
{
    let Some(command) = command_of(words) else {
        return match sink.write(b"usage: desk --help\n") {
            Put::Done => Status::Usage,
            Put::Failed => Status::Sink,
        };
    };
    match command {
        DeskCommand::Help => match put(sink, help()) {
            Ok(()) => Status::Done,
            Err(halt) => Status::of_halt(halt),
        },
        DeskCommand::Make(number) => match write_office(alloc, number, sink) {
            Ok(()) => Status::Done,
            Err(halt) => Status::of_halt(halt),
        },
        DeskCommand::Serve(asked) => serve_asked(alloc, asked, keeper, door, sink),
        DeskCommand::Relay(asked) => relay_asked(alloc, asked, door, link, sink),
        DeskCommand::Agent(asked) => {
            // Proof: so that a text that a pocket's reader refuses is none that it reads.
            lines_are_read_again();
            agent_asked(alloc, asked, machine, pocket, link, clock, sink)
        }
        DeskCommand::Qna => match read_input(alloc, source) {
            Ok(input) => ask_machine(alloc, input.as_slice(), sink, machine, clock),
            Err(status) => status,
        },
        DeskCommand::QnaWorld => match read_input(alloc, source) {
            Ok(input) => ask_world(alloc, input.as_slice(), sink),
            Err(status) => status,
        },
        DeskCommand::Check => match read_input(alloc, source) {
            Ok(input) => check_input(alloc, input.as_slice(), sink),
            Err(status) => status,
        },
        DeskCommand::Office => match read_input(alloc, source) {
            Ok(input) => play_input(alloc, input.as_slice(), sink),
            Err(status) => status,
        },
        DeskCommand::Session(asked) => match read_input(alloc, source) {
            Ok(input) => session_asked(alloc, asked, input.as_slice(), sink, keeper, clock),
            Err(status) => status,
        },
    }
}

/// Reads the whole source, or answers why it can't be read.
fn read_input<S: Source>(alloc: Global, source: &mut S) -> Result<Bytes, Status>
    ensures reads { ReadsInput (S.told source.old).left (S.told source.new).left result }
    ensures counts { CountsFaults (IsErrOf result Status.Source) (S.told source.old).faults (S.told source.new).faults }
    ensures calls { CountsAtMost (S.told source.old).reads (S.told source.new).reads (input_limit + 1) }
{
    match read_all(alloc, source, INPUT_LIMIT) {
        Whole::Read(input) => Ok(input),
        Whole::TooLong => Err(Status::InputTooLong),
        Whole::Failed => Err(Status::Source),
        Whole::Memory => Err(Status::Memory),
    }
}

/// Writes the text of an office with so many computers.
fn write_office<W: Sink>(alloc: Global, number: u32, sink: &mut W) -> Result<(), Halt>
    requires { IsCommand (DeskCommand.Make number) }
    ensures written { MatchResult result
        (λ _. Appends (W.told sink.old).held (W.told sink.new).held (office_of number))
        (λ _. AppendsSome (W.told sink.old).held (W.told sink.new).held (IsFront (office_of number))) }
    ensures counts { CountsFaults (IsErrOf result Halt.Sink) (W.told sink.old).faults (W.told sink.new).faults }
    ensures never { ¬ IsErrOf result Halt.Clock }
{
    let text = make(alloc, number)?;
    put(sink, text.as_slice())
}
