ghost use Rattle.std.specs.Prelude.{◌≡◌, IsErrOf, MatchResult};
ghost use Rattle.rel_session.specs.Lines.{lines_of};
ghost use Rattle.session_view.specs.Asking.{DidFrontOverTables, DidOverTables, OnlyAsksTables, RanOver, table_devices};

use crate::SessionReader;
use bf_machine::{Key, Unseen};
use desk_base::{Clock, Sink};
use desk_keep::Keeper;
use rel_session::{Asking, Halt, answer_lines};
use session_tables::SessionMachine;
use std::alloc::Global;

/// Answers each line of the input over the tables of a keeper: a question, at a moment of the clock and at offset 0, or a command that
/// begins with `:`. What is said of a line is written when it is complete, or in pieces of some tens of kilobytes.
pub fn answer_over_tables<W: Sink, K: Keeper, C: Clock>(
    alloc: Global,
    input: &[u8],
    sink: &mut W,
    keeper: &mut K,
    clock: &mut C,
) -> Result<(), Halt>
    ensures ran { let old = table_devices (W.told sink.old) (K.told keeper.old) (C.told clock.old) in
        let new = table_devices (W.told sink.new) (K.told keeper.new) (C.told clock.new) in
        MatchResult result (λ _. DidOverTables (lines_of input.now) old new) (λ _. DidFrontOverTables (lines_of input.now) old new) }
    ensures only { OnlyAsksTables (IsErrOf result Halt.Sink) (IsErrOf result Halt.Clock)
        (table_devices (W.told sink.old) (K.told keeper.old) (C.told clock.old))
        (table_devices (W.told sink.new) (K.told keeper.new) (C.told clock.new)) }
{
    let mut looked = Unseen::new();
    answer_looking(alloc, input, sink, keeper, &mut looked, clock)
}

/// The same, where these keys were looked up before, which only clauses see.
fn answer_looking<W: Sink, K: Keeper, C: Clock>(
    alloc: Global,
    input: &[u8],
    sink: &mut W,
    keeper: &mut K,
    looked: &mut Unseen<Key>,
    clock: &mut C,
) -> Result<(), Halt>
    ensures ran { RanOver result (lines_of input.now)
        (table_devices (W.told sink.old) (K.told keeper.old) (C.told clock.old)) looked.old
        (table_devices (W.told sink.new) (K.told keeper.new) (C.told clock.new)) looked.new }
    ensures only { OnlyAsksTables (IsErrOf result Halt.Sink) (IsErrOf result Halt.Clock)
        (table_devices (W.told sink.old) (K.told keeper.old) (C.told clock.old))
        (table_devices (W.told sink.new) (K.told keeper.new) (C.told clock.new)) }
{
    let mut machine = SessionMachine {
        alloc,
        keeper,
        looked,
    };
    answer_by(alloc, input, sink, &mut machine, clock)
}

/// The same by the machine of the tables, which borrows the same afterwards.
fn answer_by<W: Sink, K: Keeper, C: Clock>(
    alloc: Global,
    input: &[u8],
    sink: &mut W,
    machine: &mut SessionMachine<'_, K>,
    clock: &mut C,
) -> Result<(), Halt>
    ensures ran { RanOver result (lines_of input.now)
        (table_devices (W.told sink.old) (K.told machine.old.keeper.now) (C.told clock.old)) machine.old.looked.now
        (table_devices (W.told sink.new) (K.told machine.new.keeper.now) (C.told clock.new)) machine.new.looked.now }
    ensures only { OnlyAsksTables (IsErrOf result Halt.Sink) (IsErrOf result Halt.Clock)
        (table_devices (W.told sink.old) (K.told machine.old.keeper.now) (C.told clock.old))
        (table_devices (W.told sink.new) (K.told machine.new.keeper.now) (C.told clock.new)) }
    ensures same_keeper { machine.new.keeper.ghost_name ≡ machine.old.keeper.ghost_name }
    ensures same_looked { machine.new.looked.ghost_name ≡ machine.old.looked.ghost_name }
{
    let asking = Asking {
        offset: 0,
        moment: None,
    };
    answer_lines::<SessionReader, W, SessionMachine<'_, K>, C>(
        alloc, input, asking, sink, machine, clock,
    )
}
