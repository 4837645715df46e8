// The machine at hand, in fresh folders.
use crate::{commands, looks, programs};
use bf_machine::Machine;
use host_edge::HostMachine;
use rel_lexer::Text;
use std::fs;
use std::mem::drop;

/// What is tried.
#[derive(Clone, Copy)]
enum Tried {
    Commands,
    Looks,
    Files,
    Programs,
    Processes,
}

/// Makes a fresh folder for the test of this name.
pub(crate) fn fresh_folder(rt: &HostRuntime, name: &str) -> Option<String> {
    let number = std::process::id(rt.process());
    let folder = format!(in rt.alloc(); "/tmp/host_tests-{number}-{name}").ok()?;
    fs::create_dir(rt, folder.as_str()).ok()?;
    Some(folder)
}

/// How many rows are as they say, on a machine that works in this folder.
fn right_rows<M: Machine>(
    rt: &HostRuntime,
    machine: &mut M,
    folder: &str,
    tried: Tried,
) -> Option<usize> {
    let work = Text::from_str(rt.alloc(), folder).ok()?;
    machine.open(&work).ok()?;
    match tried {
        Tried::Commands => commands::right_rows(rt, machine, folder),
        Tried::Looks => looks::right_rows(rt, machine, folder),
        Tried::Files => looks::right_files(rt, machine, folder),
        Tried::Programs => programs::right_rows(rt, machine),
        Tried::Processes => Some(usize::from(looks::shows_a_process(rt, machine)?)),
    }
}

/// The same of the machine at hand, in a fresh folder.
fn right_at_hand(rt: &HostRuntime, name: &str, tried: Tried) -> Option<usize> {
    let folder = fresh_folder(rt, name)?;
    let mut machine = HostMachine::new(rt.alloc(), rt).ok()?;
    let right = right_rows(rt, &mut machine, folder.as_str(), tried);
    drop(machine);
    fs::remove_dir_all(rt, folder.as_str()).ok()?;
    right
}

#[test]
fn commands_are_done_or_refused(rt: HostRuntime) {
    assert_eq!(rt;
        right_at_hand(&rt, "commands", Tried::Commands),
        Some(commands::ALL)
    );
}

#[test]
fn files_and_folders_are_shown(rt: HostRuntime) {
    assert_eq!(rt; right_at_hand(&rt, "looks", Tried::Looks), Some(looks::ALL));
}

#[test]
fn the_files_of_the_work_folder_are_read(rt: HostRuntime) {
    assert_eq!(rt;
        right_at_hand(&rt, "files", Tried::Files),
        Some(looks::ALL_FILES)
    );
}

#[test]
fn programs_end_by_their_exit_codes(rt: HostRuntime) {
    assert_eq!(rt;
        right_at_hand(&rt, "programs", Tried::Programs),
        Some(programs::ALL)
    );
}

#[test]
fn processes_are_shown(rt: HostRuntime) {
    assert_eq!(rt; right_at_hand(&rt, "processes", Tried::Processes), Some(1));
}
