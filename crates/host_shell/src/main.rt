//! A shell over the machine at hand, for rows that no question can ask: a look or a command on each line of standard input, and what it
//! answers on standard output.
#![tactic(auto)]

mod command;
mod look;

use bf_machine::Machine;
use desk_base::Bytes;
use host_edge::HostMachine;
use std::io;

/// Obeys a line.
fn obey<M: Machine>(rt: &HostRuntime, machine: &mut M, line: &str) -> io::Result<()> {
    let (word, rest) = match line.split_once(' ') {
        Some((word, rest)) => (word, rest),
        None => (line, ""),
    };
    let mut words = Bytes::new(rt.alloc());
    if look::look(rt.alloc(), machine, word, rest, &mut words).is_some() {
        let Ok(text) = str::from_utf8(words.as_slice()) else {
            return println!(rt; "no text");
        };
        return println!(rt; "{text}");
    }
    match command::act(rt.alloc(), machine, word, rest) {
        Some(answer) => println!(rt; "{answer}"),
        None => println!(rt; "no command"),
    }
}

fn main(rt: HostRuntime) -> io::Result<()> {
    let mut machine = HostMachine::new(rt.alloc(), &rt)?;
    for line in rt.lines(rt.alloc()) {
        let line = line?;
        obey(&rt, &mut machine, line.as_str())?;
    }
    Ok(())
}
