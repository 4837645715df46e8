// Turns with files between them, and the lines of what was done. Each function owns one dear thing at most, which it drops once.
ghost use Rattle.std.specs.Prelude.{◌≡◌, ℕ, IfSome};
ghost use Rattle.agent_core.specs.Agents.{shown_state};
ghost use Rattle.agent_core.specs.Stops.{HeldWaitsBelow};
ghost use Rattle.fix_site.specs.Sites.{IsSite};

use agent_core::{Agent, Gathered, Opened, Turned};
use agent_text::SurePocket;
use bf_machine::{Acted, Command, SureMachine, Unseen, World, read_world};
use desk_base::Bytes;
use fix_site::{Site, read_site};
use line_forms::{read_name, write_digest};
use rel_lexer::Text;
use sha2::{Digest, Sha256};
use std::alloc::{AllocError, Global};
use std::mem::drop;
use std::test::Fail;
use turn_lines::{
    FileAsked, Given, Giver, TurnTime, say_again, say_command, say_turn, turn_with_files,
};

/// A world with an agent's configuration and a program that upgrades it.
const WORLD: &str = "world
name pc1
system 12.4 Debian
offset 60
moment 1000
folder /etc
folder /etc/agentd
file 500 /etc/agentd/conf
| mode=old
package 1.1 agentd
program 1 0 upgrade agentd
gives 1.2 agentd
end
";

/// A fixlet that fetches the file `abc` twice.
const SITE: &str = "site desk 1
fixlet 1
title Fetches
success lines
| prefetch p sha1:a9993e364706816aba3e25717850c26c9cd0d89d size:3 http://host/p sha256:ba7816bf8f01cfea414140de5dae2223b00361a396177a9cb410ff61f20015ad
| prefetch q sha1:a9993e364706816aba3e25717850c26c9cd0d89d size:3 http://host/q sha256:ba7816bf8f01cfea414140de5dae2223b00361a396177a9cb410ff61f20015ad
end
";

/// Its action, open to all at any time.
const ACTION: &str = "site actionsite 1
action 7
issued 900
content desk 1
members stop
target all
start none
until none
hours none
days 1111111
retries 1 60
reapply never
state open
end
";

/// What comes for a file.
#[derive(Clone, Copy)]
enum Brings {
    Abc,
    NotServed,
    NotGot,
    Memory,
}

/// What comes for each file that is asked for, in turn, and the lines that are written then.
const ROWS: [(&[Brings], &str); 6] = [
    (
        &[Brings::Abc, Brings::Abc],
        "do place p 3\ndo place q 3\nturn pc1 1000: began 7, fixed\n",
    ),
    (
        &[Brings::Abc, Brings::NotServed],
        "do place p 3\nturn pc1 1000: began 7, failed at line 2 cause 47 ba7816bf8f01cfea414140de5dae2223b00361a396177a9cb410ff61f20015ad\n",
    ),
    (
        &[Brings::NotServed, Brings::Abc],
        "turn pc1 1000: began 7, failed at line 1 cause 47 ba7816bf8f01cfea414140de5dae2223b00361a396177a9cb410ff61f20015ad\n",
    ),
    (
        &[Brings::NotGot, Brings::Abc],
        "turn pc1 1000: began 7, wants ba7816bf8f01cfea414140de5dae2223b00361a396177a9cb410ff61f20015ad\n",
    ),
    (
        &[Brings::Abc, Brings::NotGot],
        "do place p 3\nturn pc1 1000: began 7, wants ba7816bf8f01cfea414140de5dae2223b00361a396177a9cb410ff61f20015ad\n",
    ),
    (&[Brings::Memory], ""),
];

/// A giver of these files, in turn.
#[derive(Drop)]
struct Shelf {
    alloc: Global,
    left: &'static [Brings],
    asked: Unseen<FileAsked>,
}

impl Shelf {
    /// The next file, if there is memory for it.
    fn next(&mut self) -> Given
        ensures { self.new.asked ≡ self.old.asked }
    {
        let Some((first, left)) = self.left.split_first() else {
            return Given::NotGot;
        };
        self.left = left;
        match first {
            Brings::Abc => match Bytes::from_slice(self.alloc, b"abc") {
                Ok(bytes) => Given::File(bytes),
                Err(_) => Given::Memory,
            },
            Brings::NotServed => Given::NotServed,
            Brings::NotGot => Given::NotGot,
            Brings::Memory => Given::Memory,
        }
    }
}

impl Giver for Shelf {
    ghost use Rattle.std.specs.Prelude.{[], ⊤};

    ghost Source = { Unit {0} };

    ghost told = { λ shelf. record { asked = shelf.asked; source = tt } };

    ghost gives = { λ old digest answer new. ⊤ };

    ghost holds = { λ shelf. [] };

    fn give(&mut self, digest: &[u8; 32]) -> Given {
        let asked = FileAsked {
            digest: *digest,
            answer: self.next(),
        };
        self.asked.push(&asked);
        asked.answer
    }
}

/// The site of this text, whose digest is made.
fn site(alloc: Global, text: &str) -> Option<Site>
    ensures { IfSome result IsSite }
{
    let mut sealed = Bytes::from_slice(alloc, text.as_bytes()).ok()?;
    let digest = Sha256::digest(text.as_bytes());
    sealed.extend(b"digest ").ok()?;
    write_digest(&digest, &mut sealed).ok()?;
    sealed.push(b'\n').ok()?;
    match read_site(alloc, sealed.as_slice()) {
        Ok(site) => Some(site),
        Err(_) => None,
    }
}

/// Gathers the site of this text.
fn gather(alloc: Global, agent: &mut Agent, text: &str) -> Option<()>
    ensures waits { (started : ℕ) → HeldWaitsBelow started (shown_state agent.old).held
        → HeldWaitsBelow started (shown_state agent.new).held }
{
    let site = site(alloc, text)?;
    let gathered = agent.gather(alloc, &site);
    drop(site);
    match gathered {
        Gathered::New => Some(()),
        _ => None,
    }
}

/// An agent that has gathered nothing yet.
fn opened(alloc: Global, pocket: &mut SurePocket) -> Option<Agent>
    ensures { IfSome result (λ agent. (started : ℕ) → HeldWaitsBelow started (shown_state agent).held) }
{
    let name = Text::from_str(alloc, read_name(b"pc1")?).ok()?;
    match Agent::open(alloc, &name, pocket) {
        Opened::Agent(agent) => Some(agent),
        _ => None,
    }
}

/// Turns of an agent that has gathered both sites.
fn turns(
    alloc: Global,
    machine: &mut SureMachine,
    pocket: &mut SurePocket,
    shelf: &mut Shelf,
) -> Option<Turned> {
    let mut agent = opened(alloc, pocket)?;
    gather(alloc, &mut agent, SITE)?;
    gather(alloc, &mut agent, ACTION)?;
    let time = TurnTime {
        moment: 1000,
        offset: 60,
    };
    let turned = turn_with_files(alloc, &mut agent, machine, pocket, shelf, time);
    drop(agent);
    Some(turned)
}

/// The lines of what was done.
fn deeds(machine: &SureMachine, out: &mut Bytes) -> Result<(), AllocError> {
    for command in machine.acted() {
        say_command(command, Acted::Done, out)?;
    }
    Ok(())
}

/// The lines of turns with these files.
fn lines(alloc: Global, brings: &'static [Brings], out: &mut Bytes) -> Option<()> {
    let world = read_world(alloc, WORLD.as_bytes()).ok()?;
    let mut machine = SureMachine::new(alloc, world);
    let mut pocket = SurePocket::new(alloc);
    let mut shelf = Shelf {
        alloc,
        left: brings,
        asked: Unseen::new(),
    };
    let turned = turns(alloc, &mut machine, &mut pocket, &mut shelf)?;
    let said = deeds(&machine, out);
    drop(machine);
    said.ok()?;
    let computer = Text::from_str(alloc, "pc1").ok()?;
    say_turn(&computer, 1000, &turned, out).ok()
}

#[test]
fn turns_have_the_files_that_they_want(rt: HostRuntime) -> Result<(), Fail> {
    let alloc = rt.alloc();
    for (brings, wanted) in ROWS {
        let mut out = Bytes::new(alloc);
        lines(alloc, brings, &mut out).ok_or("no lines")?;
        assert_eq!(rt;
            str::from_utf8(out.as_slice()).ok().ok_or("no text")?,
            wanted
        );
    }
    Ok(())
}

/// Does three commands again on a world.
fn done_again(alloc: Global, world: &mut World, out: &mut Bytes) -> Result<(), AllocError> {
    let folder = Text::from_str(alloc, "/t")?;
    let appended = Text::from_str(alloc, "__appendfile")?;
    let content = Bytes::from_slice(alloc, b"hello\n")?;
    let from = appended.copy()?;
    let to = Text::from_str(alloc, "/etc/agentd/conf")?;
    let commands = [
        Command::MakeFolder(folder),
        Command::Append(appended, content),
        Command::Copy(from, to),
    ];
    let said = say_again(world, &commands, 1000, out);
    drop(commands);
    said
}

#[test]
fn commands_are_done_again_for_their_lines(rt: HostRuntime) -> Result<(), Fail> {
    let alloc = rt.alloc();
    let mut world = read_world(alloc, WORLD.as_bytes()).ok().ok_or("no world")?;
    let mut out = Bytes::new(alloc);
    let said = done_again(alloc, &mut world, &mut out);
    drop(world);
    said?;
    assert_eq!(rt;
        str::from_utf8(out.as_slice()).ok().ok_or("no text")?,
        "do make folder /t\ndo append __appendfile 6\ndo copy __appendfile /etc/agentd/conf refused AlreadyThere\n"
    );
    Ok(())
}
