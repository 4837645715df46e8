// The line of each command and answer. The rows follow the table of `do` lines, written by hand.
use bf_machine::{Acted, Command, ProcessNo, Reason};
use desk_base::Bytes;
use rel_lexer::Text;
use std::alloc::{AllocError, Global};
use std::mem::drop;
use std::test::Fail;
use turn_lines::say_command;

/// A command, with its texts and bytes.
#[derive(Clone, Copy)]
enum Deed {
    Write(&'static str, &'static str),
    Append(&'static str, &'static str),
    Delete(&'static str),
    Copy(&'static str, &'static str),
    Move(&'static str, &'static str),
    MakeFolder(&'static str),
    DropFolder(&'static str),
    Start(&'static str, bool),
    Put(&'static str, &'static str, u32),
    Drop(&'static str, u32),
    Place(&'static str, &'static str),
}

/// A command, what it was answered, and its line.
const ROWS: [(Deed, Acted, &str); 28] = [
    (
        Deed::Write("__createfile", "mode=new\nhost=pc1\n"),
        Acted::Done,
        "do write __createfile 18\n",
    ),
    (Deed::Write("a", ""), Acted::Done, "do write a 0\n"),
    // two bytes each
    (
        Deed::Write("a", "\u{e9}\u{e9}"),
        Acted::Done,
        "do write a 4\n",
    ),
    (
        Deed::Write("no/a", "x"),
        Acted::Refused(Reason::NoSuchFolder),
        "do write no/a 1 refused NoSuchFolder\n",
    ),
    (
        Deed::Append("__appendfile", "hello\n"),
        Acted::Done,
        "do append __appendfile 6\n",
    ),
    (
        Deed::Append("/t", "hello\n"),
        Acted::Refused(Reason::AlreadyThere),
        "do append /t 6 refused AlreadyThere\n",
    ),
    (
        Deed::Delete("/etc/agentd/conf"),
        Acted::Done,
        "do delete /etc/agentd/conf\n",
    ),
    (
        Deed::Delete("/t"),
        Acted::Refused(Reason::NotAFile),
        "do delete /t refused NotAFile\n",
    ),
    // bytes as they are: one line may be two lines of output
    (
        Deed::Delete("a\nb"),
        Acted::Refused(Reason::BadPath),
        "do delete a\nb refused BadPath\n",
    ),
    (
        Deed::Delete(""),
        Acted::Refused(Reason::BadPath),
        "do delete  refused BadPath\n",
    ),
    (
        Deed::Copy("__createfile", "/etc/agentd/conf"),
        Acted::Done,
        "do copy __createfile /etc/agentd/conf\n",
    ),
    (
        Deed::Copy("__appendfile", "/etc/agentd/conf"),
        Acted::Refused(Reason::AlreadyThere),
        "do copy __appendfile /etc/agentd/conf refused AlreadyThere\n",
    ),
    (Deed::Move("a", "b"), Acted::Done, "do move a b\n"),
    (
        Deed::Move("a", "b"),
        Acted::Refused(Reason::NoSuchFile),
        "do move a b refused NoSuchFile\n",
    ),
    (Deed::MakeFolder("/t"), Acted::Done, "do make folder /t\n"),
    (
        Deed::MakeFolder("/"),
        Acted::Refused(Reason::BadPath),
        "do make folder / refused BadPath\n",
    ),
    (Deed::DropFolder("/t"), Acted::Done, "do drop folder /t\n"),
    (
        Deed::DropFolder("/t"),
        Acted::Refused(Reason::NotEmpty),
        "do drop folder /t refused NotEmpty\n",
    ),
    (
        Deed::Start("upgrade agentd", false),
        Acted::Started(ProcessNo(0)),
        "do start upgrade agentd\n",
    ),
    // as `waithidden` starts it
    (
        Deed::Start("upgrade agentd", true),
        Acted::Started(ProcessNo(1)),
        "do start upgrade agentd\n",
    ),
    (
        Deed::Start("", false),
        Acted::Refused(Reason::NotStarted),
        "do start  refused NotStarted\n",
    ),
    (
        Deed::Put("color", "red", 5),
        Acted::Done,
        "do put color 5 red\n",
    ),
    (Deed::Put("", "", 5), Acted::Done, "do put  5 \n"),
    (
        Deed::Put("color", "", 1173053048),
        Acted::Done,
        "do put color 1173053048 \n",
    ),
    (Deed::Drop("color", 5), Acted::Done, "do drop color 5\n"),
    (Deed::Drop("", 0), Acted::Done, "do drop  0\n"),
    (Deed::Place("p", "abc"), Acted::Done, "do place p 3\n"),
    (
        Deed::Place("..", "abc"),
        Acted::Refused(Reason::BadPath),
        "do place .. 3 refused BadPath\n",
    ),
];

fn copied(alloc: Global, text: &str) -> Result<Text, AllocError> {
    Text::from_str(alloc, text)
}

fn bytes(alloc: Global, text: &str) -> Result<Bytes, AllocError> {
    Bytes::from_slice(alloc, text.as_bytes())
}

/// The command of a row.
fn command(alloc: Global, deed: Deed) -> Result<Command, AllocError> {
    Ok(match deed {
        Deed::Write(path, content) => Command::Write(copied(alloc, path)?, bytes(alloc, content)?),
        Deed::Append(path, content) => Command::Append(
            copied(alloc, path)?,
            bytes(alloc, content)?,
        ),
        Deed::Delete(path) => Command::Delete(copied(alloc, path)?),
        Deed::Copy(from, to) => Command::Copy(copied(alloc, from)?, copied(alloc, to)?),
        Deed::Move(from, to) => Command::Move(copied(alloc, from)?, copied(alloc, to)?),
        Deed::MakeFolder(path) => Command::MakeFolder(copied(alloc, path)?),
        Deed::DropFolder(path) => Command::DropFolder(copied(alloc, path)?),
        Deed::Start(line, hidden) => Command::Start {
            line: copied(alloc, line)?,
            hidden,
        },
        Deed::Put(name, value, date) => Command::Put {
            name: copied(alloc, name)?,
            value: copied(alloc, value)?,
            date: i64::from(date),
        },
        Deed::Drop(name, date) => Command::Drop {
            name: copied(alloc, name)?,
            date: i64::from(date),
        },
        Deed::Place(name, content) => Command::Place(copied(alloc, name)?, bytes(alloc, content)?),
    })
}

/// The line of a row.
fn line(alloc: Global, deed: Deed, answer: Acted) -> Result<Bytes, AllocError> {
    let command = command(alloc, deed)?;
    let mut out = Bytes::new(alloc);
    let said = say_command(&command, answer, &mut out);
    drop(command);
    said?;
    Ok(out)
}

#[test]
fn each_command_has_its_line(rt: HostRuntime) -> Result<(), Fail> {
    let alloc = rt.alloc();
    for (deed, answer, wanted) in ROWS {
        let said = line(alloc, deed, answer)?;
        assert_eq!(rt;
            str::from_utf8(said.as_slice()).ok().ok_or("no text")?,
            wanted
        );
    }
    Ok(())
}
