// What no command shows: copies, the names of reasons, and the paths of parts. The names are those of the formats, and the
// rest is what stands here.
use bf_world::{Answer, Command, Key, PackageList, PackageRow, Reason, World, joined};
use desk_base::Bytes;
use rel_lexer::Text;
use std::alloc::Global;
use std::mem::drop;
use world_text::read_world;

fn text(alloc: Global, text: &str) -> Option<Text> {
    Text::from_str(alloc, text).ok()
}

#[test]
fn reasons_have_their_names(rt: HostRuntime) {
    assert_eq!(rt; Reason::NoSuchFile.name(), "NoSuchFile");
    assert_eq!(rt; Reason::AlreadyThere.name(), "AlreadyThere");
    assert_eq!(rt; Reason::NoSuchFolder.name(), "NoSuchFolder");
    assert_eq!(rt; Reason::NotEmpty.name(), "NotEmpty");
    assert_eq!(rt; Reason::NotStarted.name(), "NotStarted");
    assert_eq!(rt; Reason::BadPath.name(), "BadPath");
    assert_eq!(rt; Reason::NotAFile.name(), "NotAFile");
}

/// Appends the path of what has a name in a folder, in brackets.
fn write_joined(alloc: Global, folder: &str, name: &str, words: &mut String) -> Option<()> {
    let path = joined(alloc, folder, name).ok()?;
    words.push_str("[").ok()?;
    words.push_str(path.as_str()).ok()?;
    words.push_str("]").ok()
}

/// Appends the paths of `b` in four folders.
fn write_paths(alloc: Global, words: &mut String) -> Option<()> {
    write_joined(alloc, "/", "b", words)?;
    write_joined(alloc, "/a", "b", words)?;
    write_joined(alloc, "a/", "b", words)?;
    write_joined(alloc, "", "b", words)
}

#[test]
fn one_slash_stands_before_a_name(rt: HostRuntime) {
    let alloc = rt.alloc();
    let mut words = String::new(alloc);
    assert!(rt; write_paths(alloc, &mut words).is_some());
    assert_eq!(rt; words.as_str(), "[/b][/a/b][a/b][/b]");
}

/// Appends the path of a copied key.
fn write_key(alloc: Global, words: &mut String) -> Option<()> {
    let key = Key::Read(text(alloc, "/a")?).copy().ok()?;
    match &key {
        Key::Read(path) => words.push_str(path.as_str()).ok(),
        _ => None,
    }
}

/// Appends the name in a copied command.
fn write_command(alloc: Global, words: &mut String) -> Option<()> {
    let content = Bytes::from_slice(alloc, b"x").ok()?;
    let command = Command::Place(text(alloc, " p")?, content).copy().ok()?;
    match &command {
        Command::Place(name, _) => words.push_str(name.as_str()).ok(),
        _ => None,
    }
}

/// The packages of one row.
fn packages(alloc: Global) -> Option<PackageList> {
    let mut packages = PackageList::from_vec(Vec::new(alloc));
    let row = PackageRow {
        name: text(alloc, "agentd")?,
        version: text(alloc, " 1.2")?,
    };
    packages.push(row).ok()?;
    Some(packages)
}

/// Appends the version in a copied answer.
fn write_answer(alloc: Global, words: &mut String) -> Option<()> {
    let answer = Answer::Packages(packages(alloc)?).copy().ok()?;
    match &answer {
        Answer::Packages(packages) => {
            let row = packages.as_slice().first()?;
            words.push_str(row.version.as_str()).ok()
        }
        _ => None,
    }
}

#[test]
fn keys_commands_and_answers_are_copied(rt: HostRuntime) {
    let alloc = rt.alloc();
    let mut words = String::new(alloc);
    assert!(rt; write_key(alloc, &mut words).is_some());
    assert!(rt; write_command(alloc, &mut words).is_some());
    assert!(rt; write_answer(alloc, &mut words).is_some());
    assert_eq!(rt; words.as_str(), "/a p 1.2");
}

/// Appends the content of the file at a path.
fn write_content(alloc: Global, world: &World, path: &str, words: &mut String) -> Option<()> {
    let key = Key::Read(text(alloc, path)?);
    let answer = world.look(&key).ok()?;
    let pushed = push_content(&answer, words);
    drop(answer);
    pushed
}

fn push_content(answer: &Answer, words: &mut String) -> Option<()> {
    let Answer::Content(content) = answer else {
        return None;
    };
    for byte in content.as_slice() {
        words.push(char::from(*byte)).ok()?;
    }
    Some(())
}

const WORLD: &[u8] = b"world
name pc1
system 12.4 Debian
offset -480
moment 1000
folder /a
file 200 /a/one
| x=1
package 1.2 agentd
process sh
setting 7 s v
program 2 3 up
end
";

/// Whether a world has that moment, folder, package, process, setting and program; its name and its file are appended.
fn is_told(alloc: Global, world: &World, words: &mut String) -> Option<bool> {
    words.push_str(world.name().as_str()).ok()?;
    write_content(alloc, world, "/a/one", words)?;
    Some(
        world.moment() == 1000
            && world.is_folder("/a")
            && world.has_package("agentd")
            && world.has_process("sh")
            && world.has_setting("s")
            && world.has_program("up"),
    )
}

/// The same of a copy of a world.
fn is_copy_told(alloc: Global, world: &World, words: &mut String) -> Option<bool> {
    let Ok(copy) = world.copy() else {
        return None;
    };
    let told = is_told(alloc, &copy, words);
    drop(copy);
    told
}

/// The same of a copy of that world.
fn is_copied(alloc: Global, words: &mut String) -> Option<bool> {
    let Ok(world) = read_world(alloc, WORLD) else {
        return None;
    };
    let told = is_copy_told(alloc, &world, words);
    drop(world);
    told
}

#[test]
fn a_copy_of_a_world_has_all_of_it(rt: HostRuntime) {
    let alloc = rt.alloc();
    let mut words = String::new(alloc);
    assert_eq!(rt; is_copied(alloc, &mut words), Some(true));
    assert_eq!(rt; words.as_str(), "pc1x=1\n");
}
