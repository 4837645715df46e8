// The rows of scripts: what they answer, do and look up. Commands stand before looks.
use crate::played::{long_is_done, machine, played};
use crate::said::answer;
use rel_lexer::Text;
use script_run::{Cause, Ran};
use std::alloc::Global;
use std::mem::drop;

/// A script with its steps, and the numbers of the looks, acts and polls that fail.
#[derive(Clone, Copy)]
struct Row {
    script: &'static str,
    steps: &'static str,
    looks: &'static [u32],
    acts: &'static [u32],
    polls: &'static [u32],
    wanted: &'static str,
}

const ROWS: [Row; 48] = [
    Row {
        script: "delete /x",
        steps: "a",
        looks: &[],
        acts: &[],
        polls: &[],
        wanted: "done delete /x ; | exit none",
    },
    Row {
        script: "delete __createfile\ncreatefile until EOF\nmode=new\nhost={computer name}\nEOF\ndelete /etc/agentd/conf\ncopy \"__createfile\" \"/etc/agentd/conf\"\nwait upgrade agentd\ncontinue if {exit code of action = 0}",
        steps: "aa",
        looks: &[],
        acts: &[],
        polls: &[],
        wanted: "held 8 delete __createfile ; __createfile = 109 111 100 101 61 110 101 119 10 104 111 115 116 61 112 99 49 10 ; delete /etc/agentd/conf ; copy __createfile /etc/agentd/conf ; start upgrade agentd ; name | done | exit 0",
    },
    Row {
        script: "folder create /t\nappendfile hello\ncopy \"__appendfile\" \"/etc/agentd/conf\"",
        steps: "ara",
        looks: &[],
        acts: &[],
        polls: &[],
        wanted: "failed 3 42 AlreadyThere make /t ; __appendfile = 104 101 108 108 111 10 ; copy __appendfile /etc/agentd/conf ; | failed 3 42 AlreadyThere make /t ; __appendfile = 104 101 108 108 111 10 ; copy __appendfile /etc/agentd/conf ; | exit none",
    },
    Row {
        script: "prefetch p sha1:DA39A3EE5E6B4B0D3255BFEF95601890AFD80709 size:3 http://host/p sha256:ba7816bf8f01cfea414140de5dae2223b00361a396177a9cb410ff61f20015ad",
        steps: "asa",
        looks: &[],
        acts: &[],
        polls: &[],
        wanted: "wants 1 ba7816bf8f01cfea414140de5dae2223b00361a396177a9cb410ff61f20015ad | taken failed 1 46 da39a3ee5e6b4b0d3255bfef95601890afd80709 a9993e364706816aba3e25717850c26c9cd0d89d | exit none",
    },
    Row {
        script: "prefetch p sha1:a9993e364706816aba3e25717850c26c9cd0d89d size:3 http://host/p sha256:ba7816bf8f01cfea414140de5dae2223b00361a396177a9cb410ff61f20015ad",
        steps: "saxsas",
        looks: &[],
        acts: &[],
        polls: &[],
        wanted: "not wanted wants 1 ba7816bf8f01cfea414140de5dae2223b00361a396177a9cb410ff61f20015ad | not wanted taken done p = 97 98 99 ; | not wanted exit none",
    },
    Row {
        script: "prefetch p sha1:a9993e364706816aba3e25717850c26c9cd0d89d size:4 http://host/p sha256:ba7816bf8f01cfea414140de5dae2223b00361a396177a9cb410ff61f20015ad",
        steps: "asa",
        looks: &[],
        acts: &[],
        polls: &[],
        wanted: "wants 1 ba7816bf8f01cfea414140de5dae2223b00361a396177a9cb410ff61f20015ad | taken failed 1 45 4 3 | exit none",
    },
    Row {
        script: "prefetch p sha1:a9993e364706816aba3e25717850c26c9cd0d89d size:3 http://host/p sha256:ba7816bf8f01cfea414140de5dae2223b00361a396177a9cb410ff61f20015ad",
        steps: "aana",
        looks: &[],
        acts: &[],
        polls: &[],
        wanted: "wants 1 ba7816bf8f01cfea414140de5dae2223b00361a396177a9cb410ff61f20015ad | wants 1 ba7816bf8f01cfea414140de5dae2223b00361a396177a9cb410ff61f20015ad | taken failed 1 47 ba7816bf8f01cfea414140de5dae2223b00361a396177a9cb410ff61f20015ad | exit none",
    },
    Row {
        script: "if {false}\nprefetch p sha1:a9993e364706816aba3e25717850c26c9cd0d89d size:3 http://host/p sha256:ba7816bf8f01cfea414140de5dae2223b00361a396177a9cb410ff61f20015ad\nendif\nprefetch q sha1:a9993e364706816aba3e25717850c26c9cd0d89d size:3 http://host/p sha256:ba7816bf8f01cfea414140de5dae2223b00361a396177a9cb410ff61f20015ad",
        steps: "asasa",
        looks: &[],
        acts: &[],
        polls: &[],
        wanted: "wants 2 ba7816bf8f01cfea414140de5dae2223b00361a396177a9cb410ff61f20015ad | taken wants 4 ba7816bf8f01cfea414140de5dae2223b00361a396177a9cb410ff61f20015ad p = 97 98 99 ; | taken done q = 97 98 99 ; | exit none",
    },
    Row {
        script: "prefetch p sha1:a9993e364706816aba3e25717850c26c9cd0d89d size:3 http://host/p sha256:ba7816bf8f01cfea414140de5dae2223b00361a396177a9cb410ff61f20015ad\nprefetch q sha1:a9993e364706816aba3e25717850c26c9cd0d89d size:3 http://host/p sha256:ba7816bf8f01cfea414140de5dae2223b00361a396177a9cb410ff61f20015ad",
        steps: "asana",
        looks: &[],
        acts: &[],
        polls: &[],
        wanted: "wants 1 ba7816bf8f01cfea414140de5dae2223b00361a396177a9cb410ff61f20015ad | taken wants 2 ba7816bf8f01cfea414140de5dae2223b00361a396177a9cb410ff61f20015ad p = 97 98 99 ; | taken failed 2 47 ba7816bf8f01cfea414140de5dae2223b00361a396177a9cb410ff61f20015ad | exit none",
    },
    Row {
        script: "prefetch .. sha1:a9993e364706816aba3e25717850c26c9cd0d89d size:3 http://host/p sha256:ba7816bf8f01cfea414140de5dae2223b00361a396177a9cb410ff61f20015ad",
        steps: "asa",
        looks: &[],
        acts: &[],
        polls: &[],
        wanted: "wants 1 ba7816bf8f01cfea414140de5dae2223b00361a396177a9cb410ff61f20015ad | taken failed 1 42 BadPath .. = 97 98 99 ; | exit none",
    },
    Row {
        script: "createfile until E\na{1}\nb{1/0}\nc{computer name}\nE",
        steps: "a",
        looks: &[],
        acts: &[],
        polls: &[],
        wanted: "failed 1 40 8 1..2 | exit none",
    },
    Row {
        script: "if {false}\ndelete /x\nelseif {1/0 = 1}\ndelete /y\nendif",
        steps: "aa",
        looks: &[],
        acts: &[],
        polls: &[],
        wanted: "failed 3 40 8 1..2 | failed 3 40 8 1..2 | exit none",
    },
    Row {
        script: "parameter \"action issue date\" = \"{1/0}\"",
        steps: "a",
        looks: &[],
        acts: &[],
        polls: &[],
        wanted: "failed 1 40 8 1..2 | exit none",
    },
    Row {
        script: "parameter \"action issue date\" = \"x\"",
        steps: "a",
        looks: &[],
        acts: &[],
        polls: &[],
        wanted: "failed 1 44 | exit none",
    },
    Row {
        script: "parameter \"Action issue date\" = \"x\"\nparameter \"a\" = \"1\"\nparameter \"a\" = \"2\"",
        steps: "a",
        looks: &[],
        acts: &[],
        polls: &[],
        wanted: "failed 3 44 | exit none",
    },
    Row {
        script: "parameter \"p\" = \"x{1 + 1}\"\ndelete /{parameter \"p\" of action}{{",
        steps: "a",
        looks: &[],
        acts: &[],
        polls: &[],
        wanted: "done delete /x2{ ; | exit none",
    },
    Row {
        script: "delete {(1;2)}",
        steps: "a",
        looks: &[],
        acts: &[],
        polls: &[],
        wanted: "failed 1 40 13 0..5 | exit none",
    },
    Row {
        script: "continue if {1}",
        steps: "a",
        looks: &[],
        acts: &[],
        polls: &[],
        wanted: "failed 1 40 14 0..1 | exit none",
    },
    Row {
        script: "delete {}",
        steps: "a",
        looks: &[],
        acts: &[],
        polls: &[],
        wanted: "failed 1 40 6 0..0 | exit none",
    },
    Row {
        script: "continue if {false}\ndelete /x",
        steps: "a",
        looks: &[],
        acts: &[],
        polls: &[],
        wanted: "failed 1 41 | exit none",
    },
    Row {
        script: "setting \"a\"=\"b\" on \"x\" for client",
        steps: "a",
        looks: &[],
        acts: &[],
        polls: &[],
        wanted: "failed 1 48 | exit none",
    },
    Row {
        script: "wait {\"\"}",
        steps: "a",
        looks: &[],
        acts: &[],
        polls: &[],
        wanted: "failed 1 42 NotStarted start  ; | exit none",
    },
    Row {
        script: "setting \"\"=\"\" on \"Sun, 04 Mar 2007 16:04:08 -0800\" for client\nsetting delete \"a\" on \"Sun, 04 Mar 2007 16:04:08 -0800\" for client",
        steps: "a",
        looks: &[],
        acts: &[],
        polls: &[],
        wanted: "done put   1173053048 ; unset a 1173053048 ; | exit none",
    },
    Row {
        script: "delete /{name of file \"/a/one\"}",
        steps: "aa",
        looks: &[1],
        acts: &[],
        polls: &[],
        wanted: "failed 1 43 | failed 1 43 | exit none",
    },
    Row {
        script: "delete /x\ndelete /y",
        steps: "aa",
        looks: &[],
        acts: &[2],
        polls: &[],
        wanted: "failed 2 43 delete /x ; | failed 2 43 | exit none",
    },
    Row {
        script: "pause while {exists file \"/a/one\"}\ndelete /x",
        steps: "aada",
        looks: &[],
        acts: &[],
        polls: &[],
        wanted: "held 1 stat /a/one | held 1 stat /a/one | done delete /x ; stat /a/one | exit none",
    },
    Row {
        script: "wait slow\ncontinue if {exit code of action = 3}\nwaithidden quick",
        steps: "aaa",
        looks: &[],
        acts: &[],
        polls: &[],
        wanted: "held 1 start slow ; | held 1 | done hidden quick ; | exit 0",
    },
    Row {
        script: "run slow\nrunhidden quick",
        steps: "a",
        looks: &[],
        acts: &[],
        polls: &[],
        wanted: "done start slow ; hidden quick ; | exit none",
    },
    Row {
        script: "wait slow",
        steps: "aa",
        looks: &[],
        acts: &[],
        polls: &[1],
        wanted: "failed 1 43 start slow ; | failed 1 43 | exit none",
    },
    Row {
        script: "if {false}\ndelete /x\nelseif {true}\nif {false}\ndelete /u\nelse\ndelete /v\nendif\ndelete /y\nelse\ndelete /z\nendif\ndelete /w",
        steps: "a",
        looks: &[],
        acts: &[],
        polls: &[],
        wanted: "done delete /v ; delete /y ; delete /w ; | exit none",
    },
    Row {
        script: "move \"/a/one\" \"/a/two\"\nfolder delete /a",
        steps: "a",
        looks: &[],
        acts: &[],
        polls: &[],
        wanted: "failed 2 42 NotEmpty move /a/one /a/two ; drop /a ; | exit none",
    },
    Row {
        script: "delete /x",
        steps: "aab",
        looks: &[],
        acts: &[],
        polls: &[],
        wanted: "done delete /x ; | done | done | exit none",
    },
    Row {
        script: "pause while {now < \"Thu, 01 Jan 1970 00:30:00 +0000\" as time}\nappendfile {now}",
        steps: "abb",
        looks: &[],
        acts: &[],
        polls: &[],
        wanted: "held 1 | done __appendfile = 84 104 117 44 32 48 49 32 74 97 110 32 49 57 55 48 32 48 48 58 51 51 58 50 48 32 43 48 48 48 48 10 ; | done | exit none",
    },
    Row {
        script: "parameter \"a\" = \"xxxxxxxxxxxxxxxxxxxxxxxxxxxxxxxx\"\nparameter \"b\" = \"{parameter \"a\" of action}{parameter \"a\" of action}{parameter \"a\" of action}{parameter \"a\" of action}{parameter \"a\" of action}{parameter \"a\" of action}{parameter \"a\" of action}{parameter \"a\" of action}\"\nparameter \"c\" = \"{parameter \"b\" of action}{parameter \"b\" of action}{parameter \"b\" of action}{parameter \"b\" of action}\"\ndelete {parameter \"c\" of action}\ndelete /{parameter \"c\" of action}",
        steps: "a",
        looks: &[],
        acts: &[],
        polls: &[],
        wanted: "failed 5 42 BadPath delete xxxxxxxxxxxxxxxxxxxxxxxxxxxxxxxxxxxxxxxxxxxxxxxxxxxxxxxxxxxxxxxxxxxxxxxxxxxxxxxxxxxxxxxxxxxxxxxxxxxxxxxxxxxxxxxxxxxxxxxxxxxxxxxxxxxxxxxxxxxxxxxxxxxxxxxxxxxxxxxxxxxxxxxxxxxxxxxxxxxxxxxxxxxxxxxxxxxxxxxxxxxxxxxxxxxxxxxxxxxxxxxxxxxxxxxxxxxxxxxxxxxxxxxxxxxxxxxxxxxxxxxxxxxxxxxxxxxxxxxxxxxxxxxxxxxxxxxxxxxxxxxxxxxxxxxxxxxxxxxxxxxxxxxxxxxxxxxxxxxxxxxxxxxxxxxxxxxxxxxxxxxxxxxxxxxxxxxxxxxxxxxxxxxxxxxxxxxxxxxxxxxxxxxxxxxxxxxxxxxxxxxxxxxxxxxxxxxxxxxxxxxxxxxxxxxxxxxxxxxxxxxxxxxxxxxxxxxxxxxxxxxxxxxxxxxxxxxxxxxxxxxxxxxxxxxxxxxxxxxxxxxxxxxxxxxxxxxxxxxxxxxxxxxxxxxxxxxxxxxxxxxxxxxxxxxxxxxxxxxxxxxxxxxxxxxxxxxxxxxxxxxxxxxxxxxxxxxxxxxxxxxxxxxxxxxxxxxxxxxxxxxxxxxxxxxxxxxxxxxxxxxxxxxxxxxxxxxxxxxxxxxxxxxxxxxxxxxxxxxxxxxxxxxxxxxxxxxxxxxxxxxxxxxxxxxxxxxxxxxxxxxxxxxxxxxxxxxxxxxxxxxxxxxxxxxxxxxxxxxxxxxxxxxxxxxxxxxxxxxxxxxxxxxxxxxxxxxxxxxxxxxxxxxxxxxxxxxxxxxxxxxxxxxxxxxxxxxxxxxxxxxxxxxxxxxxxxxxxxxxxxxxxxxxxxxxxxxxxxxxxxxxxxxxxxxxxxxxxxxxxxxxxxxxxxxxxxxxxxxxxxxxxxxxxxxxxxxxxxxxxxxxxxxxxxxxxxxxxxxxxxxxxxxxxxxxxxxxxxxxxxxxxxxxxxxxxxxxxxxxxxxx ; delete /xxxxxxxxxxxxxxxxxxxxxxxxxxxxxxxxxxxxxxxxxxxxxxxxxxxxxxxxxxxxxxxxxxxxxxxxxxxxxxxxxxxxxxxxxxxxxxxxxxxxxxxxxxxxxxxxxxxxxxxxxxxxxxxxxxxxxxxxxxxxxxxxxxxxxxxxxxxxxxxxxxxxxxxxxxxxxxxxxxxxxxxxxxxxxxxxxxxxxxxxxxxxxxxxxxxxxxxxxxxxxxxxxxxxxxxxxxxxxxxxxxxxxxxxxxxxxxxxxxxxxxxxxxxxxxxxxxxxxxxxxxxxxxxxxxxxxxxxxxxxxxxxxxxxxxxxxxxxxxxxxxxxxxxxxxxxxxxxxxxxxxxxxxxxxxxxxxxxxxxxxxxxxxxxxxxxxxxxxxxxxxxxxxxxxxxxxxxxxxxxxxxxxxxxxxxxxxxxxxxxxxxxxxxxxxxxxxxxxxxxxxxxxxxxxxxxxxxxxxxxxxxxxxxxxxxxxxxxxxxxxxxxxxxxxxxxxxxxxxxxxxxxxxxxxxxxxxxxxxxxxxxxxxxxxxxxxxxxxxxxxxxxxxxxxxxxxxxxxxxxxxxxxxxxxxxxxxxxxxxxxxxxxxxxxxxxxxxxxxxxxxxxxxxxxxxxxxxxxxxxxxxxxxxxxxxxxxxxxxxxxxxxxxxxxxxxxxxxxxxxxxxxxxxxxxxxxxxxxxxxxxxxxxxxxxxxxxxxxxxxxxxxxxxxxxxxxxxxxxxxxxxxxxxxxxxxxxxxxxxxxxxxxxxxxxxxxxxxxxxxxxxxxxxxxxxxxxxxxxxxxxxxxxxxxxxxxxxxxxxxxxxxxxxxxxxxxxxxxxxxxxxxxxxxxxxxxxxxxxxxxxxxxxxxxxxxxxxxxxxxxxxxxxxxxxxxxxxxxxxxxxxxxxxxxxxxxxxxxxxxxxxxxxxxxxxxxxxxxxxxxxxxxxxxxxxxxxxxxxxxxxxxxxxxxxxxxxxxxxxxxxxxxxxxxxxxxxxxxxxxxxxxxxxxxxxxxxxxxxxxxxxxxxxxxxxxxxxxxxxxxxxx ; | exit none",
    },
    Row {
        script: "prefetch p sha1:cb4cc28df0fdbe0ecf9d9662e294b118092a5735 size:3 http://host/p sha256:BA7816BF8F01CFEA414140DE5DAE2223B00361A396177A9CB410FF61F20015AD",
        steps: "aya",
        looks: &[],
        acts: &[],
        polls: &[],
        wanted: "wants 1 ba7816bf8f01cfea414140de5dae2223b00361a396177a9cb410ff61f20015ad | taken failed 1 46 ba7816bf8f01cfea414140de5dae2223b00361a396177a9cb410ff61f20015ad a52d159f262b2c6ddb724a61840befc36eb30c88877a4030b65cbe86298449c9 | exit none",
    },
    Row {
        script: "prefetch p sha1:da39a3ee5e6b4b0d3255bfef95601890afd80709 size:4 http://host/p sha256:ba7816bf8f01cfea414140de5dae2223b00361a396177a9cb410ff61f20015ad",
        steps: "aya",
        looks: &[],
        acts: &[],
        polls: &[],
        wanted: "wants 1 ba7816bf8f01cfea414140de5dae2223b00361a396177a9cb410ff61f20015ad | taken failed 1 45 4 3 | exit none",
    },
    Row {
        script: "prefetch p sha1:da39a3ee5e6b4b0d3255bfef95601890afd80709 size:3 http://host/p sha256:ba7816bf8f01cfea414140de5dae2223b00361a396177a9cb410ff61f20015ad",
        steps: "aya",
        looks: &[],
        acts: &[],
        polls: &[],
        wanted: "wants 1 ba7816bf8f01cfea414140de5dae2223b00361a396177a9cb410ff61f20015ad | taken failed 1 46 da39a3ee5e6b4b0d3255bfef95601890afd80709 cb4cc28df0fdbe0ecf9d9662e294b118092a5735 | exit none",
    },
    Row {
        script: "prefetch p sha1:a9993e364706816aba3e25717850c26c9cd0d89d size:3 http://host/p sha256:ba7816bf8f01cfea414140de5dae2223b00361a396177a9cb410ff61f20015ad",
        steps: "ansas",
        looks: &[],
        acts: &[],
        polls: &[],
        wanted: "wants 1 ba7816bf8f01cfea414140de5dae2223b00361a396177a9cb410ff61f20015ad | taken not wanted failed 1 47 ba7816bf8f01cfea414140de5dae2223b00361a396177a9cb410ff61f20015ad | not wanted exit none",
    },
    Row {
        script: "copy \"{1/0}\" \"{(1;2)}\"",
        steps: "a",
        looks: &[],
        acts: &[],
        polls: &[],
        wanted: "failed 1 40 8 1..2 | exit none",
    },
    Row {
        script: "setting \"{1/0}\"=\"{(1;2)}\" on \"x\" for client",
        steps: "a",
        looks: &[],
        acts: &[],
        polls: &[],
        wanted: "failed 1 40 8 1..2 | exit none",
    },
    Row {
        script: "setting \"a\"=\"b\" on \"{(1;2)}\" for client",
        steps: "a",
        looks: &[],
        acts: &[],
        polls: &[],
        wanted: "failed 1 40 13 0..5 | exit none",
    },
    Row {
        script: "continue if {(true;false)}",
        steps: "a",
        looks: &[],
        acts: &[],
        polls: &[],
        wanted: "failed 1 40 13 0..12 | exit none",
    },
    Row {
        script: "if {exists file \"/a/one\"}\ndelete /x\nendif",
        steps: "aa",
        looks: &[1],
        acts: &[],
        polls: &[],
        wanted: "failed 1 43 | failed 1 43 | exit none",
    },
    Row {
        script: "appendfile {\"\"}",
        steps: "a",
        looks: &[],
        acts: &[],
        polls: &[],
        wanted: "done __appendfile = 10 ; | exit none",
    },
    Row {
        script: "createfile until E\nE",
        steps: "a",
        looks: &[],
        acts: &[],
        polls: &[],
        wanted: "done __createfile = ; | exit none",
    },
    Row {
        script: "wait slow",
        steps: "aaa",
        looks: &[],
        acts: &[],
        polls: &[2],
        wanted: "held 1 start slow ; | failed 1 43 | failed 1 43 | exit none",
    },
    Row {
        script: "run slow\nwait quick",
        steps: "a",
        looks: &[],
        acts: &[],
        polls: &[],
        wanted: "done start slow ; start quick ; | exit 0",
    },
    Row {
        script: "wait quick\nwait nothing",
        steps: "a",
        looks: &[],
        acts: &[],
        polls: &[],
        wanted: "failed 2 42 NotStarted start quick ; start nothing ; | exit 0",
    },
];

/// Whether a row is as it says.
fn is_right(alloc: Global, row: &Row) -> Option<bool> {
    let mut machine = machine(alloc, row.looks, row.acts, row.polls)?;
    let mut said = Text::from_str(alloc, "").ok()?;
    let done = played(alloc, &mut machine, row.script, row.steps, &mut said);
    drop(machine);
    done?;
    Some(said.as_str() == row.wanted)
}

/// How many rows are as they say, up to the first that isn't.
fn right_rows(alloc: Global) -> Option<usize> {
    for (index, row) in ROWS.iter().enumerate() {
        if !is_right(alloc, row)? {
            return Some(index);
        }
    }
    Some(ROWS.len())
}

/// Whether a long script is done in one advance, and how many commands are done then.
fn long_script(alloc: Global) -> Option<(bool, usize)> {
    let mut machine = machine(alloc, &[], &[], &[])?;
    let done = long_is_done(alloc, &mut machine);
    let acted = machine.acted().len();
    drop(machine);
    Some((done?, acted))
}

#[test]
fn scripts_do_their_lines(rt: HostRuntime) {
    assert_eq!(rt; right_rows(rt.alloc()), Some(ROWS.len()));
}

#[test]
fn a_long_script_is_done_at_once(rt: HostRuntime) {
    assert_eq!(rt; long_script(rt.alloc()), Some((true, 10_000)));
}

/// Whether a copy of an answer says this.
fn copy_says(alloc: Global, ran: &Ran, wanted: &str) -> Option<bool> {
    let copy = ran.copy().ok()?;
    let mut said = Text::from_str(alloc, "").ok()?;
    let done = answer(alloc, &copy, &mut said);
    drop(copy);
    done.ok()?;
    Some(said.as_str() == wanted)
}

#[test]
fn an_answer_is_copied(rt: HostRuntime) {
    let rows = [
        (Ran::Done, "done "),
        (Ran::Memory, "memory "),
        (Ran::Held(3), "held 3 "),
        (Ran::Failed(4, Cause::ParameterTwice), "failed 4 44 "),
    ];
    for (ran, wanted) in &rows {
        assert_eq!(rt; copy_says(rt.alloc(), ran, *wanted), Some(true));
    }
}
