// Each word of an office, read and written again. The words that are wanted are those that were given.
use group_text::{Analysis, Group, Test};
use office_text::{Order, Orders, read_office};
use std::alloc::Global;
use std::test::Fail;

const OFFICE: &[u8] = b"office
publish
site
digest x
act
action
end
stop 7
file
| a
|
end
relay r1
computer c1 r1
world
name c1
system 1 x
offset 60
moment 1000
end
gather r1
turn c1 1000
restart c1
send c1 2
push r1
deliver 3
report c1
forward r1
forget r1
analysis
property version 3600 versions of packages \"agentd\"
property one 0 1
end
group old
match any
has version 1.1
lacks one 2
error one
end
measure c1 4599
members new
target old
target all
action
target all
end
end
";

const WANTED: &str =
    "publish site.digest x.;act action.end.;stop 7;file a..;relay r1;computer c1 r1 c1 60;gather r1;turn c1 1000;restart c1;send c1 2;push r1;deliver 3;report c1;forward r1;forget r1;analysis version 3600 versions of packages \"agentd\" one 0 1;group old any has version 1.1 lacks one 2 error one;measure c1 4599;members new;target old target all.action.target all.end.;";

/// Appends what an order says; a dot stands for an LF.
fn write(alloc: Global, order: &Order, words: &mut String) -> Result<(), Fail> {
    match order {
        Order::Publish(text) => write_text("publish", text.as_slice(), words),
        Order::Act(text) => write_text("act", text.as_slice(), words),
        Order::Stop(id) => write_number(alloc, "stop", *id, words),
        Order::File(bytes) => write_text("file", bytes.as_slice(), words),
        Order::Relay(name) => write_name("relay", name.as_str(), words),
        Order::Computer { name, relay, world } => {
            write_name("computer", name.as_str(), words)?;
            write_name("", relay.as_str(), words)?;
            write_name("", world.name().as_str(), words)?;
            let offset = format!(in alloc; " {}", world.offset())?;
            Ok(words.push_str(offset.as_str())?)
        }
        Order::Gather(relay) => write_name("gather", relay.as_str(), words),
        Order::Turn { name, moment } => write_moment(alloc, "turn", name.as_str(), *moment, words),
        Order::Restart(name) => write_name("restart", name.as_str(), words),
        Order::Send { name, seq } => {
            write_name("send", name.as_str(), words)?;
            write_number(alloc, "", *seq, words)
        }
        Order::Push(relay) => write_name("push", relay.as_str(), words),
        Order::Deliver(message) => write_number(alloc, "deliver", *message, words),
        Order::Report(name) => write_name("report", name.as_str(), words),
        Order::Forward(relay) => write_name("forward", relay.as_str(), words),
        Order::Forget(relay) => write_name("forget", relay.as_str(), words),
        Order::Analysis(analysis) => write_analysis(alloc, analysis, words),
        Order::Group(group) => write_group(group, words),
        Order::Measure { name, moment } => {
            write_moment(alloc, "measure", name.as_str(), *moment, words)
        }
        Order::Members(group) => write_name("members", group.as_str(), words),
        Order::Target { group, action } => {
            write_name("target", group.as_str(), words)?;
            write_text("", action.as_slice(), words)
        }
    }
}

fn write_analysis(alloc: Global, analysis: &Analysis, words: &mut String) -> Result<(), Fail> {
    words.push_str("analysis")?;
    for property in analysis.properties.as_slice() {
        write_moment(alloc, "", property.name.as_str(), property.period, words)?;
        write_name("", property.question.as_str(), words)?;
    }
    Ok(())
}

fn write_group(group: &Group, words: &mut String) -> Result<(), Fail> {
    write_name("group", group.name.as_str(), words)?;
    words.push_str(if group.any { " any" } else { " all" })?;
    for test in group.tests.as_slice() {
        match test {
            Test::Has(property, text) => {
                write_name(" has", property.as_str(), words)?;
                write_name("", text.as_str(), words)?;
            }
            Test::Lacks(property, text) => {
                write_name(" lacks", property.as_str(), words)?;
                write_name("", text.as_str(), words)?;
            }
            Test::Error(property) => write_name(" error", property.as_str(), words)?,
        }
    }
    Ok(())
}

fn write_moment(
    alloc: Global,
    word: &str,
    name: &str,
    moment: i64,
    words: &mut String,
) -> Result<(), Fail> {
    let moment = format!(in alloc; " {moment}")?;
    write_name(word, name, words)?;
    Ok(words.push_str(moment.as_str())?)
}

fn write_name(word: &str, name: &str, words: &mut String) -> Result<(), Fail> {
    words.push_str(word)?;
    words.push_str(" ")?;
    Ok(words.push_str(name)?)
}

fn write_number(alloc: Global, word: &str, number: u64, words: &mut String) -> Result<(), Fail> {
    let number = format!(in alloc; "{number}")?;
    write_name(word, number.as_str(), words)
}

fn write_text(word: &str, text: &[u8], words: &mut String) -> Result<(), Fail> {
    write_name(word, "", words)?;
    for byte in text {
        words.push(if *byte == b'\n' {
            '.'
        } else {
            char::from(*byte)
        })?;
    }
    Ok(())
}

/// What these orders say.
fn said(alloc: Global, orders: &Orders) -> Result<String, Fail> {
    let mut words = String::new(alloc);
    for order in orders.as_slice() {
        write(alloc, order, &mut words)?;
        words.push_str(";")?;
    }
    Ok(words)
}

#[test]
fn each_word_is_read(rt: HostRuntime) -> Result<(), Fail> {
    let Ok(orders) = read_office(rt.alloc(), OFFICE) else {
        return Err("no office".into());
    };
    assert_eq!(rt; said(rt.alloc(), &orders)?.as_str(), WANTED);
    let copy = orders.copy()?;
    assert_eq!(rt; said(rt.alloc(), &copy)?.as_str(), WANTED);
    Ok(())
}
