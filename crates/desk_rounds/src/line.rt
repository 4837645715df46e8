// The line of a request of which nothing came.
ghost use Rattle.std.specs.Prelude.{List};
ghost use Rattle.desk_rounds.specs.Lines.{Line};
ghost use Rattle.desk_rounds.specs.Parts.{MissedBy, Prints, SaysLine};
ghost use Rattle.desk_rounds.specs.AgentRounds.{SaysMissed};

use crate::asking::Miss;
use crate::part::Next;
use desk_base::Bytes;

/// Appends the line, and tells what comes next. Where there is no memory for it, `out` is of no use, here and wherever the answer is
/// want of memory.
pub(crate) fn say_miss(miss: Miss, out: &mut Bytes) -> Next
    ensures { (lines : List Line) × MissedBy miss result lines × Prints result lines out.old out.new }
{
    match miss {
        Miss::NoAnswer => say(b"link: no answer\n", Next::Part, out),
        Miss::BadAnswer => say(b"link: bad answer\n", Next::Item, out),
        Miss::Memory => Next::Memory,
    }
}

/// Appends a line, and tells what comes next: this, or nothing where there is no memory.
fn say(line: &[u8], then: Next, out: &mut Bytes) -> Next
    ensures { SaysLine line.now then result out.old out.new }
{
    match out.extend(line) {
        Ok(()) => then,
        Err(_) => Next::Memory,
    }
}

/// Appends why a wanted file didn't come, where one didn't.
pub(crate) fn say_missed(missed: Option<Miss>, out: &mut Bytes) -> Next
    ensures { SaysMissed missed result out.old out.new }
{
    match missed {
        Some(miss) => say_miss(miss, out),
        None => Next::Item,
    }
}
