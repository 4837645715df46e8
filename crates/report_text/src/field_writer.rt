ghost use Rattle.std.specs.Prelude.{length};
ghost use Rattle.desk_base.specs.Rooms.{HasRoom, Fills};
ghost use Rattle.report_text.specs.RowLines.{component_field, end_field, exit_field, line_field};

use act_rules::Outcome;
use desk_base::Room;

/// Appends the moment of an end, or `-`. It takes no memory.
pub fn fill_end(end: Option<(i64, Outcome)>, room: &mut Room)
    requires { HasRoom room.old (length (end_field end)) }
    ensures { Fills room.old room.new (end_field end) }
{
    match end {
        None => room.push(b'-'),
        Some((moment, _)) => room.signed_decimal(moment),
    }
}

/// Appends an exit code, or `-`. It takes no memory.
pub(crate) fn fill_exit(exit: Option<i64>, room: &mut Room)
    requires { HasRoom room.old (length (exit_field exit)) }
    ensures { Fills room.old room.new (exit_field exit) }
{
    match exit {
        None => room.push(b'-'),
        Some(exit) => room.signed_decimal(exit),
    }
}

/// Appends the component of a failure's place, or `-`. It takes no memory.
pub(crate) fn fill_component(place: Option<(u32, u32)>, room: &mut Room)
    requires { HasRoom room.old (length (component_field place)) }
    ensures { Fills room.old room.new (component_field place) }
{
    match place {
        None => room.push(b'-'),
        Some((component, _)) => room.decimal(u64::from(component)),
    }
}

/// Appends the line of a failure's place, or `-`. It takes no memory.
pub(crate) fn fill_line(place: Option<(u32, u32)>, room: &mut Room)
    requires { HasRoom room.old (length (line_field place)) }
    ensures { Fills room.old room.new (line_field place) }
{
    match place {
        None => room.push(b'-'),
        Some((_, line)) => room.decimal(u64::from(line)),
    }
}
