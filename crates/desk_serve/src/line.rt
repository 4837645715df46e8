ghost use Rattle.std.specs.Prelude.{◌≡◌};
ghost use Rattle.desk_serve.specs.TalkLines.{talk_line};

use arrayvec::ArrayString;
use desk_base::numbers_are_short;
use desk_http::Met;
use itoa::Buffer;

/// The most bytes of a line.
const LONGEST_LINE: usize = 32;

/// The line of a conversation. Of one in which memory ran out it is empty.
pub fn talk_line(met: Met) -> ArrayString<LONGEST_LINE>
    ensures { result.bytes ≡ talk_line met }
{
    // Proof: so that each line has room.
    numbers_are_short();
    let mut line = ArrayString::new();
    match met {
        Met::Answered(status) => {
            line.push_str("answered ");
            let mut digits = Buffer::new();
            line.push_str(digits.format(status));
            line.push_str("\n");
        }
        Met::Closed => line.push_str("closed\n"),
        Met::DoorFault => line.push_str("door fault\n"),
        Met::Memory => {}
    }
    line
}
