ghost use Rattle.std.specs.Prelude.{◌<◌, length};
ghost use Rattle.desk_door.specs.Doors.{DoorView, OpensAt, BeginsNext, ReadsInto, WritesOut, EndsTalk};

use crate::DoorGot;
use desk_base::Put;

/// Where peers come in, each with one conversation, one after another.
pub trait Door {
    /// What it tells of itself.
    ghost told: { Self → DoorView };

    /// Opens the door at a port.
    fn open(&mut self, port: u16) -> Put
        ensures { OpensAt port (told self.old) result (told self.new) };

    /// Begins the next conversation. Where it is told that there is none, this fails.
    fn next(&mut self) -> Put
        ensures { BeginsNext (told self.old) result (told self.new) };

    /// Takes the next bytes that the peer says in the present conversation into the front of the room.
    fn read(&mut self, room: &mut [u8]) -> DoorGot
        requires { 0 < length room.old }
        ensures { ReadsInto room.new (told self.old) result (told self.new) };

    /// Writes the piece in the present conversation.
    fn write(&mut self, piece: &[u8]) -> Put
        ensures { WritesOut piece.now (told self.old) result (told self.new) };

    /// Ends the present conversation. `whole` says that the peer's request was read to its end: where it wasn't, a real door reads on for a
    /// while and drops what comes, so that the peer gets to read what was written.
    fn close(&mut self, whole: bool)
        ensures { EndsTalk whole (told self.old) (told self.new) };
}
