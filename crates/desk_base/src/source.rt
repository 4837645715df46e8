ghost use Rattle.std.specs.Prelude.{◌<◌, length};
ghost use Rattle.desk_base.specs.Views.{SourceView};
ghost use Rattle.desk_base.specs.Flow.{Reads};

/// What a read answers.
#[derive(Clone, Copy)]
pub enum Got {
    /// So many bytes stand at the front of the room, at least one.
    Some(usize),
    /// Nothing is left.
    End,
    /// Nothing was taken, and the count of faults went up.
    Failed,
}

/// Where bytes come from.
pub trait Source {
    /// What it tells of itself.
    ghost told: { Self → SourceView };

    /// Takes the next bytes into the front of the room.
    fn read(&mut self, room: &mut [u8]) -> Got
        requires { 0 < length room.old }
        ensures { Reads room.new (told self.old) result (told self.new) };
}
