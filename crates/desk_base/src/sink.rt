ghost use Rattle.desk_base.specs.Views.{SinkView};
ghost use Rattle.desk_base.specs.Flow.{Writes};

/// What a write answers.
#[derive(Clone, Copy)]
pub enum Put {
    /// The whole piece was appended.
    Done,
    /// A front of the piece was appended, and the count of faults went up.
    Failed,
}

/// Where bytes go.
pub trait Sink {
    /// What it tells of itself.
    ghost told: { Self → SinkView };

    /// Appends the piece.
    fn write(&mut self, piece: &[u8]) -> Put
        ensures { Writes piece.now (told self.old) result (told self.new) };
}
