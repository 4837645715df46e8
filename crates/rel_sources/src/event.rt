ghost use Rattle.rel_sources.specs.Steps.{IsStep, AsStep};

use rel_value::Value;

/// One event of a walk, or what kept it from making one.
#[derive(Drop)]
pub enum WalkEvent {
    /// A look was made.
    Looked,
    /// A turn.
    Turned,
    /// A value.
    Given(Value),
    /// Nothing is left.
    Over,
    /// The walk ends at a text of more than 1,048,576 bytes.
    TextTooLong,
    /// The next event is a look, and there is no room for one. No look was made.
    Full,
    /// A look failed. The next event is the same look.
    Failed,
    /// Memory ran out, and no look was made. The walk must not be stepped again.
    Memory,
}

/// What a walk does between its looks.
#[derive(Drop)]
pub enum WalkStep {
    /// A turn.
    Turn,
    /// A value.
    Give(Value),
    /// Nothing is left.
    End,
    /// The walk ends at a text of more than 1,048,576 bytes.
    TextTooLong,
    /// A look failed. The next step makes it again.
    Failed,
    /// Memory ran out. The walk must not be stepped again.
    Memory,
}

impl WalkEvent {
    /// As a step, which makes its looks.
    pub fn into_step(self) -> WalkStep
        requires { IsStep self }
        ensures { AsStep self result }
    {
        match self {
            WalkEvent::Turned => WalkStep::Turn,
            WalkEvent::Given(value) => WalkStep::Give(value),
            WalkEvent::Over => WalkStep::End,
            WalkEvent::TextTooLong => WalkStep::TextTooLong,
            WalkEvent::Failed => WalkStep::Failed,
            WalkEvent::Memory => WalkStep::Memory,
            WalkEvent::Looked | WalkEvent::Full => unreachable!(),
        }
    }
}
