ghost use Rattle.std.specs.Prelude.{◌≡◌, IfOk, OnErr};
ghost use Rattle.rel_value.specs.Plain.{more_kinds, no_kinds};
ghost use Rattle.rel_value.specs.Views.{kind_items, shown_kind, shown_kinds};

use std::alloc::{AllocError, Global};

/// What sort of value an expression gives.
#[cycle(kind)]
#[derive(Drop)]
pub enum Kind {
    Boolean,
    /// From -2^63 to 2^63 - 1.
    Integer,
    Text,
    /// A stretch of a text. It stands wherever a text is wanted, for its own bytes.
    Part,
    Time,
    Interval,
    Version,
    File,
    Folder,
    Client,
    Setting,
    Process,
    Package,
    System,
    Action,
    Tuple(Kinds),
}

/// Two kinds or more, in their order.
#[cycle(kind)]
#[derive(Drop)]
pub struct Kinds {
    items: Vec<Kind>,
}

impl Kinds {
    /// The list of two kinds.
    pub fn pair(alloc: Global, first: Kind, second: Kind) -> Result<Kinds, AllocError>
        ensures { IfOk result (λ list. shown_kinds list
            ≡ more_kinds (more_kinds no_kinds (shown_kind first)) (shown_kind second)) }
    {
        let mut items = Vec::new(alloc);
        items.push(first)?;
        items.push(second)?;
        Ok(Kinds { items })
    }

    /// Lengthens the list. At an error nothing is added.
    pub fn push(&mut self, next: Kind) -> Result<(), AllocError>
        ensures ok { IfOk result (λ _. shown_kinds self.new ≡ more_kinds (shown_kinds self.old) (shown_kind next)) }
        ensures err { OnErr result (shown_kinds self.new ≡ shown_kinds self.old) }
    {
        self.items.push(next)?;
        Ok(())
    }

    pub fn as_slice(&self) -> &[Kind]
        ensures { result.now ≡ kind_items self.now }
    {
        self.items.as_slice()
    }

    /// The same kinds once more.
    #[cycle(copy_kind)]
    pub fn copy(&self) -> Result<Kinds, AllocError>
        ensures { IfOk result (λ list. shown_kinds list ≡ shown_kinds self.now) }
    {
        let mut items = Vec::new(*self.items.allocator());
        for kind in self.items.iter() {
            items.push(kind.copy()?)?;
        }
        Ok(Kinds { items })
    }
}

impl Kind {
    /// The same kind once more.
    #[cycle(copy_kind)]
    pub fn copy(&self) -> Result<Kind, AllocError>
        ensures { IfOk result (λ kind. shown_kind kind ≡ shown_kind self.now) }
    {
        match self {
            Kind::Boolean => Ok(Kind::Boolean),
            Kind::Integer => Ok(Kind::Integer),
            Kind::Text => Ok(Kind::Text),
            Kind::Part => Ok(Kind::Part),
            Kind::Time => Ok(Kind::Time),
            Kind::Interval => Ok(Kind::Interval),
            Kind::Version => Ok(Kind::Version),
            Kind::File => Ok(Kind::File),
            Kind::Folder => Ok(Kind::Folder),
            Kind::Client => Ok(Kind::Client),
            Kind::Setting => Ok(Kind::Setting),
            Kind::Process => Ok(Kind::Process),
            Kind::Package => Ok(Kind::Package),
            Kind::System => Ok(Kind::System),
            Kind::Action => Ok(Kind::Action),
            Kind::Tuple(parts) => Ok(Kind::Tuple(parts.copy()?)),
        }
    }
}
