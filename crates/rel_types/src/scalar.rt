ghost use Rattle.std.specs.Prelude.{◌≡◌};
ghost use Rattle.rel_types.specs.Rows.{scalar_kind, same_scalar, takes};
ghost use Rattle.rel_value.specs.Views.{shown_kind};

use rel_value::Kind;

/// The kinds that hold no other kinds, by which the tables of names tell values apart.
#[derive(Clone, Copy, PartialEq, Eq)]
pub(crate) enum Scalar {
    Boolean,
    Integer,
    Text,
    Part,
    Time,
    Interval,
    Version,
    File,
    Folder,
    Client,
    Setting,
    Process,
    Package,
    System,
    Action,
}

impl Scalar {
    pub(crate) fn kind(self) -> Kind
        ensures { shown_kind result ≡ scalar_kind self }
    {
        match self {
            Scalar::Boolean => Kind::Boolean,
            Scalar::Integer => Kind::Integer,
            Scalar::Text => Kind::Text,
            Scalar::Part => Kind::Part,
            Scalar::Time => Kind::Time,
            Scalar::Interval => Kind::Interval,
            Scalar::Version => Kind::Version,
            Scalar::File => Kind::File,
            Scalar::Folder => Kind::Folder,
            Scalar::Client => Kind::Client,
            Scalar::Setting => Kind::Setting,
            Scalar::Process => Kind::Process,
            Scalar::Package => Kind::Package,
            Scalar::System => Kind::System,
            Scalar::Action => Kind::Action,
        }
    }

    /// Whether a value of the other kind may stand where one of this kind is wanted.
    pub(crate) fn takes(self, other: Scalar) -> bool
        ensures { result ≡ takes self other }
    {
        self.is(other) || (self.is(Scalar::Text) && other.is(Scalar::Part))
    }

    fn is(self, other: Scalar) -> bool
        ensures { result ≡ same_scalar self other }
    {
        self == other
    }
}
