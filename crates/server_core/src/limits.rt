ghost use Rattle.std.specs.Prelude.{◌≡◌};
ghost use Rattle.server_core.specs.DeskLimits.{desk_limits};

/// How much a server keeps.
#[derive(Clone, Copy)]
pub struct Limits {
    /// The most sites, `actionsite` aside.
    pub sites: u64,
    pub actions: u64,
    pub files: u64,
    pub computers: u64,
    /// The most reports, of all computers together.
    pub reports: u64,
}

impl Limits {
    /// Those of every server of the desk, and of every office that is played.
    pub fn of_the_desk() -> Limits
        ensures { result ≡ desk_limits }
    {
        Limits {
            sites: 100,
            actions: 1_000,
            files: 500,
            computers: 100_000,
            reports: 2_000_000,
        }
    }
}
