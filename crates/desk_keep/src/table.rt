ghost use Rattle.std.specs.Prelude.{◌≡◌, ◌<◌};
ghost use Rattle.desk_keep.specs.Keys.{table_number};

/// The tables, in their order.
#[derive(Clone, Copy)]
pub enum Table {
    /// The text of each site by its name, and the version of the site of actions, under `actionsite` and without a text.
    Sites,
    /// The text of each action by its id.
    Actions,
    /// The bytes of each file by their digest.
    Files,
    /// The names of computers that have reported.
    Computers,
    /// The digest of each report by its computer and its number.
    Reports,
    /// The last row of each computer and action.
    Results,
}

impl Table {
    /// Its place in the order, from 0.
    pub fn number(self) -> u8
        ensures number { result ≡ table_number self }
        ensures few { result < 6 }
    {
        match self {
            Table::Sites => 0,
            Table::Actions => 1,
            Table::Files => 2,
            Table::Computers => 3,
            Table::Reports => 4,
            Table::Results => 5,
        }
    }
}
