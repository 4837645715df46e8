// Computers with their rows, in strictly ascending byte order of their names.
ghost use Rattle.std.specs.Prelude.{◌≡◌, ℕ, List, IfOk};
ghost use Rattle.group_core.specs.Lists.{AreComputers, Ascends, HasPlace, HasRoomAt, computer_name, row_name, rows_at};

use crate::computer_name::{ComputerName, front_of};
use crate::kept_row::KeptRow;
use rel_lexer::Text;
use std::alloc::{AllocError, Global};

/// A computer and its rows.
#[derive(Drop)]
pub(crate) struct Computer {
    pub(crate) name: ComputerName,
    pub(crate) rows: Vec<KeptRow>,
}

/// The rows of the computer of this name.
pub(crate) fn rows_of<'a>(computers: &'a [Computer], name: &str) -> &'a [KeptRow]
    requires { AreComputers computers.now }
    ensures rows { result.now ≡ rows_at computers.now name.now }
    ensures ascends { Ascends row_name result.now }
{
    match place_of(computers, name) {
        Ok(place) => computers[place].rows.as_slice(),
        Err(_) => &[],
    }
}

/// The place of the computer of this name, with room for so many rows more. It stands there without rows if it didn't before. At an
/// error, want of memory, each has the rows that it had.
pub(crate) fn make_room(
    alloc: Global,
    computers: &mut Vec<Computer>,
    name: &Text,
    more: usize,
) -> Result<usize, AllocError>
    requires { AreComputers computers.old.items }
    ensures same { (other : List ℕ) → rows_at computers.new.items other ≡ rows_at computers.old.items other }
    ensures ordered { AreComputers computers.new.items }
    ensures room { IfOk result (HasRoomAt computers.new.items name.now more) }
{
    match place_of(computers.as_slice(), name.as_str()) {
        Ok(place) => {
            computers[place].rows.reserve(more)?;
            Ok(place)
        }
        Err(place) => {
            let computer = Computer {
                name: ComputerName::of(name)?,
                rows: Vec::with_capacity(alloc, more)?,
            };
            computers.insert(place, computer)?;
            Ok(place)
        }
    }
}

/// The place of the computer of this name, or the one where it would stand.
fn place_of(computers: &[Computer], name: &str) -> Result<usize, usize>
    requires { AreComputers computers.now }
    ensures { HasPlace computer_name computers.now name.now result }
{
    let front = front_of(name);
    computers.binary_search_by(|computer| computer.name.order(&front, name))
}
