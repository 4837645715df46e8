ghost use Rattle.std.specs.Prelude.{◌≡◌, ◌≢◌, ℕ, List, map, All, IfOk, OnOk, OnErr};
ghost use Rattle.group_sample.specs.Samples.{AreRows};
ghost use Rattle.group_core.specs.Books.{PutsSample, is_newer};
ghost use Rattle.group_core.specs.declared.kept_group.KeptGroup.{KeptGroup};
ghost use Rattle.group_core.specs.Keeping.{AreSettled, newer_rows, shown};
ghost use Rattle.group_core.specs.Lists.{AreComputers, Ascends, itself, one_of, row_name, rows_at, with_all};

use crate::book::{Book, PutAnswer};
use crate::computers::{Computer, make_room, rows_of};
use crate::kept_group::{KeptGroup, make_ready, settle};
use crate::kept_row::KeptRow;
use crate::row_list::{put_all, row_of};
use group_sample::{Sample, Sampled};
use rel_lexer::Text;
use std::alloc::{AllocError, Global};

impl Book {
    /// Takes the rows of a sample that are newer than those that are kept, and keeps the members of the groups. Of samples with one
    /// number the first stays.
    pub fn put(&mut self, sample: &Sample) -> PutAnswer
        requires { AreRows sample.now.rows }
        ensures { PutsSample self.old sample.now result self.new }
    {
        match self.change(sample) {
            Ok(count) => PutAnswer::Changed(count),
            Err(_) => PutAnswer::Memory,
        }
    }

    /// Takes the newer rows, and says how many they are. An error, which is want of memory, changes nothing.
    fn change(&mut self, sample: &Sample) -> Result<u32, AllocError>
        requires { AreRows sample.now.rows }
        ensures ok { IfOk result (λ count. PutsSample self.old sample.now (PutAnswer.Changed count) self.new) }
        ensures err { OnErr result (self.new ≡ self.old) }
    {
        let kept = rows_of(self.computers.as_slice(), sample.computer.as_str());
        let fresh = newer_rows(self.alloc, kept, sample)?;
        let count = fresh.len() as u32;
        if count == 0 {
            self.samples.push(sample);
            return Ok(0);
        }
        take_rows(
            self.alloc,
            &mut self.computers,
            &mut self.groups,
            &sample.computer,
            fresh,
        )?;
        self.samples.push(sample);
        Ok(count)
    }
}

/// Gives the computer of this name these rows, and makes it a member of the groups that its rows fit then. At an error, want of memory,
/// each computer has the rows that it had, and each group its members.
fn take_rows(
    alloc: Global,
    computers: &mut Vec<Computer>,
    groups: &mut [KeptGroup],
    name: &Text,
    fresh: Vec<KeptRow>,
) -> Result<(), AllocError>
    requires computers { AreComputers computers.old.items }
    requires members { All (λ (kept : KeptGroup). Ascends itself kept.members.items) groups.old }
    ensures ordered { AreComputers computers.new.items }
    ensures own { OnOk result (rows_at computers.new.items name.now
        ≡ with_all row_name fresh.items (rows_at computers.old.items name.now)) }
    ensures others { (other : List ℕ) → other ≢ name.now → rows_at computers.new.items other ≡ rows_at computers.old.items other }
    ensures groups { OnOk result (AreSettled name.now (rows_at computers.old.items name.now) fresh.items
        (rows_at computers.new.items name.now) groups.old groups.new) }
    ensures err_rows { OnErr result ((other : List ℕ) → rows_at computers.new.items other ≡ rows_at computers.old.items other) }
    ensures err_groups { OnErr result (map shown groups.new ≡ map shown groups.old) }
{
    let place = make_room(alloc, computers, name, fresh.len())?;
    make_ready(
        groups,
        name,
        computers[place].rows.as_slice(),
        fresh.as_slice(),
    )?;
    // Nothing takes memory from here on.
    put_all(&mut computers[place].rows, fresh);
    settle(groups, computers[place].rows.as_slice());
    Ok(())
}

/// Copies of the rows of a sample that are newer than these.
fn newer_rows(alloc: Global, kept: &[KeptRow], sample: &Sample) -> Result<Vec<KeptRow>, AllocError>
    requires { Ascends row_name kept.now }
    ensures { IfOk result (λ newer. newer.items ≡ newer_rows kept.now sample.now) }
{
    let mut newer = Vec::new(alloc);
    for row in sample.rows.as_slice() {
        if is_newer(kept, sample.seq, row) {
            newer.push(KeptRow {
                seq: sample.seq,
                row: row.copy()?,
            })?;
        }
    }
    Ok(newer)
}

/// Whether a row with this number is newer than the kept one of its property, if there is one.
fn is_newer(kept: &[KeptRow], seq: u64, row: &Sampled) -> bool
    requires { Ascends row_name kept.now }
    ensures { result ≡ is_newer seq (one_of row_name row.now.property kept.now) }
{
    match row_of(kept, row.property.as_str()) {
        None => true,
        Some(kept) => kept.seq < seq,
    }
}
