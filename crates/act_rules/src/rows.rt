ghost use Rattle.std.specs.Prelude.{◌≡◌, ◌+◌, ◌<◌, ◌≤◌, [], ◌∷◌, ◌++◌, length, IfOk, OnOk, OnErr, IfSome, IsSomeAnd, IsOk};
ghost use Rattle.desk_base.specs.Moments.{IsMoment};
ghost use Rattle.act_rules.specs.declared.row.Status.TheVariants.{Running};
ghost use Rattle.act_rules.specs.Rows.{IsRows, HasMoments, HasEnded, HasRoom, last_row, with_last, status_of};

use crate::row::{Note, Outcome, Row, Status};
use std::alloc::{AllocError, Global};
use std::marker::Model;

/// The rows of an action, numbered 1, 2 and on; only the last may lack an end. Contracts see the list of them, and for how
/// many there is room.
#[derive(Drop)]
pub struct Rows {
    list: Vec<Row>,
}

impl Model for Rows {
    ghost use Rattle.std.specs.Prelude.{vec_capacity};
    ghost use Rattle.act_rules.specs.Rows.{IsRows, RowsState};

    ghost Value = { RowsState };

    ghost view = { λ r. record { rows = r.list.items; capacity = vec_capacity r.list } };

    ghost invariant = { λ r. IsRows r.list.items };
}

impl Rows {
    /// No rows.
    pub fn new(alloc: Global) -> Rows
        ensures { result.rows ≡ [] }
    {
        Rows {
            list: Vec::new(alloc),
        }
    }

    /// The rows.
    pub fn as_slice(&self) -> &[Row]
        ensures value { result.now ≡ self.now.rows }
        ensures rows { IsRows result.now }
    {
        self.list.as_slice()
    }

    /// The same rows once more.
    pub fn copy(&self) -> Result<Rows, AllocError>
        ensures { IfOk result (λ copy. copy.rows ≡ self.now.rows) }
    {
        Ok(Rows {
            list: self.list.clone()?,
        })
    }

    /// Makes room for one row more. The error is want of memory; then nothing has changed.
    pub fn reserve(&mut self) -> Result<(), AllocError>
        ensures rows { self.new.rows ≡ self.old.rows }
        ensures ok { OnOk result (HasRoom self.new) }
        ensures later { self.old.capacity ≤ self.new.capacity }
        ensures err { OnErr result (self.new ≡ self.old) }
    {
        self.list.reserve(1)
    }

    /// Adds a row with the next number where none runs. The error is want of memory, which comes only where there was no
    /// room; then nothing is added.
    pub fn push(&mut self, row: Row) -> Result<(), AllocError>
        requires ended { IfSome (last_row self.old.rows) HasEnded }
        requires number { row.number ≡ length self.old.rows + 1 }
        requires moments { HasMoments row }
        ensures ok { OnOk result (self.new.rows ≡ self.old.rows ++ row ∷ []) }
        ensures err { OnErr result (self.new.rows ≡ self.old.rows) }
        ensures within { HasRoom self.old → IsOk result }
        ensures later { self.old.capacity ≤ self.new.capacity }
    {
        self.list.push(row)?;
        Ok(())
    }

    /// Ends the last row, which runs. It takes no memory.
    pub fn end(&mut self, moment: i64, outcome: Outcome, note: Note)
        requires moment { IsMoment moment }
        requires running { IsSomeAnd (last_row self.old.rows) (λ row. row.end ≡ None) }
        ensures rows { self.new.rows ≡ with_last self.old.rows
            (λ row. record row { end = Some (moment, outcome); note = note }) }
        ensures room { self.new.capacity ≡ self.old.capacity }
    {
        let last = self.list.len() - 1;
        let row = &mut self.list[last];
        row.end = Some((moment, outcome));
        row.note = note;
    }

    /// Marks the last row, which has ended and isn't marked yet, as cleared. It takes no memory.
    pub fn clear(&mut self, moment: i64)
        requires moment { IsMoment moment }
        requires ended { IsSomeAnd (last_row self.old.rows) HasEnded }
        requires unmarked { IsSomeAnd (last_row self.old.rows) (λ row. row.cleared ≡ None) }
        ensures rows { self.new.rows ≡ with_last self.old.rows (λ row. record row { cleared = Some moment }) }
        ensures room { self.new.capacity ≡ self.old.capacity }
    {
        let last = self.list.len() - 1;
        self.list[last].cleared = Some(moment);
    }
}

/// How the attempts stand: as the last row does.
pub fn status(rows: &Rows) -> Status
    ensures { result ≡ status_of rows.now.rows }
{
    let Some(row) = rows.list.last() else {
        return Status::NotBegun;
    };
    match row.end {
        None => Status::Running,
        Some((_, outcome)) => Status::Ended(outcome),
    }
}
