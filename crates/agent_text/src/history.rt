ghost use Rattle.std.specs.Prelude.{◌≡◌, ◌+◌, ◌++◌, ◌∷◌, [], length, true, IfOk, OnOk, OnErr, IfSome, IsSomeAnd, None, Some};
ghost use Rattle.desk_base.specs.Moments.{IsMoment};
ghost use Rattle.act_rules.specs.Rows.{HasEnded, HasMoments, last_row, with_last};
ghost use Rattle.agent_text.specs.Histories.{IsHistory, cleared, shown_history};
ghost use Rattle.agent_text.specs.KeptTexts.{KeepsText};

use crate::room_writer::fill_lines;
use crate::size::history_size;
use act_rules::{Note, Outcome, Row, Rows};
use desk_base::{Bytes, Room};
use std::alloc::{AllocError, Global};

/// The attempts of an action.
#[derive(Drop)]
pub struct History {
    /// The id of the action, from 1 to 2^53.
    pub action: u64,
    /// One or more.
    pub rows: Rows,
    /// Whether the last row isn't reported yet as it stands.
    pub pending: bool,
    /// The bytes of its lines, where they were made since they last changed.
    pub(crate) text: Option<Bytes>,
}

impl History {
    /// The same history once more, without the bytes of its lines. The error is want of memory, here and below.
    pub fn copy(&self) -> Result<History, AllocError>
        ensures shown { IfOk result (λ history. shown_history history ≡ shown_history self.now) }
        ensures kept { IfOk result KeepsText }
    {
        Ok(History {
            action: self.action,
            rows: self.rows.copy()?,
            pending: self.pending,
            text: None,
        })
    }

    /// An attempt begins: a row that runs. The history is pending then. At an error nothing has changed but its bytes, which are dropped
    /// here and below.
    pub(crate) fn begin(&mut self, row: Row) -> Result<(), AllocError>
        requires ended { IfSome (last_row self.old.rows.rows) HasEnded }
        requires number { row.number ≡ length self.old.rows.rows + 1 }
        requires moments { HasMoments row }
        ensures ok { OnOk result (shown_history self.new ≡ record {
          action = self.old.action;
          rows = self.old.rows.rows ++ row ∷ [];
          pending = true;
        }) }
        ensures err { OnErr result (shown_history self.new ≡ shown_history self.old) }
        ensures kept { KeepsText self.new }
    {
        self.text = None;
        self.rows.push(row)?;
        self.pending = true;
        Ok(())
    }

    /// The attempt that runs ends. The history is pending then. It takes no memory, nor does the call below.
    pub(crate) fn end(&mut self, moment: i64, outcome: Outcome, note: Note)
        requires moment { IsMoment moment }
        requires running { IsSomeAnd (last_row self.old.rows.rows) (λ row. row.end ≡ None) }
        ensures shown { shown_history self.new ≡ record {
          action = self.old.action;
          rows = with_last self.old.rows.rows (λ row. record row { end = Some (moment, outcome); note = note });
          pending = true;
        } }
        ensures kept { KeepsText self.new }
    {
        self.text = None;
        self.rows.end(moment, outcome, note);
        self.pending = true;
    }

    /// The last attempt, which has ended, is cleared.
    pub(crate) fn clear(&mut self, moment: i64)
        requires moment { IsMoment moment }
        requires ended { IsSomeAnd (last_row self.old.rows.rows) HasEnded }
        requires unmarked { IsSomeAnd (last_row self.old.rows.rows) (λ row. row.cleared ≡ None) }
        ensures shown { shown_history self.new ≡ cleared moment (shown_history self.old) }
        ensures kept { KeepsText self.new }
    {
        self.text = None;
        self.rows.clear(moment);
    }

    /// Makes the bytes of its lines, if it has none.
    pub(crate) fn keep_text(&mut self, alloc: Global) -> Result<(), AllocError>
        requires good { IsHistory (shown_history self.old) }
        requires kept { KeepsText self.old }
        ensures shown { shown_history self.new ≡ shown_history self.old }
        ensures kept { KeepsText self.new }
    {
        if self.text.is_some() {
            return Ok(());
        }
        let Some(size) = history_size(self) else {
            return Err(AllocError);
        };
        let mut room = Room::with_capacity(alloc, size)?;
        fill_lines(self, &mut room);
        self.text = Some(room.into_bytes());
        Ok(())
    }
}
