ghost use Rattle.std.specs.Prelude.{◌≡◌, ◌≤◌, List, length, vec_len, IfOk, IfSome, OnOk, OnErr, All};
ghost use Rattle.desk_keep.specs.declared.change.Change.{Change};
ghost use Rattle.desk_keep.specs.Keys.{key_of};
ghost use Rattle.desk_keep.specs.Forms.{Fits};
ghost use Rattle.desk_keep.specs.Tables.{put, put_all, row_at, AreRows};
ghost use Rattle.desk_keep.specs.Inside.{WerePut};

use crate::Change;
use crate::ordered_rows::OrderedRows;
use std::alloc::{AllocError, Global};

/// Puts the rows of a batch in their order. An error changes nothing.
pub(crate) fn put_all(
    alloc: Global,
    rows: &mut OrderedRows,
    batch: &[Change],
) -> Result<(), AllocError>
    requires fits { All Fits batch.now }
    requires good { AreRows rows.old }
    ensures ok { OnOk result (rows.new ≡ put_all batch.now rows.old) }
    ensures err { OnErr result (rows.new ≡ rows.old) }
{
    let mut before = Vec::with_capacity(alloc, batch.len())?;
    for row in batch {
        match put_copy(rows, row) {
            Ok(stood) => before.push_reserved(stood),
            Err(error) => {
                take_all_back(rows, batch, before);
                return Err(error);
            }
        }
    }
    Ok(())
}

/// Puts a copy of a row, and answers what stood at its key before. An error changes nothing.
fn put_copy(rows: &mut OrderedRows, row: &Change) -> Result<Option<Change>, AllocError>
    requires { Fits row.now }
    ensures ok { OnOk result (rows.new ≡ put row.now rows.old) }
    ensures before { IfOk result (λ before. before ≡ row_at (key_of row.now) rows.old) }
    ensures fits { IfOk result (λ before. IfSome before Fits) }
    ensures err { OnErr result (rows.new ≡ rows.old) }
{
    rows.put(row.copy()?)
}

/// Takes back the first rows of a batch, which were put, where this is what stood at their keys before. It takes no memory.
fn take_all_back(rows: &mut OrderedRows, batch: &[Change], mut before: Vec<Option<Change>>)
    requires fits { All Fits batch.now }
    requires before { All (λ stood. IfSome stood Fits) before.items }
    requires few { vec_len before ≤ length batch.now }
    ensures { (start : List Change) → AreRows start → WerePut batch.now before.items start rows.old → rows.new ≡ start }
{
    while let Some(stood) = before.pop() {
        rows.take_back(&batch[before.len()], stood);
    }
}
