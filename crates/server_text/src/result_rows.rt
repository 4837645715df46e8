ghost use Rattle.std.specs.Prelude.{◌≡◌, ◌++◌, [], ◌∷◌, IfOk, OnOk, OnErr, filter_map};
ghost use Rattle.server_text.specs.ToldRows.{result_row};

use desk_keep::{Change, ResultRow};
use std::alloc::{AllocError, Global};
use std::marker::Model;

/// Results in their order. Contracts see the list of them.
#[derive(Drop)]
pub struct ResultRows {
    list: Vec<ResultRow>,
}

impl Model for ResultRows {
    ghost use Rattle.std.specs.Prelude.{List};
    ghost use Rattle.desk_keep.specs.declared.result_row.ResultRow.{ResultRow};

    ghost Value = { List ResultRow };

    ghost view = { λ r. r.list.items };
}

impl ResultRows {
    /// None. It takes no memory.
    pub fn new(alloc: Global) -> ResultRows
        ensures { result ≡ [] }
    {
        ResultRows {
            list: Vec::new(alloc),
        }
    }

    /// The results.
    pub fn as_slice(&self) -> &[ResultRow]
        ensures { result.now ≡ self.now }
    {
        self.list.as_slice()
    }

    /// Appends a result. The error is want of memory; then nothing is appended.
    pub fn push(&mut self, row: ResultRow) -> Result<(), AllocError>
        ensures ok { OnOk result (self.new ≡ self.old ++ row ∷ []) }
        ensures err { OnErr result (self.new ≡ self.old) }
    {
        self.list.push(row)?;
        Ok(())
    }

    /// The same results once more. The error is want of memory.
    pub fn copy(&self) -> Result<ResultRows, AllocError>
        ensures { IfOk result (λ results. results ≡ self.now) }
    {
        let mut copies = Vec::new(*self.list.allocator());
        for row in self.list.as_slice() {
            copies.push(row.copy()?)?;
        }
        Ok(ResultRows { list: copies })
    }
}

/// The results of which these are rows, in their order. The error is want of memory.
pub fn results_in(alloc: Global, rows: &[Change]) -> Result<ResultRows, AllocError>
    ensures { IfOk result (λ results. results ≡ filter_map result_row rows.now) }
{
    let mut results = ResultRows::new(alloc);
    for row in rows {
        push_result(row, &mut results)?;
    }
    Ok(results)
}

/// Appends the result of a row.
fn push_result(row: &Change, results: &mut ResultRows) -> Result<(), AllocError>
    ensures { OnOk result (results.new ≡ results.old ++ filter_map result_row (row.now ∷ [])) }
{
    match row {
        Change::Result(last) => results.push(last.copy()?),
        _ => Ok(()),
    }
}
