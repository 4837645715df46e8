use crate::database::Database;
use crate::stop::Stop;

/// Begins a transaction.
pub(crate) fn begin<D: Database>(base: &mut D) -> Result<(), Stop> {
    base.run("BEGIN", &[])?;
    Ok(())
}

/// Ends a transaction: what was done in it is committed, or undone where not all was done.
pub(crate) fn end<D: Database>(base: &mut D, done: Result<(), Stop>) -> Result<(), Stop> {
    match committed(base, done) {
        Ok(()) => Ok(()),
        Err(stop) => Err(undone(base, stop)),
    }
}

fn committed<D: Database>(base: &mut D, done: Result<(), Stop>) -> Result<(), Stop> {
    done?;
    base.run("COMMIT", &[])?;
    Ok(())
}

/// Undoes a transaction that was stopped, where the database hasn't done so already. Answers why it was stopped, or why it can't be undone.
fn undone<D: Database>(base: &mut D, stop: Stop) -> Stop {
    match base.run("ROLLBACK", &[]) {
        Ok(_) | Err(Stop::Transaction) => stop,
        Err(_) if stop.is_last() => stop,
        Err(next) => next,
    }
}
