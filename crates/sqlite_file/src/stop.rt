use desk_sql::Stop;
use sqlite::{Error, ErrorCode};

/// Why SQLite refused a call, as a keeper knows it.
pub(crate) fn stop_of(error: Error) -> Stop {
    match error {
        Error::SqliteFailure(code) => stop_of_code(code),
        _ => Stop::Statement,
    }
}

fn stop_of_code(code: ErrorCode) -> Stop {
    match code {
        ErrorCode::OutOfMemory => Stop::Memory,
        ErrorCode::CannotOpen => Stop::CannotOpen,
        ErrorCode::DatabaseBusy => Stop::Busy,
        ErrorCode::NotADatabase => Stop::NoDatabase,
        ErrorCode::DiskFull => Stop::NoRoom,
        ErrorCode::SystemIoFailure => Stop::Disk,
        ErrorCode::DatabaseCorrupt => Stop::Damaged,
        ErrorCode::Closed => Stop::Closed,
        ErrorCode::TransactionState => Stop::Transaction,
        _ => Stop::Statement,
    }
}
