ghost use Rattle.std.specs.Prelude.{◌≡◌, IfOk, IfSome};
ghost use Rattle.sha2.specs.Sha256.{sha256};
ghost use Rattle.report_text.specs.Reports.{IsReport, most_report_bytes, report_text};

use crate::report::Report;
use crate::room_writer::fill_report;
use desk_base::{Bytes, Room};
use sha2::{Digest, Sha256};
use std::alloc::{AllocError, Global};

/// The most bytes of the first three lines and the last.
const LONGEST_HEAD: usize = 108;

/// The most bytes of the line of a row.
const LONGEST_ROW: usize = 113;

/// The most bytes of a report of so many rows. None where that is no number of the machine's.
pub fn report_size(rows: usize) -> Option<usize>
    ensures { IfSome result (λ most. most ≡ most_report_bytes rows) }
{
    LONGEST_HEAD.checked_add(LONGEST_ROW.checked_mul(rows)?)
}

/// The text of a report, by its form. The error is want of memory.
pub fn write_report(alloc: Global, report: &Report) -> Result<Bytes, AllocError>
    requires { IsReport report.now }
    ensures { IfOk result (λ text. text ≡ report_text report.now) }
{
    let rows = report.rows.as_slice().len();
    let mut room = Room::with_capacity(alloc, LONGEST_HEAD + LONGEST_ROW * rows)?;
    fill_report(report, &mut room);
    Ok(room.into_bytes())
}

/// The SHA-256 of the text of a report. The error is want of memory.
pub fn digest(alloc: Global, report: &Report) -> Result<[u8; 32], AllocError>
    requires { IsReport report.now }
    ensures { IfOk result (λ digest. digest ≡ sha256 (report_text report.now)) }
{
    let text = write_report(alloc, report)?;
    Ok(Sha256::digest(text.as_slice()))
}
