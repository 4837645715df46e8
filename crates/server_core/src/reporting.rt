// Reports of computers.
ghost use Rattle.std.specs.Prelude.{◌≡◌, ◌++◌, ◌∷◌, [], if◌then◌else◌, true, All, IfOk, IfSome, IsErrOf, OnOk};
ghost use Rattle.sha2.specs.Sha256.{sha256};
ghost use Rattle.report_text.specs.ReportRows.{IsReportRow};
ghost use Rattle.report_text.specs.Reports.{IsReport, report_text};
ghost use Rattle.desk_keep.specs.Calls.{IfTold, OnlyReads};
ghost use Rattle.desk_keep.specs.Forms.{Fits};
ghost use Rattle.server_text.specs.Entries.{Reported};
ghost use Rattle.server_core.specs.Replies.{full_of_reports, known_report, reply_to};
ghost use Rattle.server_core.specs.AcceptedTables.{has_later, puts, result_of};
ghost use Rattle.server_core.specs.ServerParts.{Learns, Takes, is_plain};

use crate::keeping::put;
use crate::limits::Limits;
use crate::looking::{count_of, has_row, row_of};
use crate::stop::Stop;
use desk_keep::{Change, Changes, Find, Keeper, ReportRow, ResultRow, Table};
use report_text::Report;
use server_text::Reply;
use std::alloc::{AllocError, Global};

/// Keeps a report, the text of which has this digest, if it is accepted.
pub(crate) fn keep_report<K: Keeper>(
    alloc: Global,
    keeper: &mut K,
    limits: Limits,
    report: &Report,
    digest: [u8; 32],
) -> Result<Reply, Stop>
    requires good { IsReport report.now }
    requires digest { digest ≡ sha256 (report_text report.now) }
    ensures { Takes limits (Reported report.now) (K.told keeper.old) result (K.told keeper.new) }
{
    let find = Find::Report(report.computer.copy()?, report.seq);
    let Some(Change::Report { digest: kept, .. }) = row_of(keeper, &find)? else {
        return keep_new_report(alloc, keeper, limits, report, digest);
    };
    Ok(known_report(kept, digest))
}

/// Keeps a report of which none is kept of its computer and number, if there is room.
fn keep_new_report<K: Keeper>(
    alloc: Global,
    keeper: &mut K,
    limits: Limits,
    report: &Report,
    digest: [u8; 32],
) -> Result<Reply, Stop>
    requires good { IsReport report.now }
    requires digest { digest ≡ sha256 (report_text report.now) }
    requires fresh { IfTold (K.told keeper.old).rows
        (λ rows. reply_to limits rows (Reported report.now) ≡ full_of_reports limits rows report.now) }
    ensures { Takes limits (Reported report.now) (K.told keeper.old) result (K.told keeper.new) }
{
    if let Some(full) = full_of_reports(keeper, limits, report)? {
        return Ok(full);
    }
    let batch = rows_of(alloc, keeper, report, digest)?;
    put(keeper, batch.as_slice())?;
    Ok(Reply::Ok)
}

/// The reply to a report with this digest, where that one is kept of its computer and number.
fn known_report(kept: [u8; 32], digest: [u8; 32]) -> Reply
    ensures { result ≡ known_report kept digest }
{
    if kept == digest {
        Reply::Again
    } else {
        Reply::Conflict(kept)
    }
}

/// Full, where no further report of its computer is taken.
fn full_of_reports<K: Keeper>(
    keeper: &mut K,
    limits: Limits,
    report: &Report,
) -> Result<Option<Reply>, Stop>
    ensures plain { IfOk result (λ reply. IfSome reply (λ reply. is_plain reply ≡ true)) }
    ensures learns { Learns (λ rows. full_of_reports limits rows report.now) (K.told keeper.old) result (K.told keeper.new) }
{
    let known = has_row(keeper, &Find::Computer(report.computer.copy()?))?;
    if !known && limits.computers <= count_of(keeper, Table::Computers)? {
        return Ok(Some(Reply::Full(limits.computers)));
    }
    if limits.reports <= count_of(keeper, Table::Reports)? {
        return Ok(Some(Reply::Full(limits.reports)));
    }
    Ok(None)
}

/// The rows that a report puts: its computer, its digest, and those results of its rows that are later than the kept ones.
fn rows_of<K: Keeper>(
    alloc: Global,
    keeper: &mut K,
    report: &Report,
    digest: [u8; 32],
) -> Result<Changes, Stop>
    requires good { IsReport report.now }
    requires digest { digest ≡ sha256 (report_text report.now) }
    ensures fit { IfOk result (λ batch. All Fits batch) }
    ensures learns { Learns (λ rows. puts rows (Reported report.now)) (K.told keeper.old) result (K.told keeper.new) }
{
    let mut batch = Changes::new(alloc);
    batch.push(Change::Computer(report.computer.copy()?))?;
    batch.push(Change::Report {
        computer: report.computer.copy()?,
        seq: report.seq,
        digest,
    })?;
    for row in report.rows.as_slice() {
        push_later(keeper, report, row, &mut batch)?;
    }
    Ok(batch)
}

/// Appends the result of a report's row, where it is later than the kept one.
fn push_later<K: Keeper>(
    keeper: &mut K,
    report: &Report,
    row: &ReportRow,
    batch: &mut Changes,
) -> Result<(), Stop>
    requires good { IsReport report.now }
    requires row { IsReportRow report.now.form row.now }
    ensures fit { OnOk result (All Fits batch.old → All Fits batch.new) }
    ensures pushed { OnOk result (IfTold (K.told keeper.old).rows (λ rows. batch.new ≡ batch.old
        ++ (if has_later rows report.now row.now then result_of report.now row.now ∷ [] else []))) }
    ensures only { OnlyReads (IsErrOf result Stop.Keeper) (K.told keeper.old) (K.told keeper.new) }
{
    if has_later(keeper, report, row)? {
        batch.push(result_of(report, row)?)?;
    }
    Ok(())
}

/// Whether the result of a report's row is later than the kept one, if one is kept.
fn has_later<K: Keeper>(keeper: &mut K, report: &Report, row: &ReportRow) -> Result<bool, Stop>
    ensures { Learns (λ rows. has_later rows report.now row.now) (K.told keeper.old) result (K.told keeper.new) }
{
    let find = Find::Result(report.computer.copy()?, row.action);
    match row_of(keeper, &find)? {
        Some(Change::Result(kept)) => Ok(kept.seq < report.seq),
        _ => Ok(true),
    }
}

fn result_of(report: &Report, row: &ReportRow) -> Result<Change, AllocError>
    ensures { IfOk result (λ change. change ≡ result_of report.now row.now) }
{
    Ok(Change::Result(ResultRow {
        computer: report.computer.copy()?,
        row: *row,
        seq: report.seq,
    }))
}
