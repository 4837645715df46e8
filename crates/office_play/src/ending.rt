// What is printed at the end.
ghost use Rattle.std.specs.Prelude.{◌≡◌, ◌<◌, ◌^◌, List, [], ◌∷◌, ◌++◌, length, flat_map, codes, IfOk, OnOk};
ghost use Rattle.desk_keep.specs.declared.result_row.ResultRow.{ResultRow};
ghost use Rattle.server_text.specs.Entries.{Entry};
ghost use Rattle.office_rules.specs.Endings.{count_lines, ending_text, outbox_counts, queue_counts, results_of, row_count, sum_line};
ghost use Rattle.office_rules.specs.OfficeLines.{count_line, result_line};
ghost use Rattle.office_play.specs.Ending.{IsSum, counted_line};
ghost use Rattle.office_play.specs.Kept.{AreRowsOf, office_of};
ghost use Rattle.office_play.specs.States.{kept_of};

use crate::line::{Word, say_words};
use crate::office::Office;
use act_rules::Outcome;
use bf_world::TextMap;
use desk_base::Bytes;
use desk_keep::{Change, Counted, Keeper, Listed, ResultRow, SureKeeper, Table};
use report_text::outcome_field;
use std::alloc::AllocError;

/// How results are spread over the outcomes.
#[derive(Clone, Copy)]
struct Sum {
    fixed: u64,
    failed: u64,
    running: u64,
    interrupted: u64,
}

impl Office {
    /// Says how it all ended.
    pub(crate) fn say_end(&mut self, out: &mut Bytes) -> Result<(), AllocError>
        ensures { OnOk result ((accepted : List Entry) → AreRowsOf accepted (kept_of self.old).rows
            → out.new ≡ out.old ++ ending_text (office_of accepted (kept_of self.old))) }
    {
        say_rows("computers", Table::Computers, &mut self.keeper, out)?;
        say_rows("reports", Table::Reports, &mut self.keeper, out)?;
        let sum = say_results(&mut self.keeper, out)?;
        self.say_queues(out)?;
        self.say_outboxes(out)?;
        say_sum(sum, out)
    }

    /// Says how many reports each relay queues.
    fn say_queues(&self, out: &mut Bytes) -> Result<(), AllocError>
        ensures { OnOk result (out.new ≡ out.old ++ count_lines (codes "queue") (queue_counts (kept_of self.now).relays)) }
    {
        let mut counts = TextMap::new(self.alloc);
        let relays = self.relays.as_slice();
        // backwards, since of two of one name the first would count
        for at in (0..relays.len()).rev() {
            let relay = &relays[at];
            let count = relay.relay.queue().len() as u64;
            counts.put(self.alloc, relay.name.as_str(), count)?;
        }
        say_counts("queue", &counts, out)
    }

    /// Says how many reports each agent shows.
    fn say_outboxes(&self, out: &mut Bytes) -> Result<(), AllocError>
        ensures { OnOk result (out.new ≡ out.old ++ count_lines (codes "outbox") (outbox_counts (kept_of self.now).computers)) }
    {
        let mut counts = TextMap::new(self.alloc);
        let computers = self.computers.as_slice();
        for at in (0..computers.len()).rev() {
            let computer = &computers[at];
            let count = computer.agent.outbox().len() as u64;
            counts.put(self.alloc, computer.name.as_str(), count)?;
        }
        say_counts("outbox", &counts, out)
    }
}

/// Says how many rows a table has.
fn say_rows(
    word: &str,
    table: Table,
    keeper: &mut SureKeeper,
    out: &mut Bytes,
) -> Result<(), AllocError>
    ensures lines { OnOk result (out.new ≡ out.old ++ count_line (word.now ∷ []) (row_count table keeper.old)) }
    ensures rows { keeper.new ≡ keeper.old }
{
    match keeper.count(table) {
        Counted::Rows(count) => say_words(&[Word::Text(word), Word::Number(count)], out),
        // a keeper that can't fail
        Counted::Failed => unreachable!(),
        Counted::Memory => Err(AllocError),
    }
}

/// Says each result, and answers how they are spread.
fn say_results(keeper: &mut SureKeeper, out: &mut Bytes) -> Result<Sum, AllocError>
    ensures lines { OnOk result (out.new ≡ out.old ++ flat_map result_line (results_of keeper.old)) }
    ensures sum { IfOk result (λ sum. IsSum sum (results_of keeper.old)) }
    ensures rows { keeper.new ≡ keeper.old }
{
    let rows = match keeper.list(Table::Results) {
        Listed::Changes(rows) => rows,
        Listed::Failed => unreachable!(),
        Listed::Memory => return Err(AllocError),
    };
    let mut sum = Sum {
        fixed: 0,
        failed: 0,
        running: 0,
        interrupted: 0,
    };
    for row in rows.as_slice() {
        let Change::Result(kept) = row else {
            unreachable!();
        };
        say_result(kept, out)?;
        sum = with_result(sum, kept);
    }
    Ok(sum)
}

/// Says a result.
fn say_result(kept: &ResultRow, out: &mut Bytes) -> Result<(), AllocError>
    ensures { OnOk result (out.new ≡ out.old ++ result_line kept.now) }
{
    say_words(
        &[
            Word::Text("result"),
            Word::Text(kept.computer.as_str()),
            Word::Number(kept.row.action),
            Word::Number(u64::from(kept.row.number)),
            Word::Bytes(outcome_field(kept.row.end)),
            Word::Number(kept.seq),
        ],
        out,
    )
}

/// The sum with one result more.
fn with_result(sum: Sum, kept: &ResultRow) -> Sum
    ensures { (results : List ResultRow) → length results < 2 ^ 63 → IsSum sum results → IsSum result (results ++ kept.now ∷ []) }
{
    match kept.row.end {
        None => Sum {
            running: sum.running.saturating_add(1),
            ..sum
        },
        Some((_, Outcome::Fixed)) => Sum {
            fixed: sum.fixed.saturating_add(1),
            ..sum
        },
        Some((_, Outcome::Failed)) => Sum {
            failed: sum.failed.saturating_add(1),
            ..sum
        },
        Some((_, Outcome::Interrupted)) => Sum {
            interrupted: sum.interrupted.saturating_add(1),
            ..sum
        },
    }
}

/// Says counts, in byte order of the names.
fn say_counts<'a>(
    word: &'a str,
    counts: &'a TextMap<u64>,
    out: &mut Bytes,
) -> Result<(), AllocError>
    ensures { OnOk result (out.new ≡ out.old ++ flat_map (counted_line word.now) counts.now) }
{
    for (name, count) in counts.iter() {
        say_words(
            &[
                Word::Text(word),
                Word::Text(name.as_str()),
                Word::Number(*count),
            ],
            out,
        )?;
    }
    Ok(())
}

/// Says how the results are spread.
fn say_sum(sum: Sum, out: &mut Bytes) -> Result<(), AllocError>
    ensures { OnOk result ((results : List ResultRow) → IsSum sum results → out.new ≡ out.old ++ sum_line results) }
{
    say_words(
        &[
            Word::Text("sum"),
            Word::Text("fixed"),
            Word::Number(sum.fixed),
            Word::Text("failed"),
            Word::Number(sum.failed),
            Word::Text("running"),
            Word::Number(sum.running),
            Word::Text("interrupted"),
            Word::Number(sum.interrupted),
        ],
        out,
    )
}
