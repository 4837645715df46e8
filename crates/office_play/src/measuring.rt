// The word `measure`.
ghost use Rattle.std.specs.Prelude.{◌≡◌, IfOk, OnOk};
ghost use Rattle.desk_base.specs.Moments.{IsMoment};
ghost use Rattle.group_sample.specs.Due.{CanBeMeasured};
ghost use Rattle.office_rules.specs.GroupWords.{Measures, MeasuresComputer, PutsTaken, rows_taken};
ghost use Rattle.office_play.specs.Links.{IsGoodOffice, IsNamed, KeepsNames};
ghost use Rattle.office_play.specs.Measuring.{HasRows, taken_of};
ghost use Rattle.office_play.specs.Played.{Plays};
ghost use Rattle.office_play.specs.States.{kept_of, shown_computer};

use crate::computer::PlayedComputer;
use crate::line::{Word, say_about};
use crate::office::Office;
use desk_base::Bytes;
use group_core::{Book, Property, PutAnswer, Sample, Taken};
use rel_lexer::Text;
use std::alloc::{AllocError, Global};

impl Office {
    /// A computer is measured at a moment, and what was taken is put into the book.
    pub(crate) fn measure(
        &mut self,
        name: &Text,
        moment: i64,
        out: &mut Bytes,
    ) -> Result<(), AllocError>
        requires good { IsGoodOffice (kept_of self.old) }
        requires name { IsNamed name.now (kept_of self.old).computers }
        requires moment { IsMoment moment }
        ensures plays { OnOk result (Plays (Measures name.now moment) (kept_of self.old) out.old (kept_of self.new) out.new) }
        ensures names { OnOk result (KeepsNames (kept_of self.old) (kept_of self.new)) }
    {
        let place = self.computer_place(name);
        let properties = self.book.properties();
        let taken = self.computers[place].measure(self.alloc, properties, moment)?;
        let rows = put_taken(&mut self.book, taken)?;
        say_about(
            &[
                Word::Text("measure"),
                Word::Text(name.as_str()),
                Word::Signed(moment),
            ],
            &[Word::Number(rows), Word::Text("rows")],
            out,
        )
    }
}

impl PlayedComputer {
    /// A sample of those of the properties that are due at a moment, if there is one.
    fn measure(
        &mut self,
        alloc: Global,
        properties: &[Property],
        moment: i64,
    ) -> Result<Option<Sample>, AllocError>
        requires properties { CanBeMeasured properties.now }
        requires moment { IsMoment moment }
        ensures measures { IfOk result (λ taken. MeasuresComputer moment properties.now (shown_computer self.old.1) (taken_of taken)
            (shown_computer self.new.1)) }
        ensures rows { IfOk result HasRows }
        ensures name { self.new.0 ≡ self.old.0 }
    {
        self.machine.begin_anew();
        let offset = self.machine.world().offset();
        match self
            .analyst
            .take(alloc, properties, &mut self.machine, moment, offset)
        {
            Taken::Sample(sample) => Ok(Some(sample)),
            Taken::Nothing => Ok(None),
            Taken::Memory => Err(AllocError),
        }
    }
}

/// Puts what was taken into the book, and says how many rows that has.
fn put_taken(book: &mut Book, taken: Option<Sample>) -> Result<u64, AllocError>
    requires { HasRows taken }
    ensures puts { IfOk result (λ rows. PutsTaken book.old (taken_of taken) book.new) }
    ensures rows { IfOk result (λ rows. rows ≡ rows_taken (taken_of taken)) }
{
    let Some(sample) = taken else {
        return Ok(0);
    };
    match book.put(&sample) {
        PutAnswer::Changed(_) => Ok(sample.rows.as_slice().len() as u64),
        PutAnswer::Memory => Err(AllocError),
    }
}
