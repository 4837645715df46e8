// What the tests are made of, and what they show.
ghost use Rattle.std.specs.Prelude.{IfOk, IfSome};
ghost use Rattle.desk_base.specs.Moments.{IsMoment};
ghost use Rattle.group_text.specs.Properties.{AreProperties};
ghost use Rattle.group_sample.specs.Samples.{AreRows};

use bf_machine::{PlainMachine, read_world};
use group_sample::{Analyst, Sample, Taken};
use group_text::{Analysis, read_analysis};
use rel_lexer::Text;
use std::alloc::Global;
use std::test::Fail;

/// A machine, and an analyst that measured nothing before.
#[derive(Drop)]
pub(crate) struct Bench {
    machine: PlainMachine,
    analyst: Analyst,
}

impl Bench {
    /// The machine of a world, of which the looks with these numbers fail.
    pub(crate) fn new(alloc: Global, world: &[u8], fails: &[u32]) -> Result<Bench, Fail> {
        Ok(Bench {
            machine: machine(alloc, world, fails)?,
            analyst: Analyst::new(alloc, &Text::from_str(alloc, "pc1")?)?,
        })
    }

    /// The sample that the analyst takes of the properties, if it takes one.
    fn take(
        &mut self,
        alloc: Global,
        analysis: &Analysis,
        moment: i64,
    ) -> Result<Option<Sample>, Fail>
        requires properties { AreProperties analysis.now.properties }
        requires moment { IsMoment moment }
        ensures { IfOk result (λ sample. IfSome sample (λ sample. AreRows sample.rows)) }
    {
        let properties = analysis.properties.as_slice();
        if properties.len() > 100 {
            return Err("too many properties".into());
        }
        match self
            .analyst
            .take(alloc, properties, &mut self.machine, moment, 0)
        {
            Taken::Sample(sample) => Ok(Some(sample)),
            Taken::Nothing => Ok(None),
            Taken::Memory => Err("no memory".into()),
        }
    }

    /// That sample, which it is to take.
    pub(crate) fn sample(
        &mut self,
        alloc: Global,
        analysis: &Analysis,
        moment: i64,
    ) -> Result<Sample, Fail>
        requires properties { AreProperties analysis.now.properties }
        requires moment { IsMoment moment }
        ensures { IfOk result (λ sample. AreRows sample.rows) }
    {
        match self.take(alloc, analysis, moment)? {
            Some(sample) => Ok(sample),
            None => Err("no sample".into()),
        }
    }

    /// The number of that sample, 0 if it takes none.
    fn number(&mut self, alloc: Global, analysis: &Analysis, moment: i64) -> Result<u64, Fail>
        requires properties { AreProperties analysis.now.properties }
        requires moment { IsMoment moment }
    {
        match self.take(alloc, analysis, moment)? {
            Some(sample) => Ok(sample.seq),
            None => Ok(0),
        }
    }

    /// The number of the sample that is taken at the second moment, after one at the first.
    pub(crate) fn second_number(
        &mut self,
        alloc: Global,
        analysis: &Analysis,
        first: i64,
        second: i64,
    ) -> Result<u64, Fail>
        requires properties { AreProperties analysis.now.properties }
        requires first { IsMoment first }
        requires second { IsMoment second }
    {
        if self.number(alloc, analysis, first)? != 1 {
            return Err("no first sample".into());
        }
        self.number(alloc, analysis, second)
    }
}

/// The machine of a world, of which the looks with these numbers fail.
fn machine(alloc: Global, text: &[u8], fails: &[u32]) -> Result<PlainMachine, Fail> {
    let Ok(world) = read_world(alloc, text) else {
        return Err("no world".into());
    };
    let looks = Vec::from_slice(alloc, fails)?;
    Ok(PlainMachine::new(alloc, world, looks, Vec::new(alloc), Vec::new(alloc)))
}

pub(crate) fn analysis(alloc: Global, text: &[u8]) -> Result<Analysis, Fail>
    ensures { IfOk result (λ analysis. AreProperties analysis.properties) }
{
    match read_analysis(alloc, text) {
        Ok(analysis) => Ok(analysis),
        Err(_) => Err("no analysis".into()),
    }
}

/// The rows of a sample in a line each, the property, its values between bars, and `!` where it has an error; then how many failed.
pub(crate) fn text_of(alloc: Global, sample: &Sample) -> Result<Vec<u8>, Fail> {
    let mut text = Vec::new(alloc);
    for row in sample.rows.as_slice() {
        text.extend_from_slice(row.property.as_str().as_bytes())?;
        text.push(b'|')?;
        for value in row.values.as_slice() {
            text.extend_from_slice(value.as_str().as_bytes())?;
            text.push(b'|')?;
        }
        if row.error {
            text.push(b'!')?;
        }
        text.push(b'\n')?;
    }
    text.push(b'0' + (sample.failed % 10) as u8)?;
    Ok(text)
}
