ghost use Rattle.std.specs.Prelude.{◌≡◌, IfOk, OnErr};
ghost use Rattle.desk_base.specs.Moments.{IsMoment};
ghost use Rattle.line_forms.specs.Numbers.{IsOffset};
ghost use Rattle.bf_machine.specs.Views.{OnlyLooks};
ghost use Rattle.group_sample.specs.Due.{CanBeMeasured, due_of, new_analyst};
ghost use Rattle.group_sample.specs.Rows.{IsBareScene};
ghost use Rattle.group_sample.specs.Samples.{GivesSample, HasSome, Takes};

use crate::measuring::measure_all;
use crate::moments::{is_any_due, with_rows};
use crate::sample::{Sample, SampledRows};
use bf_machine::Machine;
use bf_world::TextMap;
use group_text::Property;
use line_forms::LAST_ID;
use rel_inspect::{Pairs, Scene};
use rel_lexer::Text;
use std::alloc::{AllocError, Global};
use std::marker::Model;

/// What an analyst answers.
#[derive(Drop)]
pub enum Taken {
    /// What was measured.
    Sample(Sample),
    /// No property is due, or the number 2^53 was used.
    Nothing,
    /// Want of memory. The analyst is as it was.
    Memory,
}

/// Who measures properties on one computer. Contracts see its computer, the number of its last sample and when it last had a row of each
/// property.
#[derive(Drop)]
pub struct Analyst {
    computer: Text,
    /// The number of the last sample, 0 before the first.
    last: u64,
    /// When each property last had a row.
    moments: TextMap<i64>,
}

impl Model for Analyst {
    ghost use Rattle.std.specs.Prelude.{◌≤◌, List, ℕ, ℤ};
    ghost use Rattle.group_sample.specs.Due.{AnalystState, IsAnalyst};

    ghost Value = { AnalystState };

    ghost view = { λ a. record { computer = a.computer; last = a.last; moments = a.moments } };

    ghost invariant = { λ a. IsAnalyst a.last a.moments };
}

impl Analyst {
    /// An analyst of this computer, which has given no sample. The error is want of memory.
    pub fn new(alloc: Global, computer: &Text) -> Result<Analyst, AllocError>
        ensures { IfOk result (λ analyst. analyst ≡ new_analyst computer.now) }
    {
        Ok(Analyst {
            computer: computer.copy()?,
            last: 0,
            moments: TextMap::new(alloc),
        })
    }

    /// Measures those of the properties that are due, each by its question on the machine, at a moment and an offset in minutes east of
    /// UTC, from -840 to 840. A property is due where no sample of this analyst has a row of it, or where its period is over since the
    /// last one. One at whose question a look fails has no row, and stays due.
    pub fn take<M: Machine>(
        &mut self,
        alloc: Global,
        properties: &[Property],
        machine: &mut M,
        moment: i64,
        offset: i64,
    ) -> Taken
        requires properties { CanBeMeasured properties.now }
        requires moment { IsMoment moment }
        requires offset { IsOffset offset }
        ensures takes { Takes (M.told machine.old) self.old properties.now moment offset result (M.told machine.new) self.new }
        ensures looks { OnlyLooks (M.told machine.old) (M.told machine.new) }
    {
        if self.last >= LAST_ID {
            return Taken::Nothing;
        }
        let scene = Scene {
            moment,
            offset,
            parameters: Pairs::new(alloc),
            exit: None,
        };
        if !is_any_due(&self.moments, properties, &scene) {
            return Taken::Nothing;
        }
        match self.sample(alloc, properties, machine, &scene) {
            Ok(sample) => Taken::Sample(sample),
            Err(_) => Taken::Memory,
        }
    }

    /// Measures what is due. An error leaves the analyst as it was.
    fn sample<M: Machine>(
        &mut self,
        alloc: Global,
        properties: &[Property],
        machine: &mut M,
        scene: &Scene,
    ) -> Result<Sample, AllocError>
        requires properties { CanBeMeasured properties.now }
        requires moment { IsMoment scene.now.moment }
        requires scene { IsBareScene scene.now }
        requires some { HasSome self.old (due_of self.old scene.now.moment properties.now) }
        ensures gives { IfOk result (λ sample. GivesSample (M.told machine.old) self.old
            (due_of self.old scene.now.moment properties.now) scene.now.moment scene.now.offset sample (M.told machine.new) self.new) }
        ensures err { OnErr result (self.new ≡ self.old) }
        ensures looks { OnlyLooks (M.told machine.old) (M.told machine.new) }
    {
        let measured = measure_all(alloc, properties, &self.moments, machine, scene)?;
        let moments = with_rows(alloc, &self.moments, measured.rows.as_slice())?;
        let computer = self.computer.copy()?;
        self.moments = moments;
        self.last += 1;
        Ok(Sample {
            computer,
            seq: self.last,
            rows: SampledRows::from_vec(measured.rows),
            failed: measured.failed,
        })
    }
}
