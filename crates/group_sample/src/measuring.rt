ghost use Rattle.std.specs.Prelude.{ℕ, ◌<◌, ◌-◌, ◌^◌, List, [], ◌∷◌, ◌++◌, filter, IfOk, IfSome, OnOk};
ghost use Rattle.desk_base.specs.Counts.{CountsIf};
ghost use Rattle.bf_machine.specs.Rises.{CountsFailed};
ghost use Rattle.bf_machine.specs.Views.{OnlyLooks};
ghost use Rattle.group_text.specs.declared.property.Property.{Property};
ghost use Rattle.group_text.specs.Properties.{IsQuestion};
ghost use Rattle.group_sample.specs.Drawing.{none_drawn};
ghost use Rattle.group_sample.specs.Due.{AreMoments, CanBeMeasured, is_due};
ghost use Rattle.group_sample.specs.Rows.{IsRowOf, IsBareScene};
ghost use Rattle.group_sample.specs.Samples.{Measures};

use crate::drawing::draw;
use crate::moments::is_due;
use crate::sample::Sampled;
use bf_machine::Machine;
use bf_world::TextMap;
use group_text::Property;
use rel_eval::prepare;
use rel_inspect::Scene;
use std::alloc::{AllocError, Global};

/// What was measured: the rows, and how many properties failed.
#[derive(Drop)]
pub(crate) struct Measured {
    pub(crate) rows: Vec<Sampled>,
    pub(crate) failed: u32,
}

/// Measures those of the properties that are due, in their order. The error is want of memory, here and below.
pub(crate) fn measure_all<M: Machine>(
    alloc: Global,
    properties: &[Property],
    moments: &TextMap<i64>,
    machine: &mut M,
    scene: &Scene,
) -> Result<Measured, AllocError>
    requires properties { CanBeMeasured properties.now }
    requires moments { AreMoments moments.now }
    requires scene { IsBareScene scene.now }
    ensures measures { IfOk result (λ measured. Measures (IsRowOf (M.told machine.old).world scene.now.moment scene.now.offset)
        (filter (is_due moments.now scene.now.moment) properties.now) measured.rows.items measured.failed) }
    ensures counts { IfOk result (λ measured. CountsFailed measured.failed (M.told machine.old).faults (M.told machine.new).faults) }
    ensures looks { OnlyLooks (M.told machine.old) (M.told machine.new) }
{
    let mut measured = Measured {
        rows: Vec::new(alloc),
        failed: 0,
    };
    for property in properties {
        measured.measure(alloc, property, moments, machine, scene)?;
    }
    Ok(measured)
}

impl Measured {
    /// Measures one property more, if it is due.
    fn measure<M: Machine>(
        &mut self,
        alloc: Global,
        property: &Property,
        moments: &TextMap<i64>,
        machine: &mut M,
        scene: &Scene,
    ) -> Result<(), AllocError>
        requires few { self.old.failed < 2 ^ 32 - 1 }
        requires question { IsQuestion property.now.question }
        requires moments { AreMoments moments.now }
        requires scene { IsBareScene scene.now }
        ensures measures { OnOk result ((done : List Property)
            → Measures (IsRowOf (M.told machine.old).world scene.now.moment scene.now.offset) done self.old.rows.items self.old.failed
            → Measures (IsRowOf (M.told machine.old).world scene.now.moment scene.now.offset)
            (done ++ filter (is_due moments.now scene.now.moment) (property.now ∷ [])) self.new.rows.items self.new.failed) }
        ensures counts { OnOk result ((first : ℕ) → CountsFailed self.old.failed first (M.told machine.old).faults
            → CountsFailed self.new.failed first (M.told machine.new).faults) }
        ensures looks { OnlyLooks (M.told machine.old) (M.told machine.new) }
    {
        if !is_due(moments, property, scene) {
            return Ok(());
        }
        match measure(alloc, property, machine, scene)? {
            Some(row) => {
                self.rows.push(row)?;
                Ok(())
            }
            None => {
                self.failed += 1;
                Ok(())
            }
        }
    }
}

/// The row of a property, or None where a look failed.
fn measure<M: Machine>(
    alloc: Global,
    property: &Property,
    machine: &mut M,
    scene: &Scene,
) -> Result<Option<Sampled>, AllocError>
    requires question { IsQuestion property.now.question }
    requires scene { IsBareScene scene.now }
    ensures row { IfOk result (λ answer. IfSome answer
        (IsRowOf (M.told machine.old).world scene.now.moment scene.now.offset property.now)) }
    ensures cause { CountsIf (none_drawn result) (M.told machine.old).faults (M.told machine.new).faults }
    ensures looks { OnlyLooks (M.told machine.old) (M.told machine.new) }
{
    // No question of a property is refused, so an error is want of memory.
    let Ok(question) = prepare(alloc, property.question.as_str().as_bytes()) else {
        return Err(AllocError);
    };
    let Some(drawn) = draw(alloc, &question, machine, scene)? else {
        return Ok(None);
    };
    Ok(Some(Sampled {
        property: property.name.copy()?,
        moment: scene.moment,
        values: drawn.values,
        error: drawn.error,
    }))
}
