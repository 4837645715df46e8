ghost use Rattle.std.specs.Prelude.{◌≡◌, ℤ, List, Some};
ghost use Rattle.bf_machine.specs.Views.{MachineView};
ghost use Rattle.bf_world.specs.Worlds.{WorldState};
ghost use Rattle.group_text.specs.declared.property.Property.{Property};
ghost use Rattle.group_sample.specs.declared.analyst.Taken.{Taken};
ghost use Rattle.group_sample.specs.Due.{AnalystState};
ghost use Rattle.group_sample.specs.Samples.{HasNotFailed, Takes};

/// What an analyst takes of a machine that tells its world is one thing, where no look fails and memory suffices.
pub fn one_sample()
    ensures { (w : WorldState) (old new other : MachineView) (analyst after otherwise : AnalystState) (properties : List Property)
        (moment offset : ℤ) (answer another : Taken) → old.world ≡ Some w → Takes old analyst properties moment offset answer new after
        → Takes old analyst properties moment offset another other otherwise → HasNotFailed answer → HasNotFailed another
        → (answer ≡ another) × (after ≡ otherwise) }
{}
