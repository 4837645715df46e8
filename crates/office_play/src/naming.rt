// The words `relay` and `computer`.
ghost use Rattle.std.specs.Prelude.{◌≡◌, [], ◌∷◌, OnOk, None};
ghost use Rattle.line_forms.specs.Names.{IsName};
ghost use Rattle.delivery.specs.Messages.{named};
ghost use Rattle.office_rules.specs.ComputerWords.{NamesComputer};
ghost use Rattle.office_rules.specs.RelayWords.{NamesRelay};
ghost use Rattle.office_play.specs.Links.{AddsNames, IsGoodOffice, IsNamed};
ghost use Rattle.office_play.specs.Played.{Plays};
ghost use Rattle.office_play.specs.States.{kept_of};

use crate::computer::{PlayedComputer, two_worlds};
use crate::office::Office;
use crate::relay::PlayedRelay;
use bf_machine::World;
use desk_base::Bytes;
use rel_lexer::Text;
use relay_core::Relay;
use std::alloc::AllocError;

impl Office {
    /// A relay of this name begins.
    pub(crate) fn add_relay(&mut self, name: Text, out: &mut Bytes) -> Result<(), AllocError>
        requires good { IsGoodOffice (kept_of self.old) }
        requires name { IsName name }
        requires free { named name (kept_of self.old).relays ≡ None }
        ensures plays { OnOk result (Plays (NamesRelay name) (kept_of self.old) out.old (kept_of self.new) out.new) }
        ensures names { OnOk result (AddsNames (name ∷ []) [] (kept_of self.old) (kept_of self.new)) }
    {
        let place = self.relays.len();
        self.relay_places.put(self.alloc, name.as_str(), place)?;
        self.relays.push(PlayedRelay {
            name,
            relay: Relay::of_the_desk(self.alloc),
        })?;
        Ok(())
    }

    /// A computer of this name begins at a relay, in a world.
    pub(crate) fn add_computer(
        &mut self,
        name: Text,
        relay: Text,
        world: World,
        out: &mut Bytes,
    ) -> Result<(), AllocError>
        requires good { IsGoodOffice (kept_of self.old) }
        requires name { IsName name }
        requires free { named name (kept_of self.old).computers ≡ None }
        requires relay { IsNamed relay (kept_of self.old).relays }
        ensures plays { OnOk result (Plays (NamesComputer name relay world) (kept_of self.old) out.old (kept_of self.new) out.new) }
        ensures names { OnOk result (AddsNames [] (name ∷ []) (kept_of self.old) (kept_of self.new)) }
    {
        let place = self.computers.len();
        self.computer_places.put(self.alloc, name.as_str(), place)?;
        let worlds = two_worlds(self.alloc, world)?;
        let computer = PlayedComputer::new(self.alloc, name, relay, worlds)?;
        self.computers.push(computer)?;
        Ok(())
    }
}
