// The word `restart`.
ghost use Rattle.std.specs.Prelude.{◌≡◌, IfOk, OnOk, Some};
ghost use Rattle.line_forms.specs.Names.{IsName};
ghost use Rattle.agent_core.specs.declared.opening.Opened.TheVariants as opened;
ghost use Rattle.agent_core.specs.Agents.{shown_state};
ghost use Rattle.agent_core.specs.Opens.{OpensAgent};
ghost use Rattle.agent_state.specs.States.{IsSound};
ghost use Rattle.office_rules.specs.ComputerWords.{Restarts};
ghost use Rattle.office_play.specs.Links.{IsGoodOffice, IsNamed, IsPocketOf, KeepsNames};
ghost use Rattle.office_play.specs.Played.{Plays};
ghost use Rattle.office_play.specs.States.{kept_of};

use crate::line::{Word, say_words};
use crate::office::Office;
use agent_core::{Agent, Opened, agents_are_sound, pockets_keep_own_texts, turns_are_steps};
use agent_text::SurePocket;
use desk_base::Bytes;
use rel_lexer::Text;
use std::alloc::{AllocError, Global};

impl Office {
    /// A computer's agent is opened again.
    pub(crate) fn restart(&mut self, name: &Text, out: &mut Bytes) -> Result<(), AllocError>
        requires good { IsGoodOffice (kept_of self.old) }
        requires name { IsNamed name.now (kept_of self.old).computers }
        ensures plays { OnOk result (Plays (Restarts name.now) (kept_of self.old) out.old (kept_of self.new) out.new) }
        ensures names { OnOk result (KeepsNames (kept_of self.old) (kept_of self.new)) }
    {
        // Proof: an agent that is opened has the mail that its pocket saved.
        turns_are_steps();
        let place = self.computer_place(name);
        let computer = &mut self.computers[place];
        let agent = opened(self.alloc, name, &mut computer.pocket)?;
        computer.agent = agent;
        say_words(&[Word::Text("restart"), Word::Text(name.as_str())], out)
    }
}

/// The agent of this name, from its own pocket.
pub(crate) fn opened(
    alloc: Global,
    name: &Text,
    pocket: &mut SurePocket,
) -> Result<Agent, AllocError>
    requires name { IsName name.now }
    requires pocket { IsPocketOf name.now pocket.old }
    ensures agent { IfOk result (λ agent. OpensAgent name.now (Some pocket.old) (opened.Agent agent)) }
    ensures sound { IfOk result (λ agent. IsSound (shown_state agent)) }
    ensures pocket { pocket.new ≡ pocket.old }
{
    // Proof: what an agent of the name saved is no bad pocket to one of that name.
    pockets_keep_own_texts();
    match Agent::open(alloc, name, pocket) {
        Opened::Agent(agent) => {
            // Proof: an agent is sound.
            agents_are_sound(&agent);
            Ok(agent)
        }
        // a pocket that can't fail, with what an agent of the name saved
        Opened::BadPocket(_) | Opened::PocketFault => unreachable!(),
        Opened::Memory => Err(AllocError),
    }
}
