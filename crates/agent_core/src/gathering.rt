// Gathering sites.
ghost use Rattle.std.specs.Prelude.{◌≡◌, ◌∷◌, [], ℕ, List, Option, OnOk, OnErr};
ghost use Rattle.fix_site.specs.Sites.{IsSite};
ghost use Rattle.agent_attempt.specs.ActionContents.{actions_of};
ghost use Rattle.agent_core.specs.Agents.{shown_state};
ghost use Rattle.agent_state.specs.Changes.{GathersSite, with_site, with_sites};
ghost use Rattle.agent_core.specs.Inside.{IsSoundKept, state_of};
ghost use Rattle.agent_core.specs.Stops.{BothLawful, HaveRules, Table};

use crate::agent::Agent;
use crate::kept_state::KeptState;
use agent_attempt::ReadSite;
use agent_state::{ACTION_SITE, Tallies};
use fix_site::Site;
use report_text::Gathered;
use std::alloc::{AllocError, Global};

impl Agent {
    /// Keeps a site, if its version is greater than that of the kept site of its name. Its texts are read here, once.
    pub fn gather(&mut self, alloc: Global, site: &Site) -> Gathered
        requires { IsSite site.now }
        ensures gathers { GathersSite (shown_state self.old) site.now result (shown_state self.new) }
        // Rules that the gathered actions had, and that those of the site have, the gathered actions have then.
        ensures rules { (table : Table) → HaveRules table (actions_of (site.now ∷ [])) → HaveRules table (actions_of self.old.sites)
            → HaveRules table (actions_of self.new.sites) }
        // Lawful rows stay lawful, the agent's and the saved ones.
        ensures lawful { (table : Table) (told : Option (Option (List ℕ))) → BothLawful table (shown_state self.old) told
            → BothLawful table (shown_state self.new) told }
    {
        self.kept.gather(alloc, site)
    }
}

impl KeptState {
    /// Keeps a site, if its version is greater than that of the kept site of its name.
    fn gather(&mut self, alloc: Global, site: &Site) -> Gathered
        requires site { IsSite site.now }
        requires sound { IsSoundKept self.old }
        ensures gathers { GathersSite (state_of self.old) site.now result (state_of self.new) }
        ensures sound { IsSoundKept self.new }
    {
        let kept = self.sites.version(site.name.as_str());
        if site.version <= kept {
            return Gathered::Older(kept);
        }
        match self.keep(alloc, site) {
            Ok(()) => Gathered::New,
            Err(_) => Gathered::Memory,
        }
    }

    /// Keeps a site in the place of one of its name. At an error, want of memory, nothing has changed.
    fn keep(&mut self, alloc: Global, site: &Site) -> Result<(), AllocError>
        requires site { IsSite site.now }
        requires sound { IsSoundKept self.old }
        ensures ok { OnOk result (state_of self.new ≡ with_sites (with_site site.now self.old.sites) (state_of self.old)) }
        ensures err { OnErr result (state_of self.new ≡ state_of self.old) }
        ensures sound { IsSoundKept self.new }
    {
        let read = ReadSite::read(alloc, site)?;
        if site.name.as_str() != ACTION_SITE {
            return self.sites.put(read);
        }
        let tallies = Tallies::of(alloc, read.blocks(), &self.histories, &self.tallies)?;
        self.sites.put(read)?;
        self.tallies = tallies;
        Ok(())
    }
}
