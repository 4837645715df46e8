// What holds of what relays do with sites.
ghost use Rattle.std.specs.Prelude.{◌≡◌, ◌≢◌};
ghost use Rattle.report_text.specs.declared.answer.Gathered.{Gathered};
ghost use Rattle.report_text.specs.declared.answer.Gathered.TheVariants as gathering;
ghost use Rattle.fix_site.specs.declared.site.Site.{Site};
ghost use Rattle.fix_site.specs.Sites.{IsSite};
ghost use Rattle.relay_core.specs.Relays.{RelayState};
ghost use Rattle.relay_core.specs.KeptSites.{AreKept, KeepsSite};

/// What comes of a site that a relay is to keep is one thing, but for want of memory, and its sites stay kept ones.
pub fn one_keeping()
    ensures one { (old new other : RelayState) (site : Site) (answer otherwise : Gathered) → AreKept old.sites
        → KeepsSite old site answer new → KeepsSite old site otherwise other → answer ≢ gathering.Memory → otherwise ≢ gathering.Memory
        → (answer ≡ otherwise) × (new ≡ other) }
    ensures kept { (old new : RelayState) (site : Site) (answer : Gathered) → AreKept old.sites → IsSite site
        → KeepsSite old site answer new → AreKept new.sites }
{}
