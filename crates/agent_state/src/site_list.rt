ghost use Rattle.std.specs.Prelude.{◌≡◌, [], map, OnOk, OnErr};
ghost use Rattle.fix_site.specs.Sites.{IsSite};
ghost use Rattle.std.specs.List.{filter_map, position};
ghost use Rattle.std.specs.Option.{option_map};
ghost use Rattle.std.specs.Str.{bytes_eq};
ghost use Rattle.agent_attempt.specs.ReadBlocks.{shown_block};
ghost use Rattle.agent_attempt.specs.ActionContents.{actions_of, as_action, content_of, site_at};
ghost use Rattle.agent_attempt.specs.FoundContents.{shown_if};
ghost use Rattle.agent_state.specs.Changes.{kept_version, with_site};
ghost use Rattle.agent_state.specs.Lookups.{FindsSite};

use agent_attempt::{Content, ReadBlock, ReadSite};
use fix_site::Action;
use std::alloc::{AllocError, Global};
use std::marker::Model;

/// The name of the site that has the actions.
pub const ACTION_SITE: &str = "actionsite";

/// Gathered sites, one of each name. Contracts see the list of them.
#[derive(Drop)]
pub struct SiteList {
    sites: Vec<ReadSite>,
    /// Where what each block of the site of actions runs stands in its own site, as far as that is known.
    places: Vec<usize>,
}

impl Model for SiteList {
    ghost use Rattle.std.specs.Prelude.{List};
    ghost use Rattle.fix_site.specs.declared.site.Site.{Site};
    ghost use Rattle.agent_state.specs.States.{AreGathered};

    ghost Value = { List Site };

    ghost view = { λ s. s.sites.items };

    ghost invariant = { λ s. AreGathered s.sites.items };
}

impl SiteList {
    /// No site.
    pub fn new(alloc: Global) -> SiteList
        ensures { result ≡ [] }
    {
        SiteList {
            sites: Vec::new(alloc),
            places: Vec::new(alloc),
        }
    }

    /// The site of this name, if it is gathered.
    pub fn get(&self, name: &str) -> Option<&ReadSite>
        ensures { FindsSite name.now self.now result }
    {
        site_of(self.sites.as_slice(), name)
    }

    /// The version of the site of this name, 0 where it isn't gathered.
    pub fn version(&self, name: &str) -> u64
        ensures { result ≡ kept_version (site_at name.now self.now) }
    {
        match self.get(name) {
            Some(site) => site.version(),
            None => 0,
        }
    }

    /// Keeps the site, in the place of one of its name. At an error, want of memory, nothing has changed.
    pub fn put(&mut self, site: ReadSite) -> Result<(), AllocError>
        requires { IsSite site }
        ensures ok { OnOk result (self.new ≡ with_site site self.old) }
        ensures err { OnErr result (self.new ≡ self.old) }
    {
        self.keep(site)?;
        self.find_places();
        Ok(())
    }

    /// Keeps the site, in the place of one of its name. At an error nothing has changed.
    fn keep(&mut self, site: ReadSite) -> Result<(), AllocError>
        requires { IsSite site }
        ensures ok { OnOk result (self.new ≡ with_site site self.old) }
        ensures err { OnErr result (self.new ≡ self.old) }
    {
        match place_of(self.sites.as_slice(), site.name()) {
            Some(place) => {
                self.sites[place] = site;
                Ok(())
            }
            None => Ok(self.sites.push(site)?),
        }
    }

    /// Finds where the contents of the actions stand, so that a turn needn't. Where there is no memory for that, none is known.
    fn find_places(&mut self)
        ensures { self.new ≡ self.old }
    {
        self.places = match self.content_places() {
            Ok(places) => places,
            Err(_) => Vec::new(*self.sites.allocator()),
        };
    }

    /// Where the contents of the actions stand.
    fn content_places(&self) -> Result<Vec<usize>, AllocError> {
        let mut places = Vec::new(*self.sites.allocator());
        for block in self.actions() {
            places.push(self.content_place(block))?;
        }
        Ok(places)
    }

    /// Where the content of the action of a block stands, 0 where there is none.
    fn content_place(&self, block: &ReadBlock) -> usize {
        let ReadBlock::Action(action) = block else {
            return 0;
        };
        let action = action.action();
        match self.get(action.site.as_str()) {
            Some(site) => site.place(action.content),
            None => 0,
        }
    }

    /// The blocks of the gathered site that has the actions: its actions, in ascending order of ids.
    pub fn actions(&self) -> &[ReadBlock]
        ensures { filter_map as_action (map shown_block result.now) ≡ actions_of self.now }
    {
        match self.get(ACTION_SITE) {
            Some(site) => site.blocks(),
            None => &[],
        }
    }

    /// What an action runs, if it is gathered.
    pub fn content(&self, action: &Action) -> Option<Content<'_>>
        ensures { shown_if result ≡ content_of action.now self.now }
    {
        self.get(action.site.as_str())?.content(action.content)
    }

    /// What an action runs, if it is gathered. It is found soonest where the action is that of the block at this place.
    pub fn content_near(&self, action: &Action, place: usize) -> Option<Content<'_>>
        ensures { shown_if result ≡ content_of action.now self.now }
    {
        let near = match self.places.as_slice().get(place) {
            Some(near) => *near,
            None => 0,
        };
        self.get(action.site.as_str())?
            .content_near(action.content, near)
    }
}

/// The site of this name.
fn site_of<'a>(sites: &'a [ReadSite], name: &str) -> Option<&'a ReadSite>
    ensures { option_map (λ site. site.now) result ≡ site_at name.now sites.now }
{
    sites.iter().find(|site| site.name() == name)
}

/// The place of the site of this name.
fn place_of(sites: &[ReadSite], name: &str) -> Option<usize>
    ensures { result ≡ position (λ site. bytes_eq site.name name.now) sites.now }
{
    sites.iter().position(|site| site.name() == name)
}
