// Which rows are shown.
ghost use Rattle.std.specs.Prelude.{◌≡◌};
ghost use Rattle.session_tables.specs.Paths.{is_name, is_shown_id, is_shown_name, is_shown_site};

use line_forms::{LAST_ID, read_name};

/// The site that is made of the actions, of which a keeper has the version alone.
const ACTIONSITE: &str = "actionsite";

/// Whether what has this name is shown: a name that is one part of a path.
#[tactic(auto, unfolding(crate::specs::Paths::is_shown_name))]
pub(crate) fn is_shown_name(text: &str) -> bool
    ensures { result ≡ is_shown_name text.now }
{
    is_name(text) && text != "." && text != ".."
}

fn is_name(text: &str) -> bool
    ensures { result ≡ is_name text.now }
{
    read_name(text.as_bytes()).is_some()
}

/// Whether the site of this name is shown.
#[tactic(auto, unfolding(crate::specs::Paths::is_shown_site))]
pub(crate) fn is_shown_site(name: &str) -> bool
    ensures { result ≡ is_shown_site name.now }
{
    is_shown_name(name) && name != ACTIONSITE
}

/// Whether what has this id is shown.
#[tactic(auto, unfolding(crate::specs::Paths::is_shown_id))]
pub(crate) fn is_shown_id(id: u64) -> bool
    ensures { result ≡ is_shown_id id }
{
    id >= 1 && id <= LAST_ID
}
