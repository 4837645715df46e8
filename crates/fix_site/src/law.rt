// What holds of every site and action. The body of a law calls the laws that its proof stands on.
ghost use Rattle.std.specs.Prelude.{◌≡◌, ◌≢◌, ◌≤◌, ◌⊎◌, ℕ, List, Result, length, All};
ghost use Rattle.fix_site.specs.declared.action.Action.{Action};
ghost use Rattle.fix_site.specs.declared.site.Site.{Site};
ghost use Rattle.fix_site.specs.declared.error.SiteError.{SiteError};
ghost use Rattle.fix_site.specs.declared.error.SiteError.TheVariants.{Memory};
ghost use Rattle.fix_site.specs.Actions.{IsAction, action_text};
ghost use Rattle.fix_site.specs.Sites.{IsSite, site_lines, site_text};
ghost use Rattle.fix_site.specs.Answers.{IsShort, ReadsAction, ReadsSite};
ghost use Rattle.fix_site.specs.Pieces.{IsPieceOf, pieces_of};

use line_forms::lines_are_read_again;

/// A text is read as a site in one way, unless memory runs out.
pub fn one_reading()
    ensures { (text : List ℕ) (answer other : Result Site SiteError) → answer ≢ Err Memory → other ≢ Err Memory
        → ReadsSite text answer → ReadsSite text other → answer ≡ other }
{
    lines_are_read_again();
}

/// A site that is read has no more lines than its text may have bytes.
pub fn a_site_has_few_lines()
    ensures { (text : List ℕ) (site : Site) → ReadsSite text (Ok site) → length (site_lines site) ≤ 4194304 }
{}

/// A text is that of one site at most.
pub fn one_site()
    ensures { (site other : Site) → IsSite site → IsSite other
        → site_text site ≡ site_text other → site ≡ other }
{
    lines_are_read_again();
}

/// What was written of a site is read again where it isn't too long, or want of memory stands in its place.
pub fn a_site_is_read_again()
    ensures { (site : Site) (answer : Result Site SiteError) → IsSite site → IsShort (site_text site)
        → ReadsSite (site_text site) answer → (answer ≡ Ok site) ⊎ (answer ≡ Err Memory) }
{
    lines_are_read_again();
}

/// A text is that of one action at most.
pub fn one_action()
    ensures { (action other : Action) → IsAction action → IsAction other
        → action_text action ≡ action_text other → action ≡ other }
{
    lines_are_read_again();
}

/// What was written of an action is read again where it isn't too long, or want of memory stands in its place.
pub fn an_action_is_read_again()
    ensures { (action : Action) (answer : Result Action SiteError) → IsAction action
        → IsShort (action_text action) → ReadsAction (action_text action) answer
        → (answer ≡ Ok action) ⊎ (answer ≡ Err Memory) }
{
    lines_are_read_again();
}

/// Each piece of a site stands in the site's lines where it says.
pub fn a_piece_stands_at_its_line()
    ensures { (site : Site) → All (IsPieceOf (site_lines site)) (pieces_of site) }
{}
