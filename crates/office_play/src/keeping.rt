// The words `analysis` and `group`.
ghost use Rattle.std.specs.Prelude.{◌≡◌, ◌≢◌, [], ◌∷◌, ◌++◌, codes, OnOk};
ghost use Rattle.group_core.specs.declared.book.Added.TheVariants as added;
ghost use Rattle.group_core.specs.declared.book.Defined.TheVariants as defined;
ghost use Rattle.group_text.specs.Properties.{AreProperties};
ghost use Rattle.office_rules.specs.GroupWords.{KeepsAnalysis, KeepsGroup, added_words, defined_words};
ghost use Rattle.office_rules.specs.OfficeLines.{about_line};
ghost use Rattle.office_play.specs.Links.{IsGoodOffice, KeepsNames};
ghost use Rattle.office_play.specs.Played.{Plays};
ghost use Rattle.office_play.specs.States.{kept_of};

use crate::line::{Word, say_about};
use crate::office::Office;
use desk_base::Bytes;
use group_core::{Added, Analysis, Defined, Group};
use std::alloc::AllocError;

impl Office {
    /// The book gets an analysis.
    pub(crate) fn keep_analysis(
        &mut self,
        analysis: &Analysis,
        out: &mut Bytes,
    ) -> Result<(), AllocError>
        requires good { IsGoodOffice (kept_of self.old) }
        requires properties { AreProperties analysis.now.properties }
        ensures plays { OnOk result (Plays (KeepsAnalysis analysis.now) (kept_of self.old) out.old (kept_of self.new) out.new) }
        ensures names { OnOk result (KeepsNames (kept_of self.old) (kept_of self.new)) }
    {
        let answer = self.book.add(analysis);
        say_added(&answer, out)
    }

    /// The book gets a group.
    pub(crate) fn keep_group(&mut self, group: &Group, out: &mut Bytes) -> Result<(), AllocError>
        requires { IsGoodOffice (kept_of self.old) }
        ensures plays { OnOk result (Plays (KeepsGroup group.now) (kept_of self.old) out.old (kept_of self.new) out.new) }
        ensures names { OnOk result (KeepsNames (kept_of self.old) (kept_of self.new)) }
    {
        let answer = self.book.define(group);
        say_defined(answer, out)
    }
}

/// Says what became of an analysis.
fn say_added(answer: &Added, out: &mut Bytes) -> Result<(), AllocError>
    ensures said { OnOk result (out.new ≡ out.old ++ about_line (codes "analysis" ∷ []) (added_words answer.now)) }
    ensures memory { OnOk result (answer.now ≢ added.Memory) }
{
    let word = [Word::Text("analysis")];
    match answer {
        Added::Ok => say_about(&word, &[Word::Text("ok")], out),
        Added::Again => say_about(&word, &[Word::Text("again")], out),
        Added::Taken(name) => say_about(
            &word,
            &[Word::Text("taken"), Word::Text(name.as_str())],
            out,
        ),
        Added::Full(limit) => say_about(&word, &[Word::Text("full"), Word::Number(*limit)], out),
        Added::Memory => Err(AllocError),
    }
}

/// Says what became of a group.
fn say_defined(answer: Defined, out: &mut Bytes) -> Result<(), AllocError>
    ensures said { OnOk result (out.new ≡ out.old ++ about_line (codes "group" ∷ []) (defined_words answer)) }
    ensures memory { OnOk result (answer ≢ defined.Memory) }
{
    let word = [Word::Text("group")];
    match answer {
        Defined::Ok => say_about(&word, &[Word::Text("ok")], out),
        Defined::Again => say_about(&word, &[Word::Text("again")], out),
        Defined::Full(limit) => say_about(&word, &[Word::Text("full"), Word::Number(limit)], out),
        Defined::Memory => Err(AllocError),
    }
}
