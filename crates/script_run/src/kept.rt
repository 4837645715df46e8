ghost use Rattle.std.specs.Prelude.{◌≡◌, pos, [], ◌∷◌, ◌++◌, None, Some, is_some, IfOk, OnOk, OnErr};
ghost use Rattle.desk_base.specs.Moments.{IsMoment};
ghost use Rattle.line_forms.specs.Numbers.{IsOffset};
ghost use Rattle.rel_sources.specs.Scenes.{value_of};
ghost use Rattle.script_run.specs.Parameters.{Names};

use rel_inspect::{Pairs, Scene};
use rel_lexer::Text;
use std::alloc::{AllocError, Global};
use std::collections::BTreeSet;

/// What a script knows: its parameters, which are looked up by name, the last exit code, and when it goes on.
#[derive(Drop)]
pub struct Kept {
    pub(crate) scene: Scene,
    /// The names of the parameters.
    names: BTreeSet<String>,
    ghost named: { Names names scene.parameters },
}

impl Kept {
    /// These parameters and no exit code. The error is want of memory.
    pub(crate) fn new(alloc: Global, parameters: Pairs) -> Result<Kept, AllocError>
        ensures { IfOk result (λ kept. kept.scene
            ≡ record { moment = pos 0; offset = pos 0; parameters = parameters; exit = None }) }
    {
        let names = names_of(alloc, &parameters)?;
        let scene = Scene {
            moment: 0,
            offset: 0,
            parameters,
            exit: None,
        };
        Ok(Kept { scene, names })
    }

    /// Whether there is a parameter of this name.
    pub(crate) fn has(&self, name: &str) -> bool
        ensures { result ≡ is_some (value_of name.now self.now.scene.parameters) }
    {
        self.names.contains(name)
    }

    /// The moment at which the script goes on.
    pub(crate) fn moment(&self) -> i64
        ensures same { result ≡ self.now.scene.moment }
        ensures is_moment { IsMoment result }
    {
        self.scene.moment
    }

    /// The last exit code, if there was one.
    pub(crate) fn exit(&self) -> Option<i64>
        ensures { result ≡ self.now.scene.exit }
    {
        self.scene.exit
    }

    /// When the script goes on: the moment, and the offset in minutes east of UTC.
    pub(crate) fn set_time(&mut self, moment: i64, offset: i64)
        requires moment { IsMoment moment }
        requires offset { IsOffset offset }
        ensures { self.new.scene ≡ record self.old.scene { moment = moment; offset = offset } }
    {
        self.scene.moment = moment;
        self.scene.offset = offset;
    }

    /// A program that was waited for has ended with this code.
    pub(crate) fn set_exit(&mut self, code: i64)
        ensures { self.new.scene ≡ record self.old.scene { exit = Some code } }
    {
        self.scene.exit = Some(code);
    }

    /// A parameter has this value from then on. The error is want of memory, and nothing is changed.
    pub(crate) fn add(&mut self, alloc: Global, name: Text, value: Text) -> Result<(), AllocError>
        requires { value_of name self.old.scene.parameters ≡ None }
        ensures ok { OnOk result (self.new.scene
            ≡ record self.old.scene { parameters = self.old.scene.parameters ++ record { name = name; value = value } ∷ [] }) }
        ensures err { OnErr result (self.new.scene ≡ self.old.scene) }
    {
        let kept = name.copy()?;
        self.names.insert(String::from_str(alloc, name.as_str())?)?;
        if self.scene.parameters.push(name, value).is_err() {
            self.names.remove(kept.as_str());
            return Err(AllocError);
        }
        Ok(())
    }
}

/// The names of parameters. The error is want of memory.
fn names_of(alloc: Global, parameters: &Pairs) -> Result<BTreeSet<String>, AllocError>
    ensures { IfOk result (λ names. Names names parameters.now) }
{
    let mut names = BTreeSet::new(alloc);
    for pair in parameters.as_slice() {
        names.insert(String::from_str(alloc, pair.name.as_str())?)?;
    }
    Ok(names)
}
