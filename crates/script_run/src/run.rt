ghost use Rattle.std.specs.Prelude.{◌≡◌, ◌↔◌, ℕ, List, [], ◌∷◌, ◌++◌, IfOk, IsTrue, Option, Some, None, true, false};
ghost use Rattle.rel_sources.specs.declared.pair.Pair.{Pair};
ghost use Rattle.script_text.specs.Readings.{shown_script};
ghost use Rattle.script_text.specs.Scripts.{PlainScript};
ghost use Rattle.script_run.specs.Walks.{Known, Settled, supplied, Rest};
ghost use Rattle.script_run.specs.LineWalks.{fetching};
ghost use Rattle.script_run.specs.Asking.{known_in};
ghost use Rattle.script_run.specs.RunPlaces.{Stands, WaitsBelow, wanted_at, place_walk, around, from};
ghost use Rattle.script_run.specs.ScriptWalks.{exit_after};

use crate::Cause;
use crate::kept::Kept;
use crate::place::Place;
use crate::todo::Todo;
use desk_base::Bytes;
use rel_inspect::Pairs;
use script_text::{Prefetch, Script, statements_show_each};
use std::alloc::{AllocError, Global};
use std::collections::VecDeque;
use std::mem;

/// A script that runs: where it stands, and what is left of it.
#[derive(Drop)]
pub struct Run {
    pub(crate) place: Place,
    /// What is left of the list at hand.
    pub(crate) current: Todo,
    /// What is left of the lists around it, the innermost first.
    pub(crate) later: VecDeque<Todo>,
    pub(crate) kept: Kept,
}

impl Run {
    /// A run that stands before the first line of a script, with these parameters. The error is want of memory.
    pub fn open(alloc: Global, script: Script, parameters: Pairs) -> Result<Run, AllocError>
        ensures stands { IfOk result (λ run. Stands (shown_script script) parameters run []) }
        ensures waits { IfOk result (λ run. (started : ℕ) → WaitsBelow started run.place) }
        ensures wanted { IfOk result (λ run. wanted_at run.place ≡ None) }
    {
        // Proof: statements that were taken out of their list are walked through as the list is.
        statements_show_each();
        let kept = Kept::new(alloc, parameters)?;
        let mut later = VecDeque::new(alloc);
        later.push_front(Todo::Statements {
            list: VecDeque::from(script.statements.into_vec()),
        })?;
        Ok(Run {
            place: Place::Ready,
            current: Todo::Fetches {
                list: VecDeque::from(script.prefetches.into_vec()),
            },
            later,
            kept,
        })
    }

    /// The exit code of the last program that was waited for, None where there is none yet. Takes no memory.
    pub fn exit(&self) -> Option<i64>
        ensures { (script : PlainScript) (given : List Pair) (settled : List Settled)
            → Stands script given self.now settled → result ≡ exit_after script given settled }
    {
        self.kept.exit()
    }

    /// Takes what came for the file of a digest, its SHA-256: its bytes, or None where it isn't served. It is false where the last
    /// answer didn't want that file, or it came already. Takes no memory.
    pub fn supply(&mut self, digest: &[u8; 32], bytes: Option<Bytes>) -> bool
        ensures wanted { IsTrue result ↔ (wanted_at self.old.place ≡ Some digest.now) }
        ensures taken { result ≡ true → (script : PlainScript) (given : List Pair) (settled : List Settled)
            → Stands script given self.old settled → Stands script given self.new (settled ++ supplied bytes ∷ []) }
        ensures came { result ≡ true → wanted_at self.new.place ≡ None }
        ensures other { result ≡ false → self.new ≡ self.old }
        ensures waits { (started : ℕ) → WaitsBelow started self.old.place → WaitsBelow started self.new.place }
    {
        match mem::replace(&mut self.place, Place::Ready) {
            Place::Wanting { fetch } => self.take(fetch, digest, bytes),
            other => {
                self.place = other;
                false
            }
        }
    }

    /// Takes what came for the file that is wanted, where it is this one.
    fn take(&mut self, fetch: Prefetch, digest: &[u8; 32], bytes: Option<Bytes>) -> bool
        requires ready { self.old.place ≡ Place.Ready }
        ensures wanted { IsTrue result ↔ (fetch.sha256 ≡ digest.now) }
        ensures taken { result ≡ true → (more : List Settled)
            → fetching fetch (around self.old) (known_in self.old.kept.scene) (supplied bytes ∷ more) ≡ from self.new more }
        ensures came { result ≡ true → wanted_at self.new.place ≡ None }
        ensures other { result ≡ false → self.new ≡ record self.old { place = Place.Wanting fetch } }
        ensures waits { (started : ℕ) → WaitsBelow started self.new.place }
    {
        if fetch.sha256 != *digest {
            self.place = Place::Wanting { fetch };
            return false;
        }
        self.place = arrived(fetch, bytes);
        true
    }
}

/// The place behind what came for a file.
fn arrived(fetch: Prefetch, bytes: Option<Bytes>) -> Place
    ensures walk { (rest : Rest) (known : Known) (more : List Settled)
        → fetching fetch rest known (supplied bytes ∷ more) ≡ place_walk result rest known more }
    ensures came { wanted_at result ≡ None }
    ensures waits { (started : ℕ) → WaitsBelow started result }
{
    match bytes {
        Some(bytes) => Place::Supplied { fetch, bytes },
        None => Place::Failed {
            line: fetch.line,
            midway: true,
            cause: Cause::NotServed(fetch.sha256),
        },
    }
}
