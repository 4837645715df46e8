// What holds of every run.
ghost use Rattle.std.specs.Prelude.{◌≡◌, ◌≢◌, ◌++◌, ◌∷◌, ◌⊎◌, ◌↔◌, ℕ, Bool, true, false, IsTrue, List, [], Option, Some, None};
ghost use Rattle.desk_base.specs.Counts.{Rose};
ghost use Rattle.bf_world.specs.Worlds.{WorldState};
ghost use Rattle.bf_machine.specs.Views.{MachineView};
ghost use Rattle.rel_sources.specs.declared.pair.Pair.{Pair};
ghost use Rattle.script_text.specs.Scripts.{PlainScript};
ghost use Rattle.script_run.specs.declared.cause.Cause.TheVariants.{MachineFault};
ghost use Rattle.script_run.specs.declared.ran.Ran.{Ran};
ghost use Rattle.script_run.specs.declared.ran.Ran.TheVariants as of_run;
ghost use Rattle.script_run.specs.declared.run.Run.{Run};
ghost use Rattle.script_run.specs.Walks.{Settled, supplied, faults_in, Fails, Walk, Wants};
ghost use Rattle.script_run.specs.ScriptWalks.{next, after, commands, commands_in};
ghost use Rattle.script_run.specs.Asking.{When};
ghost use Rattle.script_run.specs.RunPlaces.{Stands, wanted_at};
ghost use Rattle.script_run.specs.Advances.{Advances, GoesOn, wanted_by};
ghost use Rattle.script_run.specs.Courses.{Call, Going, Supplying, Reply, ran, taken, Point, beginning, Course, IsAmple, IsAt, Follows};

/// What a script has done after further results is what it had done before them, and what these did. So over a whole run the commands
/// of its advances, one after another, are those of the script for all its results.
pub fn commands_add_up()
    ensures { (script : PlainScript) (given : List Pair) (settled results : List Settled)
        → commands script given (settled ++ results) ≡ commands script given settled ++ commands_in (after script given settled) results }
{}

/// A line fails for a fault of the machine only where the machine counted one in this advance, or where the line had failed so before;
/// no script begins so, and none comes to it by a file that it wanted, or before anything of the line is settled. So who reads this
/// answer can look for the fault at the machine.
pub fn a_machine_fault_is_counted()
    ensures counted { (at : When) (script : PlainScript) (given : List Pair) (settled : List Settled) (old : MachineView) (line : ℕ)
        (new : MachineView) (left : Walk) → Advances at old (after script given settled) (of_run.Failed line MachineFault) new left
        → Rose old.faults new.faults ⊎ (next script given settled ≡ Fails line true MachineFault) }
    ensures begins { (script : PlainScript) (given : List Pair) (line : ℕ) (midway : Bool)
        → next script given [] ≢ Fails line midway MachineFault }
    ensures supplies { (script : PlainScript) (given : List Pair) (settled : List Settled) (wanting : ℕ) (digest : List ℕ)
        (bytes : Option (List ℕ)) (line : ℕ) (midway : Bool) → next script given settled ≡ Wants wanting digest
        → next script given (settled ++ supplied bytes ∷ []) ≢ Fails line midway MachineFault }
    ensures midway { (script : PlainScript) (given : List Pair) (settled : List Settled) (line : ℕ)
        → next script given settled ≢ Fails line false MachineFault }
{}

/// Where nothing fails and memory lasts, what a script comes to and what it answers is fixed by its lines and parameters and by the
/// calls: the moments and offsets at which it goes on, the worlds in which it finds its machine, and what is supplied.
pub fn one_course()
    ensures { (script : PlainScript) (given : List Pair) (calls : List Call) (xs ys : List Reply) (x y : Point)
        → Course script given beginning calls xs x → Course script given beginning calls ys y
        → faults_in x.settled ≡ 0 → faults_in y.settled ≡ 0 → IsAmple xs → IsAmple ys → (xs ≡ ys) × (x ≡ y) }
{}

/// What an advance promises makes it a step of the run's course, on a machine that tells its world. A run that was opened stands at the
/// beginning of its course, so that `one_course` speaks of whatever calls are made of it.
pub fn an_advance_follows_the_course()
    ensures { (at : When) (world : WorldState) (script : PlainScript) (given : List Pair) (old : Point) (before : MachineView)
        (answer : Ran) (left : MachineView) (new : Run) → before.world ≡ Some world
        → GoesOn at script given old.settled before answer left new → wanted_at new.place ≡ wanted_by answer
        → Follows script given old (Going at world) (ran answer) new }
{}

/// What a supply promises makes it a step of the run's course likewise.
pub fn a_supply_follows_the_course()
    ensures { (digest : List ℕ) (bytes : Option (List ℕ)) (script : PlainScript) (given : List Pair) (old : Point) (run : Run)
        (result : Bool) (new : Run) → IsAt script given run old → IsTrue result ↔ (wanted_at run.place ≡ Some digest)
        → (result ≡ true → Stands script given run old.settled → Stands script given new (old.settled ++ supplied bytes ∷ []))
        → (result ≡ true → wanted_at new.place ≡ None) → (result ≡ false → new ≡ run)
        → Follows script given old (Supplying digest bytes) (taken result) new }
{}
