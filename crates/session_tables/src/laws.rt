// What holds of the world of the tables.
ghost use Rattle.std.specs.Prelude.{◌≡◌, ◌↔◌, true};
ghost use Rattle.desk_keep.specs.declared.change.Change.{Change};
ghost use Rattle.desk_keep.specs.Forms.{Fits};
ghost use Rattle.session_tables.specs.Paths.{HasPath, find_of, is_shown};

/// A row in its form is shown exactly where it has a path.
pub fn rows_with_paths_are_shown()
    ensures { (row : Change) → Fits row → (is_shown (find_of row) ≡ true) ↔ HasPath row }
{}
