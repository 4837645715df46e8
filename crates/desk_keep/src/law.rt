ghost use Rattle.std.specs.Prelude.{◌≡◌, ◌+◌, ◌&&◌, List, Some, is_none, true, if◌then◌else◌, count_by, All};
ghost use Rattle.desk_keep.specs.declared.change.Change.{Change};
ghost use Rattle.desk_keep.specs.declared.table.Table.{Table};
ghost use Rattle.desk_keep.specs.Keys.{Key, key_of, same_key};
ghost use Rattle.desk_keep.specs.Forms.{Fits};
ghost use Rattle.desk_keep.specs.Tables.{put, put_all, row_at, is_of, AreRows};

/// Keys that compare as the same are one.
pub fn one_key()
    ensures { (key other : Key) → same_key key other ≡ true → key ≡ other }
{}

/// Rows stay in order and in their forms when a batch is put.
pub fn rows_stay_rows()
    ensures { (batch rows : List Change) → All Fits batch → AreRows rows → AreRows (put_all batch rows) }
{}

/// A row that was put is found at its key, and each other key has what it had.
pub fn a_row_is_found_where_it_was_put()
    ensures { (key : Key) (row : Change) (rows : List Change)
        → row_at key (put row rows) ≡ (if same_key key (key_of row) then Some row else row_at key rows) }
{}

/// A table has one row more where a row of a new key is put.
pub fn a_new_row_is_counted()
    ensures { (table : Table) (row : Change) (rows : List Change) → AreRows rows
        → count_by (is_of table) (put row rows)
        ≡ count_by (is_of table) rows + (if is_of table row && is_none (row_at (key_of row) rows) then 1 else 0) }
{}
