// The keeper that the program hands in: tables in a file of SQLite.
use desk_sql::{Opening, SqlKeeper};
use desk_top::finds_keeper;
use rel_lexer::Text;
use sqlite_file::SqliteFile;

/// A keeper of no file yet. Its file is made where it is missing, unless the words ask of what is kept.
pub(crate) fn keeper<'a>(rt: &'a HostRuntime, words: &[Text]) -> SqlKeeper<'a, SqliteFile> {
    SqlKeeper::new(rt, opening(words))
}

fn opening(words: &[Text]) -> Opening {
    if finds_keeper(words) {
        return Opening::Find;
    }
    Opening::Make
}

/// Closes its file, so that this alone holds all. A fault of that is told on standard error.
pub(crate) fn close(keeper: &mut SqlKeeper<'_, SqliteFile>) {
    let _ = keeper.close();
}
