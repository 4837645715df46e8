use crate::database::{Database, ask};
use crate::schema::first_number;
use crate::stop::Stop;
use crate::table_texts::{TABLES, table_texts};
use desk_keep::Table;

/// How many rows each table has, by its place in their order.
pub(crate) fn table_counts<D: Database>(base: &mut D) -> Result<[u64; 6], Stop> {
    let mut counts = [0u64; 6];
    for table in TABLES {
        counts[usize::from(table.number())] = table_count(base, *table)?;
    }
    Ok(counts)
}

/// How many rows a table has. That it has all its columns is found out by asking for them.
fn table_count<D: Database>(base: &mut D, table: Table) -> Result<u64, Stop> {
    let texts = table_texts(table);
    let _ = ask(base, texts.find, texts.no_key)?;
    let count = first_number(base, texts.count)?;
    u64::try_from(count).map_err(|_| Stop::OtherForm)
}
