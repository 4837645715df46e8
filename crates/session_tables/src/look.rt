// What a look shows of the tables, and the calls of the keeper that it takes.
ghost use Rattle.std.specs.Prelude.{◌≡◌, [], IfOk, IfSome, codes, filter, map, pos, true};
ghost use Rattle.bf_world.specs.Answers.{HasAscendingNames, IsGoodAnswer};
ghost use Rattle.bf_world.specs.Places.{node_at};
ghost use Rattle.bf_world.specs.Shown.{read_of, shown, stat_of};
ghost use Rattle.bf_world.specs.Sound.{IsSoundNode};
ghost use Rattle.desk_keep.specs.Tables.{is_of, is_result_of, without_text};
ghost use Rattle.session_tables.specs.Inside.{Learns, named_entry, with_names};
ghost use Rattle.session_tables.specs.Paths.{is_shown, node_of, path_of};
ghost use Rattle.session_tables.specs.Worlds.{tables_world};

use crate::entries::{root_entries, row_entries};
use crate::looking::{has_row, results_of, row_of, rows_of, versions_of};
use crate::result_text::result_text;
use crate::spot::{Spot, spot_of};
use crate::stop::Stop;
use bf_machine::{Answer, Key, NameList, PackageList, SettingList};
use bf_world::Node;
use desk_base::Bytes;
use desk_keep::{Change, Find, Keeper, Table};
use rel_lexer::Text;
use std::alloc::{AllocError, Global};

/// What is shown at a key.
pub(crate) fn show<K: Keeper>(alloc: Global, keeper: &mut K, key: &Key) -> Result<Answer, Stop>
    ensures learns { Learns (λ rows. shown (tables_world rows) key.now) (K.told keeper.old) result (K.told keeper.new) }
    ensures good { IfOk result IsGoodAnswer }
    ensures ascending { IfOk result HasAscendingNames }
{
    match key {
        Key::Stat(path) => stat(alloc, keeper, path.as_str()),
        Key::List(path) => list(alloc, keeper, path.as_str()),
        Key::Read(path) => read(alloc, keeper, path.as_str()),
        Key::System => Ok(system(alloc)?),
        Key::ComputerName => Ok(Answer::Name(Text::from_str(alloc, "server")?)),
        Key::Processes => Ok(Answer::Names(NameList::from_vec(Vec::new(alloc)))),
        Key::Packages => Ok(Answer::Packages(PackageList::from_vec(Vec::new(alloc)))),
        Key::Settings => Ok(Answer::Settings(SettingList::from_vec(Vec::new(alloc)))),
    }
}

/// What file or folder is at a path.
fn stat<K: Keeper>(alloc: Global, keeper: &mut K, path: &str) -> Result<Answer, Stop>
    ensures learns { Learns (λ rows. shown (tables_world rows) (Key.Stat path.now)) (K.told keeper.old) result (K.told keeper.new) }
    ensures good { IfOk result IsGoodAnswer }
    ensures ascending { IfOk result HasAscendingNames }
{
    Ok(stat_of(node_at(alloc, keeper, path)?))
}

/// The bytes of the file at a path, if one is there.
fn read<K: Keeper>(alloc: Global, keeper: &mut K, path: &str) -> Result<Answer, Stop>
    ensures learns { Learns (λ rows. shown (tables_world rows) (Key.Read path.now)) (K.told keeper.old) result (K.told keeper.new) }
    ensures good { IfOk result IsGoodAnswer }
    ensures ascending { IfOk result HasAscendingNames }
{
    Ok(read_of(node_at(alloc, keeper, path)?))
}

/// What a file or a folder is.
fn stat_of(node: Option<Node>) -> Answer
    ensures { result ≡ stat_of node }
{
    match node {
        None => Answer::Nothing,
        Some(Node::Folder) => Answer::Folder,
        Some(Node::File { content, modified }) => Answer::File {
            size: content.as_slice().len() as i64,
            modified,
        },
    }
}

/// The bytes of a file.
fn read_of(node: Option<Node>) -> Answer
    ensures { result ≡ read_of node }
{
    match node {
        None => Answer::Nothing,
        Some(Node::Folder) => Answer::Nothing,
        Some(Node::File { content, .. }) => Answer::Content(content),
    }
}

/// What is at a path. What is there whatever the rows are is told without the keeper.
fn node_at<K: Keeper>(alloc: Global, keeper: &mut K, path: &str) -> Result<Option<Node>, Stop>
    ensures learns { Learns (λ rows. node_at (tables_world rows) path.now) (K.told keeper.old) result (K.told keeper.new) }
    ensures sound { IfOk result (λ node. IfSome node IsSoundNode) }
{
    match spot_of(alloc, path)? {
        Spot::Root => Ok(Some(Node::Folder)),
        Spot::Actions => Ok(Some(Node::Folder)),
        Spot::Computers => Ok(Some(Node::Folder)),
        Spot::Sites => Ok(Some(Node::Folder)),
        Spot::Row(find) => row_node(alloc, keeper, &find),
        Spot::Nowhere => Ok(None),
    }
}

/// What the row of a key that is shown is shown as, if there is one.
fn row_node<K: Keeper>(alloc: Global, keeper: &mut K, find: &Find) -> Result<Option<Node>, Stop>
    requires { is_shown find.now ≡ true }
    ensures learns { Learns (λ rows. node_at (tables_world rows) (path_of find.now)) (K.told keeper.old) result (K.told keeper.new) }
    ensures sound { IfOk result (λ node. IfSome node IsSoundNode) }
{
    let Some(row) = row_of(keeper, find)? else {
        return Ok(None);
    };
    Ok(Some(node_of(alloc, row)?))
}

/// What a row is shown as.
fn node_of(alloc: Global, row: Change) -> Result<Node, AllocError>
    ensures is { IfOk result (λ node. node ≡ node_of row) }
    ensures sound { IfOk result IsSoundNode }
{
    match row {
        Change::Site { text, .. } => Ok(file(text)),
        Change::Action { text, .. } => Ok(file(text)),
        Change::Result(last) => Ok(file(result_text(alloc, &last)?)),
        Change::File { .. } => Ok(Node::Folder),
        Change::Computer(_) => Ok(Node::Folder),
        Change::Report { .. } => Ok(Node::Folder),
    }
}

/// A file of the tables.
fn file(content: Bytes) -> Node
    ensures is { result ≡ Node.File content (pos 0) }
    ensures sound { IsSoundNode result }
{
    Node::File {
        content,
        modified: 0,
    }
}

/// The entries of the folder at a path, if one is there.
fn list<K: Keeper>(alloc: Global, keeper: &mut K, path: &str) -> Result<Answer, Stop>
    ensures learns { Learns (λ rows. shown (tables_world rows) (Key.List path.now)) (K.told keeper.old) result (K.told keeper.new) }
    ensures good { IfOk result IsGoodAnswer }
    ensures ascending { IfOk result HasAscendingNames }
{
    match spot_of(alloc, path)? {
        Spot::Root => Ok(root_entries(alloc)?),
        Spot::Actions => list_table(alloc, keeper, Table::Actions),
        Spot::Computers => list_table(alloc, keeper, Table::Computers),
        Spot::Sites => list_sites(alloc, keeper),
        Spot::Row(find) => list_row(alloc, keeper, &find),
        Spot::Nowhere => Ok(Answer::Nothing),
    }
}

/// The entries of what the row of a key that is shown is shown as: the results of a computer, where it is there. Any other row is a file.
fn list_row<K: Keeper>(alloc: Global, keeper: &mut K, find: &Find) -> Result<Answer, Stop>
    requires { is_shown find.now ≡ true }
    ensures learns { Learns (λ rows. shown (tables_world rows) (Key.List (path_of find.now)))
        (K.told keeper.old) result (K.told keeper.new) }
    ensures good { IfOk result IsGoodAnswer }
    ensures ascending { IfOk result HasAscendingNames }
{
    let Find::Computer(name) = find else {
        return Ok(Answer::Nothing);
    };
    let there = has_row(keeper, find)?;
    if !there {
        return Ok(Answer::Nothing);
    }
    list_results(alloc, keeper, name)
}

/// The entries of the rows of a table.
fn list_table<K: Keeper>(alloc: Global, keeper: &mut K, table: Table) -> Result<Answer, Stop>
    ensures learns { Learns (λ rows. Answer.Entries (map named_entry (with_names (filter (is_of table) rows) [])))
        (K.told keeper.old) result (K.told keeper.new) }
    ensures good { IfOk result IsGoodAnswer }
    ensures ascending { IfOk result HasAscendingNames }
{
    let rows = rows_of(keeper, table)?;
    Ok(row_entries(alloc, rows)?)
}

/// The entries of the sites.
fn list_sites<K: Keeper>(alloc: Global, keeper: &mut K) -> Result<Answer, Stop>
    ensures learns { Learns (λ rows. Answer.Entries (map named_entry (with_names (map without_text (filter (is_of Table.Sites) rows)) [])))
        (K.told keeper.old) result (K.told keeper.new) }
    ensures good { IfOk result IsGoodAnswer }
    ensures ascending { IfOk result HasAscendingNames }
{
    let rows = versions_of(keeper)?;
    Ok(row_entries(alloc, rows)?)
}

/// The entries of a computer's results.
fn list_results<K: Keeper>(alloc: Global, keeper: &mut K, computer: &Text) -> Result<Answer, Stop>
    ensures learns { Learns (λ rows. Answer.Entries (map named_entry (with_names (filter (is_result_of computer.now) rows) [])))
        (K.told keeper.old) result (K.told keeper.new) }
    ensures good { IfOk result IsGoodAnswer }
    ensures ascending { IfOk result HasAscendingNames }
{
    let rows = results_of(keeper, computer)?;
    Ok(row_entries(alloc, rows)?)
}

/// The operating system of the world of the tables.
fn system(alloc: Global) -> Result<Answer, AllocError>
    ensures is { IfOk result (λ answer. answer ≡ Answer.System (codes "desk") (codes "1")) }
    ensures good { IfOk result IsGoodAnswer }
    ensures ascending { IfOk result HasAscendingNames }
{
    Ok(Answer::System {
        name: Text::from_str(alloc, "desk")?,
        version: Text::from_str(alloc, "1")?,
    })
}
