ghost use Rattle.std.specs.Prelude.{◌≡◌, ◌+◌, ◌<◌, ◌^◌, [], ◌∷◌, drop, MatchOption, IfSome, IfOk};
ghost use Rattle.rel_sources.specs.Rows.{is_wanted, process_item, package_item, setting_item};
ghost use Rattle.rel_sources.specs.Sources.{members_left};
ghost use Rattle.rel_sources.specs.Draws.{item_in, Draws};
ghost use Rattle.rel_sources.specs.Members.{row_items};

use crate::held::{Drawn, HeldItem};
use bf_world::{NameList, PackageList, PackageRow, SettingList, SettingRow};
use rel_lexer::Text;
use rel_value::{Value, Version};
use std::alloc::AllocError;

/// What a machine has several of.
#[derive(Drop)]
pub enum Rows {
    Processes(NameList),
    Packages(PackageList),
    Settings(SettingList),
}

/// The members of a list, those of the wanted name where one is wanted.
#[derive(Drop)]
pub struct Members {
    wanted: Option<Text>,
    rows: Rows,
    next: usize,
}

impl Members {
    pub fn new(wanted: Option<Text>, rows: Rows) -> Members
        ensures { members_left result ≡ row_items wanted rows }
    {
        Members {
            wanted,
            rows,
            next: 0,
        }
    }

    pub fn draw(&mut self) -> Drawn
        ensures { Draws (members_left self.old) result (members_left self.new) }
    {
        let item = match self.rows.item(self.next, &self.wanted) {
            None => return Drawn::End,
            Some(Err(_)) => return Drawn::Memory,
            Some(Ok(item)) => item,
        };
        self.next += 1;
        Drawn::Item(item)
    }
}

impl Rows {
    /// The item of the member with this index.
    fn item(&self, at: usize, wanted: &Option<Text>) -> Option<Result<HeldItem, AllocError>>
        ensures at { MatchOption result (drop at (row_items wanted.now self.now) ≡ [])
            (λ item. IfOk item (λ held. drop at (row_items wanted.now self.now)
            ≡ item_in held ∷ drop (at + 1) (row_items wanted.now self.now))) }
        ensures room { IfSome result (λ _. at + 1 < 2 ^ 64) }
    {
        match self {
            Rows::Processes(names) => Some(process_item(wanted, names.as_slice().get(at)?)),
            Rows::Packages(rows) => Some(package_item(wanted, rows.as_slice().get(at)?)),
            Rows::Settings(rows) => Some(setting_item(wanted, rows.as_slice().get(at)?)),
        }
    }
}

/// Whether the name is the wanted one, where one is wanted.
fn is_wanted(wanted: &Option<Text>, name: &Text) -> bool
    ensures { result ≡ is_wanted wanted.now name.now }
{
    match wanted {
        Some(wanted) => name.as_str() == wanted.as_str(),
        None => true,
    }
}

fn process_item(wanted: &Option<Text>, name: &Text) -> Result<HeldItem, AllocError>
    ensures { IfOk result (λ held. item_in held ≡ process_item wanted.now name.now) }
{
    if !is_wanted(wanted, name) {
        return Ok(HeldItem::Nothing);
    }
    Ok(HeldItem::Value(Value::Process(name.copy()?)))
}

fn package_item(wanted: &Option<Text>, row: &PackageRow) -> Result<HeldItem, AllocError>
    ensures { IfOk result (λ held. item_in held ≡ package_item wanted.now row.now) }
{
    if !is_wanted(wanted, &row.name) {
        return Ok(HeldItem::Nothing);
    }
    let Some(version) = Version::parse(&row.version) else {
        return Ok(HeldItem::Nothing);
    };
    Ok(HeldItem::Value(Value::Package {
        name: row.name.copy()?,
        version,
    }))
}

fn setting_item(wanted: &Option<Text>, row: &SettingRow) -> Result<HeldItem, AllocError>
    ensures { IfOk result (λ held. item_in held ≡ setting_item wanted.now row.now) }
{
    if !is_wanted(wanted, &row.name) {
        return Ok(HeldItem::Nothing);
    }
    Ok(HeldItem::Value(Value::Setting {
        name: row.name.copy()?,
        value: row.value.copy()?,
        date: row.date,
    }))
}
