ghost use Rattle.std.specs.Prelude.{◌≡◌, map, All, IfOk, OnOk};
ghost use Rattle.group_core.specs.declared.kept_group.KeptGroup.{KeptGroup};
ghost use Rattle.group_core.specs.Keeping.{HasRoom, IsPlaceOf, IsReady, fitting_names, is_fitting, settled, shown};
ghost use Rattle.group_core.specs.Lists.{AreComputers, Ascends, itself, row_name};

use crate::computers::Computer;
use crate::fitting::{can_change, fits};
use crate::kept_row::KeptRow;
use crate::member_list::put_or_take;
use group_text::Group;
use rel_lexer::Text;
use std::alloc::{AllocError, Global};

/// A group and its members.
#[derive(Drop)]
pub(crate) struct KeptGroup {
    pub(crate) group: Group,
    /// In strictly ascending byte order.
    pub(crate) members: Vec<Text>,
    /// The name of a computer that may become a member, for which there is room.
    spare: Option<Text>,
}

impl KeptGroup {
    /// A group with its members among these computers. The error is want of memory, here and below.
    pub(crate) fn new(
        alloc: Global,
        group: &Group,
        computers: &[Computer],
    ) -> Result<KeptGroup, AllocError>
        requires { AreComputers computers.now }
        ensures group { IfOk result (λ kept. kept.group ≡ group.now) }
        ensures members { IfOk result (λ kept. kept.members.items ≡ fitting_names group.now computers.now) }
    {
        Ok(KeptGroup {
            group: group.copy()?,
            members: members_among(alloc, group, computers)?,
            spare: None,
        })
    }

    /// Takes the room that the computer of this name needs to become a member, where the newer ones of its rows can change whether it is.
    fn make_ready(
        &mut self,
        name: &Text,
        rows: &[KeptRow],
        newer: &[KeptRow],
    ) -> Result<(), AllocError>
        requires { Ascends row_name rows.now }
        ensures same { shown self.new ≡ shown self.old }
        ensures ready { OnOk result (IsReady name.now rows.now newer.now self.new) }
    {
        self.spare = None;
        if !can_change(&self.group, rows, newer) {
            return Ok(());
        }
        self.members.reserve(1)?;
        self.spare = Some(name.copy()?);
        Ok(())
    }

    /// Makes the computer for which room was taken a member, or not, as its rows are now.
    fn settle(&mut self, rows: &[KeptRow])
        requires rows { Ascends row_name rows.now }
        requires members { Ascends itself self.old.members.items }
        requires room { HasRoom self.old }
        ensures { shown self.new ≡ settled rows.now self.old }
    {
        if let Some(name) = self.spare.take() {
            let fit = fits(&self.group, rows);
            put_or_take(&mut self.members, name, fit);
        }
    }
}

/// The names of the computers that have rows, which fit the group.
fn members_among(
    alloc: Global,
    group: &Group,
    computers: &[Computer],
) -> Result<Vec<Text>, AllocError>
    requires { AreComputers computers.now }
    ensures { IfOk result (λ names. names.items ≡ fitting_names group.now computers.now) }
{
    let mut members = Vec::new(alloc);
    for computer in computers {
        if is_fitting(group, computer) {
            members.push(computer.name.to_text()?)?;
        }
    }
    Ok(members)
}

/// Whether a computer has rows, which fit the group.
fn is_fitting(group: &Group, computer: &Computer) -> bool
    requires { Ascends row_name computer.now.rows.items }
    ensures { result ≡ is_fitting group.now computer.now }
{
    let rows = computer.rows.as_slice();
    !rows.is_empty() && fits(group, rows)
}

/// The place of the group of this name.
pub(crate) fn place_of(groups: &[KeptGroup], name: &Text) -> Option<usize>
    ensures { IsPlaceOf groups.now name.now result }
{
    for i in 0..groups.len() {
        if groups[i].group.name.as_str() == name.as_str() {
            return Some(i);
        }
    }
    None
}

/// Takes the room that the computer of this name and these rows needs to become a member of the groups that newer rows of it can change.
pub(crate) fn make_ready(
    groups: &mut [KeptGroup],
    name: &Text,
    rows: &[KeptRow],
    newer: &[KeptRow],
) -> Result<(), AllocError>
    requires { Ascends row_name rows.now }
    ensures same { map shown groups.new ≡ map shown groups.old }
    ensures ready { OnOk result (All (IsReady name.now rows.now newer.now) groups.new) }
{
    for group in groups.iter_mut() {
        group.make_ready(name, rows, newer)?;
    }
    Ok(())
}

/// Makes the computer for which room was taken a member of each of these groups, or not, as its rows are now.
pub(crate) fn settle(groups: &mut [KeptGroup], rows: &[KeptRow])
    requires rows { Ascends row_name rows.now }
    requires members { All (λ (kept : KeptGroup). Ascends itself kept.members.items) groups.old }
    requires room { All HasRoom groups.old }
    ensures { map shown groups.new ≡ map (settled rows.now) groups.old }
{
    for group in groups.iter_mut() {
        group.settle(rows);
    }
}
