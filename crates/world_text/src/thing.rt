ghost use Rattle.std.specs.Prelude.{IfOk};
ghost use Rattle.line_forms.specs.Reads.{ReadsText};
ghost use Rattle.world_text.specs.Drafts.{IsSoundPending, just};
ghost use Rattle.world_text.specs.Rows.{IsNewPath, AddsFields, AddsFolder, AddsFile, AddsPackage, AddsProcess, AddsSetting, AddsProgram};
ghost use Rattle.world_text.specs.Readings.{TakesPending};

use crate::draft::Pending;
use crate::fault::Fault;
use crate::fields::{read_versioned, three_fields};
use crate::kind::Kind;
use bf_world::{Node, PackageList, Program, SettingValue, World};
use desk_base::Bytes;
use line_forms::{first_field, read_moment, read_name, read_number, read_path, read_rest};
use rel_lexer::Text;
use std::alloc::Global;

/// The most polls for which a program runs, and its greatest exit code.
const MOST_POLLS: u64 = 1_000_000;

const MOST_EXIT: u64 = 255;

/// Adds to a world what a line of a kind says by its fields, and answers what is pending behind it. It is
/// no line here where it belongs to a program before it.
pub(crate) fn add_thing(
    alloc: Global,
    kind: Kind,
    world: &mut World,
    rest: &[u8],
) -> Result<Pending, Fault>
    ensures adds { TakesPending (AddsFields kind (just world.old) rest.now) world.new result }
    ensures sound { IfOk result IsSoundPending }
{
    match kind {
        Kind::Folder => add_folder(world, rest),
        Kind::File => add_file(alloc, world, rest),
        Kind::Package => add_package(alloc, world, rest),
        Kind::Process => add_process(world, rest),
        Kind::Setting => add_setting(alloc, world, rest),
        Kind::Program => add_program(alloc, world, rest),
        Kind::Gives => Err(Fault::Bad),
    }
}

/// A path at which nothing is, and whose folder is there.
fn new_path<'a>(world: &World, text: &'a [u8]) -> Option<&'a str>
    ensures { ReadsText (IsNewPath world.now) text.now result }
{
    let Some(path) = read_path(text) else {
        return None;
    };
    if world.is_folder(path) {
        return None;
    }
    if world.is_file(path) {
        return None;
    }
    if !world.has_parent(path) {
        return None;
    }
    Some(path)
}

/// `folder PATH`
fn add_folder(world: &mut World, rest: &[u8]) -> Result<Pending, Fault>
    ensures adds { TakesPending (AddsFolder world.old rest.now) world.new result }
    ensures sound { IfOk result IsSoundPending }
{
    let Some(path) = new_path(world, rest) else {
        return Err(Fault::Bad);
    };
    world.set_node(path, Node::Folder)?;
    Ok(Pending::Nothing)
}

/// `file MOMENT PATH`
fn add_file(alloc: Global, world: &World, rest: &[u8]) -> Result<Pending, Fault>
    ensures adds { TakesPending (AddsFile world.now rest.now) world.now result }
    ensures sound { IfOk result IsSoundPending }
{
    let Some(cut) = first_field(rest) else {
        return Err(Fault::Bad);
    };
    let Some(modified) = read_moment(cut.first) else {
        return Err(Fault::Bad);
    };
    let Some(path) = new_path(world, cut.rest) else {
        return Err(Fault::Bad);
    };
    let path = Text::from_str(alloc, path)?;
    Ok(Pending::File {
        path,
        content: Bytes::new(alloc),
        modified,
    })
}

/// `package VERSION REST`
fn add_package(alloc: Global, world: &mut World, rest: &[u8]) -> Result<Pending, Fault>
    ensures adds { TakesPending (AddsPackage world.old rest.now) world.new result }
    ensures sound { IfOk result IsSoundPending }
{
    let Some(package) = read_versioned(rest) else {
        return Err(Fault::Bad);
    };
    if world.has_package(package.name) {
        return Err(Fault::Bad);
    }
    let version = Text::from_str(alloc, package.version)?;
    world.set_package(package.name, version)?;
    Ok(Pending::Nothing)
}

/// `process REST`
fn add_process(world: &mut World, rest: &[u8]) -> Result<Pending, Fault>
    ensures adds { TakesPending (AddsProcess world.old rest.now) world.new result }
    ensures sound { IfOk result IsSoundPending }
{
    let Some(name) = read_rest(rest) else {
        return Err(Fault::Bad);
    };
    if world.has_process(name) {
        return Err(Fault::Bad);
    }
    world.set_process(name)?;
    Ok(Pending::Nothing)
}

/// `setting MOMENT NAME REST`
fn add_setting(alloc: Global, world: &mut World, rest: &[u8]) -> Result<Pending, Fault>
    ensures adds { TakesPending (AddsSetting world.old rest.now) world.new result }
    ensures sound { IfOk result IsSoundPending }
{
    let Some(fields) = three_fields(rest) else {
        return Err(Fault::Bad);
    };
    let Some(date) = read_moment(fields.first) else {
        return Err(Fault::Bad);
    };
    let Some(name) = read_name(fields.second) else {
        return Err(Fault::Bad);
    };
    let Some(value) = read_rest(fields.rest) else {
        return Err(Fault::Bad);
    };
    if world.has_setting(name) {
        return Err(Fault::Bad);
    }
    let value = Text::from_str(alloc, value)?;
    world.set_setting(name, SettingValue { value, date })?;
    Ok(Pending::Nothing)
}

/// `program POLLS EXIT REST`
fn add_program(alloc: Global, world: &World, rest: &[u8]) -> Result<Pending, Fault>
    ensures adds { TakesPending (AddsProgram world.now rest.now) world.now result }
    ensures sound { IfOk result IsSoundPending }
{
    let Some(fields) = three_fields(rest) else {
        return Err(Fault::Bad);
    };
    let Some(polls) = read_number(fields.first, MOST_POLLS) else {
        return Err(Fault::Bad);
    };
    let Some(exit) = read_number(fields.second, MOST_EXIT) else {
        return Err(Fault::Bad);
    };
    let Some(line) = read_rest(fields.rest) else {
        return Err(Fault::Bad);
    };
    if world.has_program(line) {
        return Err(Fault::Bad);
    }
    let line = Text::from_str(alloc, line)?;
    let program = Program {
        polls: polls as u32,
        exit: exit as u8,
        gives: PackageList::from_vec(Vec::new(alloc)),
    };
    Ok(Pending::Program { line, program })
}
