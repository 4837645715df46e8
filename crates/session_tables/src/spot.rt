// What a path names in the world of the tables.
ghost use Rattle.std.specs.Prelude.{◌++◌, ◌∷◌, IfOk, codes};
ghost use Rattle.line_forms.specs.Cuts.{Lacks};
ghost use Rattle.session_tables.specs.Inside.{BehindSlash, CutsText, IsSpot};

use crate::shown::{is_shown_name, is_shown_site};
use desk_keep::Find;
use line_forms::read_id;
use rel_lexer::Text;
use std::alloc::{AllocError, Global};

/// What a path names.
#[derive(Drop)]
pub(crate) enum Spot {
    /// `/`.
    Root,
    Actions,
    Computers,
    Sites,
    /// What is shown of the row of this key, if there is one.
    Row(Find),
    /// Nothing, whatever the rows are.
    Nowhere,
}

/// What the path names. The error is want of memory, here and below.
pub(crate) fn spot_of(alloc: Global, path: &str) -> Result<Spot, AllocError>
    ensures { IfOk result (IsSpot path.now) }
{
    let Some(inside) = behind_slash(path) else {
        return Ok(Spot::Nowhere);
    };
    match cut_at_slash(inside) {
        Some((folder, rest)) => row_spot(alloc, folder, rest),
        None => Ok(folder_spot(inside)),
    }
}

/// What stands behind the `/` with which a path begins, if it does.
fn behind_slash(path: &str) -> Option<&str>
    ensures { BehindSlash path.now result }
{
    path.strip_prefix('/')
}

/// What stands before the first `/` of a text, and what stands behind it.
fn cut_at_slash(text: &str) -> Option<(&str, &str)>
    ensures { CutsText text.now result }
{
    text.split_once('/')
}

/// What this name stands for in the root.
fn folder_spot(name: &str) -> Spot
    requires { Lacks 47 name.now }
    ensures { IsSpot (47 ∷ name.now) result }
{
    if name == "" {
        return Spot::Root;
    }
    if name == "actions" {
        return Spot::Actions;
    }
    if name == "computers" {
        return Spot::Computers;
    }
    if name == "sites" {
        return Spot::Sites;
    }
    Spot::Nowhere
}

/// What this path stands for in a folder of the root.
fn row_spot(alloc: Global, folder: &str, path: &str) -> Result<Spot, AllocError>
    requires { Lacks 47 folder.now }
    ensures { IfOk result (IsSpot (47 ∷ folder.now ++ 47 ∷ path.now)) }
{
    if folder == "actions" {
        return Ok(action_spot(path));
    }
    if folder == "computers" {
        return computer_spot(alloc, path);
    }
    if folder == "sites" {
        return site_spot(alloc, path);
    }
    Ok(Spot::Nowhere)
}

fn action_spot(id: &str) -> Spot
    ensures { IsSpot (codes "/actions/" ++ id.now) result }
{
    match read_id(id.as_bytes()) {
        Some(id) => Spot::Row(Find::Action(id)),
        None => Spot::Nowhere,
    }
}

fn site_spot(alloc: Global, name: &str) -> Result<Spot, AllocError>
    ensures { IfOk result (IsSpot (codes "/sites/" ++ name.now)) }
{
    if !is_shown_site(name) {
        return Ok(Spot::Nowhere);
    }
    Ok(Spot::Row(Find::Site(Text::from_str(alloc, name)?)))
}

/// A computer, or a result of one.
fn computer_spot(alloc: Global, path: &str) -> Result<Spot, AllocError>
    ensures { IfOk result (IsSpot (codes "/computers/" ++ path.now)) }
{
    match cut_at_slash(path) {
        Some((computer, id)) => result_spot(alloc, computer, id),
        None => name_spot(alloc, path),
    }
}

fn name_spot(alloc: Global, name: &str) -> Result<Spot, AllocError>
    requires { Lacks 47 name.now }
    ensures { IfOk result (IsSpot (codes "/computers/" ++ name.now)) }
{
    if !is_shown_name(name) {
        return Ok(Spot::Nowhere);
    }
    Ok(Spot::Row(Find::Computer(Text::from_str(alloc, name)?)))
}

fn result_spot(alloc: Global, computer: &str, action: &str) -> Result<Spot, AllocError>
    requires { Lacks 47 computer.now }
    ensures { IfOk result (IsSpot (codes "/computers/" ++ computer.now ++ 47 ∷ action.now)) }
{
    if !is_shown_name(computer) {
        return Ok(Spot::Nowhere);
    }
    match read_id(action.as_bytes()) {
        Some(action) => Ok(Spot::Row(Find::Result(Text::from_str(alloc, computer)?, action))),
        None => Ok(Spot::Nowhere),
    }
}
