ghost use Rattle.std.specs.Prelude.{◌≡◌, IfOk};
ghost use Rattle.bf_world.specs.Worlds.{WorldState};
ghost use Rattle.rel_sources.specs.declared.scene.Scene.{Scene};
ghost use Rattle.rel_inspect.specs.Props.{prop};
ghost use Rattle.rel_inspect.specs.Facets.{offered, IsSoundOffer};
ghost use Rattle.rel_inspect.specs.Left.{left, IsSoundWalk, Begins};

use crate::Walk;
use crate::facet::Facet;
use crate::look_rows::{
    at_name, at_path, computer_name, descendants, entries, line_at, lines, lines_containing,
    of_content, of_stat, packages, processes, settings, system,
};
use crate::offered::{
    bounds_in, date_in, file_in, folder_in, following_in, integer_in, name_in, parts_in, path_in,
    preceding_in, text_in, value_in, version_in,
};
use crate::once::Sought;
use crate::rows::{
    first, given, integers, last, length, parameter, part, pieces, sought, text, time, version,
};
use crate::walk::State;
use rel_value::{PropertyId, Value};
use std::alloc::{AllocError, Global};

/// Begins the walk of a property over an object, with its argument. The error is want of memory.
pub fn inspect(
    alloc: Global,
    property: PropertyId,
    argument: Option<&Value>,
    object: Option<&Value>,
) -> Result<Walk, AllocError>
    requires argument { IsSoundOffer (offered argument) }
    requires object { IsSoundOffer (offered object) }
    ensures left { IfOk result (λ walk. (w : WorldState) (s : Scene)
        → left walk w s ≡ prop property (offered argument.entry) (offered object.entry) w s) }
    ensures sound { IfOk result IsSoundWalk }
{
    Ok(Walk::new(alloc, begun(alloc, property, argument, object)?))
}

fn begun(
    alloc: Global,
    property: PropertyId,
    argument: Option<&Value>,
    object: Option<&Value>,
) -> Result<State, AllocError>
    requires argument { IsSoundOffer (offered argument) }
    requires object { IsSoundOffer (offered object) }
    ensures { IfOk result (λ st. Begins st (prop property (offered argument.entry) (offered object.entry))) }
{
    match property {
        PropertyId::True => Ok(given(Value::Boolean(true))),
        PropertyId::False => Ok(given(Value::Boolean(false))),
        PropertyId::Second => Ok(given(Value::Interval(1))),
        PropertyId::Minute => Ok(given(Value::Interval(60))),
        PropertyId::Hour => Ok(given(Value::Interval(3600))),
        PropertyId::Day => Ok(given(Value::Interval(86_400))),
        PropertyId::Now => Ok(sought(Sought::Now)),
        PropertyId::FileAt => at_path(alloc, false, text_in(argument)),
        PropertyId::FolderAt => at_path(alloc, true, text_in(argument)),
        PropertyId::FileNamed => at_name(alloc, false, folder_in(object), text_in(argument)),
        PropertyId::FolderNamed => at_name(alloc, true, folder_in(object), text_in(argument)),
        PropertyId::File => entries(false, folder_in(object)),
        PropertyId::Folder => entries(true, folder_in(object)),
        PropertyId::Descendant => descendants(alloc, folder_in(object)),
        PropertyId::Name => text(alloc, name_in(object)),
        PropertyId::Pathname => text(alloc, path_in(object)),
        PropertyId::Size => of_stat(file_in(object), Facet::Size),
        PropertyId::ModificationTime => of_stat(file_in(object), Facet::Modified),
        PropertyId::Line => lines(file_in(object)),
        PropertyId::LineAt => line_at(file_in(object), integer_in(argument)),
        PropertyId::LineContaining => lines_containing(alloc, file_in(object), text_in(argument)),
        PropertyId::Sha1 => of_content(file_in(object), Facet::Sha1),
        PropertyId::Sha256 => of_content(file_in(object), Facet::Sha256),
        PropertyId::OperatingSystem => Ok(system()),
        PropertyId::ComputerName => Ok(computer_name()),
        PropertyId::Process => processes(alloc, text_in(argument)),
        PropertyId::Package => packages(alloc, text_in(argument)),
        PropertyId::Version => Ok(version(version_in(object))),
        PropertyId::Client => Ok(given(Value::Client)),
        PropertyId::Action => Ok(given(Value::Action)),
        PropertyId::Setting => settings(alloc, text_in(argument)),
        PropertyId::Value => text(alloc, value_in(object)),
        PropertyId::EffectiveDate => Ok(time(date_in(object))),
        PropertyId::IntegerIn => Ok(integers(bounds_in(argument))),
        PropertyId::Length => Ok(length(text_in(object))),
        PropertyId::First => first(alloc, text_in(argument), text_in(object)),
        PropertyId::Last => last(alloc, text_in(argument), text_in(object)),
        PropertyId::PrecedingText => text(alloc, preceding_in(object)),
        PropertyId::FollowingText => text(alloc, following_in(object)),
        PropertyId::SubstringSeparatedBy => pieces(alloc, text_in(argument), text_in(object)),
        PropertyId::Parameter => parameter(alloc, text_in(argument)),
        PropertyId::ExitCode => Ok(sought(Sought::ExitCode)),
        PropertyId::Item => part(integer_in(argument), parts_in(object)),
    }
}
