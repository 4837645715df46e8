// The moments at which properties last had a row: a map from their names.
ghost use Rattle.std.specs.Prelude.{◌≡◌, IfOk};
ghost use Rattle.std.specs.List.{list_any};
ghost use Rattle.group_sample.specs.Due.{is_due, with_rows, AreMoments};

use crate::sample::Sampled;
use bf_world::TextMap;
use group_text::Property;
use rel_inspect::Scene;
use std::alloc::{AllocError, Global};

/// Whether the property is due in the scene: it has no row, or its period is over.
pub(crate) fn is_due(moments: &TextMap<i64>, property: &Property, scene: &Scene) -> bool
    requires { AreMoments moments.now }
    ensures { result ≡ is_due moments.now scene.now.moment property.now }
{
    match moments.get(property.name.as_str()) {
        None => true,
        // moments are small, and a period may be any number
        Some(last) => property.period <= scene.moment - *last,
    }
}

/// Whether one of these properties is due.
pub(crate) fn is_any_due(moments: &TextMap<i64>, properties: &[Property], scene: &Scene) -> bool
    requires { AreMoments moments.now }
    ensures { result ≡ list_any (is_due moments.now scene.now.moment) properties.now }
{
    properties
        .iter()
        .any(|property| is_due(moments, property, scene))
}

/// The moments after these rows. The error is want of memory.
pub(crate) fn with_rows(
    alloc: Global,
    moments: &TextMap<i64>,
    rows: &[Sampled],
) -> Result<TextMap<i64>, AllocError>
    ensures { IfOk result (λ after. after ≡ with_rows rows.now moments.now) }
{
    let mut after = copy(alloc, moments)?;
    for row in rows {
        after.put(alloc, row.property.as_str(), row.moment)?;
    }
    Ok(after)
}

/// The same moments once more.
fn copy(alloc: Global, moments: &TextMap<i64>) -> Result<TextMap<i64>, AllocError>
    ensures { IfOk result (λ copies. copies ≡ moments.now) }
{
    let mut copies = TextMap::new(alloc);
    for (name, moment) in moments.iter() {
        copies.put(alloc, name.as_str(), *moment)?;
    }
    Ok(copies)
}
