use crate::Host;
use crate::kind::{Kind, kind_at};
use crate::machine::{MACHINE, PACKAGES};
use bf_world::joined;
use edge_faults::tell;
use std::mem::drop;

/// What is told where the file isn't there.
const MISSING: &str =
    "there is no such file in the work folder, so no packages are known; inventory writes it";

/// Tells that the file `packages` of the work folder is missing, where it is, and answers whether it did. What can't be asked here is met
/// again by the look itself.
pub(crate) fn tells_missing_packages<H: Host>(host: &H, work: &str) -> bool {
    let Ok(place) = joined(host.alloc(), work, PACKAGES) else {
        return false;
    };
    let kind = kind_at(host, place.as_str());
    drop(place);
    match kind {
        Ok(Kind::File) | Err(_) => false,
        Ok(_) => {
            tell(host, MACHINE, "look", PACKAGES, MISSING);
            true
        }
    }
}
