ghost use Rattle.std.specs.Prelude.{◌≡◌, ◌++◌, ◌∷◌, [], IfOk, map};
ghost use Rattle.desk_hosts.specs.RelayCalls.{version_of};

use fix_site::Site;
use server_text::{SiteVersion, SiteVersions};
use std::alloc::{AllocError, Global};

/// The names and the versions of sites, in their order. The error is want of memory, here and below.
pub(crate) fn versions_of(alloc: Global, sites: &[Site]) -> Result<SiteVersions, AllocError>
    ensures { IfOk result (λ versions. versions ≡ map version_of sites.now) }
{
    let mut versions = SiteVersions::new(alloc);
    for site in sites {
        versions.push(version_of(site)?)?;
    }
    Ok(versions)
}

/// The name and the version of a site.
fn version_of(site: &Site) -> Result<SiteVersion, AllocError>
    ensures { IfOk result (λ version. version ≡ version_of site.now) }
{
    Ok(SiteVersion {
        name: site.name.copy()?,
        version: site.version,
    })
}
