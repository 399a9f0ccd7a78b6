//! What a request's target names.

ghost use Rattle.std.specs.Prelude.{◌≡◌, IfOk};
ghost use Rattle.matchit.specs.Params.{AllText};
ghost use Rattle.wire.specs.OfficeTargets.{read_by};
ghost use Rattle.wire.specs.PublicTargets.{public_by};
ghost use Rattle.wire.specs.Targets.{named_at, named_by, office_by, office_routes, parameter, public_or_routed, read_or_other, routed_by, taken_by};

use crate::digits::number_in;
use crate::office_read::{OfficeRead, read_by};
use crate::public_target::{PublicTarget, public_by};
use matchit::{InsertError, Params, Router};
use std::alloc::{AllocError, Global};
use std::str;

/// A resource that can be read.
#[derive(Clone, Copy, Debug, PartialEq, Eq)]
pub enum Resource {
    /// The batches that a clerk has been given to key.
    Work { clerk: u32 },
    /// The candidates on the papers of a batch that a clerk keys.
    Candidates { clerk: u32, batch: u32 },
    /// What a clerk keyed for a batch in an earlier round.
    Keyed { clerk: u32, batch: u32 },
    /// The stage sheet of a ward.
    Sheet { ward: u32 },
    /// The declaration of a ward.
    Declaration { ward: u32 },
    /// A read of the officer's console.
    Office(OfficeRead),
}

/// What a target on the officer's console names.
#[derive(Clone, Copy, Debug, PartialEq, Eq)]
pub(crate) enum OfficeTarget {
    /// The console.
    ConsolePage,
    /// Signing the office out.
    Leave,
    /// Where orders are submitted.
    Orders,
}

/// What a target names.
#[derive(Clone, Copy)]
pub(crate) enum Target {
    /// Where a clerk's keying of a batch is submitted.
    Keying { clerk: u32, batch: u32 },
    /// The page on which a clerk keys.
    Page { clerk: u32 },
    /// Signing a clerk out.
    Leave { clerk: u32 },
    /// A resource that can be read.
    Resource(Resource),
    /// A part of the officer's console.
    Office(OfficeTarget),
    /// Something that is shown in public.
    Public(PublicTarget),
}

/// The destination of a route.
#[derive(Clone, Copy)]
enum RouteTarget {
    Keying,
    Candidates,
    Keyed,
    Page,
    Leave,
    Work,
    Sheet,
    Declaration,
}

/// Returns the router with the eight routes.
fn office_router(alloc: Global) -> Result<Router<RouteTarget>, InsertError>
    ensures { IfOk result (λ router. router ≡ office_routes) }
{
    let mut router = Router::new(alloc);
    router.insert("/clerks/{c}/batches/{b}/keying", RouteTarget::Keying)?;
    router.insert("/clerks/{c}/work", RouteTarget::Work)?;
    router.insert(
        "/clerks/{c}/batches/{b}/candidates",
        RouteTarget::Candidates,
    )?;
    router.insert("/clerks/{c}/batches/{b}/keyed", RouteTarget::Keyed)?;
    router.insert("/clerks/{c}/", RouteTarget::Page)?;
    router.insert("/clerks/{c}/leave", RouteTarget::Leave)?;
    router.insert("/wards/{w}/sheet", RouteTarget::Sheet)?;
    router.insert("/wards/{w}/result", RouteTarget::Declaration)?;
    Ok(router)
}

/// Returns the number in a parameter, if it is one.
fn parameter(params: &Params<'_, '_>, name: &str) -> Option<u32>
    requires { AllText (taken_by params.now) }
    ensures { result ≡ parameter name.now (taken_by params.now) }
{
    number_in(params.get(name)?)
}

/// Returns what a target names, given its route and its parameters.
fn named_at(place: RouteTarget, params: &Params<'_, '_>) -> Option<Target>
    requires { AllText (taken_by params.now) }
    ensures { result ≡ named_at place (taken_by params.now) }
{
    match place {
        RouteTarget::Keying => {
            let clerk = parameter(params, "c")?;
            let batch = parameter(params, "b")?;
            Some(Target::Keying { clerk, batch })
        }
        RouteTarget::Candidates => {
            let clerk = parameter(params, "c")?;
            let batch = parameter(params, "b")?;
            Some(Target::Resource(Resource::Candidates { clerk, batch }))
        }
        RouteTarget::Keyed => {
            let clerk = parameter(params, "c")?;
            let batch = parameter(params, "b")?;
            Some(Target::Resource(Resource::Keyed { clerk, batch }))
        }
        RouteTarget::Page => {
            let clerk = parameter(params, "c")?;
            Some(Target::Page { clerk })
        }
        RouteTarget::Leave => {
            let clerk = parameter(params, "c")?;
            Some(Target::Leave { clerk })
        }
        RouteTarget::Work => {
            let clerk = parameter(params, "c")?;
            Some(Target::Resource(Resource::Work { clerk }))
        }
        RouteTarget::Sheet => {
            let ward = parameter(params, "w")?;
            Some(Target::Resource(Resource::Sheet { ward }))
        }
        RouteTarget::Declaration => {
            let ward = parameter(params, "w")?;
            Some(Target::Resource(Resource::Declaration { ward }))
        }
    }
}

/// Returns the part of the officer's console that a target names, if any.
fn office_by(target: &[u8]) -> Option<OfficeTarget>
    ensures { result ≡ office_by target.now }
{
    if target == "/office/".as_bytes() {
        return Some(OfficeTarget::ConsolePage);
    }
    if target == "/office/leave".as_bytes() {
        return Some(OfficeTarget::Leave);
    }
    if target == "/office/orders".as_bytes() {
        return Some(OfficeTarget::Orders);
    }
    None
}

/// The eight routes. A server builds them once.
#[derive(Drop)]
pub struct Routes {
    router: Router<RouteTarget>,
    pub ghost eight: { router ≡ office_routes },
}

impl Routes {
    /// Returns the routes. The only error is a failed allocation.
    pub fn new(alloc: Global) -> Result<Routes, AllocError> {
        match office_router(alloc) {
            Ok(router) => Ok(Routes { router }),
            Err(_) => Err(AllocError),
        }
    }

    /// Returns what a target names according to its route, if it has one. Allocates nothing.
    fn routed_by(&self, target: &[u8]) -> Option<Target>
        ensures { result ≡ routed_by target.now }
    {
        if !target.is_ascii() {
            return None;
        }
        let Ok(text) = str::from_utf8(target) else {
            return None;
        };
        match self.router.at(text) {
            Ok(found) => named_at(*found.value, &found.params),
            Err(_) => None,
        }
    }

    /// Returns what a target outside the console names: what is shown in public, or what its route leads to.
    fn public_or_routed(&self, target: &[u8]) -> Option<Target>
        ensures { result ≡ public_or_routed (public_by target.now) target.now }
    {
        match public_by(target) {
            Some(what) => Some(Target::Public(what)),
            None => self.routed_by(target),
        }
    }

    /// Returns what a target other than the console itself names: what the console reads, or what is outside the console.
    fn read_or_other(&self, target: &[u8]) -> Option<Target>
        ensures { result ≡ read_or_other (read_by target.now) target.now }
    {
        match read_by(target) {
            Some(read) => Some(Target::Resource(Resource::Office(read))),
            None => self.public_or_routed(target),
        }
    }

    /// Returns what a target names, if anything is served there. Allocates nothing.
    pub(crate) fn named_by(&self, target: &[u8]) -> Option<Target>
        ensures { result ≡ named_by target.now }
    {
        match office_by(target) {
            Some(place) => Some(Target::Office(place)),
            None => self.read_or_other(target),
        }
    }
}
