//! Which helpers a call names.
ghost use Rattle.std.specs.Prelude.{◌≡◌, IfOk, OnOk, Some, None, false, map, slice_get, option_and_then, if◌then◌else◌};
ghost use Rattle.std.specs.List.{list_any};
ghost use Rattle.std.specs.Option.{option_copied, option_map_or};
ghost use Rattle.ha_sight.specs.Services as services;
ghost use Rattle.ha_sight.specs.Once.{has_number, with_number};
ghost use Rattle.helper_set.specs.Kept.{place_in, shown};

use crate::kept::Kept;
use crate::list::KeptList;
use crate::service::is_for;
use ha_model::{EntityId, HelperService};
use std::alloc::{AllocError, Global};

/// Whether the service is for one of the helpers.
fn is_for_any(kept: &[Kept], service: HelperService) -> bool
    ensures { result ≡ list_any (λ k. services.is_for service k.helper.kind) kept.now }
{
    kept.iter().any(|one| is_for(service, &one.helper.kind))
}

/// Whether there is a helper for which the service is.
pub fn is_configured(kept: &KeptList, service: HelperService) -> bool
    ensures { result ≡ services.is_configured (map shown kept.now.items) service }
{
    is_for_any(kept.as_slice(), service)
}

/// Whether the service is for the helper at a place.
fn is_for_at(kept: &[Kept], service: HelperService, place: usize) -> bool
    ensures { result ≡ option_map_or (λ k. services.is_for service k.helper.kind) (slice_get kept.now place) false }
{
    match kept.get(place) {
        Some(one) => is_for(service, &one.helper.kind),
        None => false,
    }
}

/// A place, where the service is for the helper there.
fn if_for(kept: &[Kept], service: HelperService, place: Option<usize>) -> Option<usize>
    ensures { result ≡ option_and_then (λ n. if option_map_or (λ k. services.is_for service k.helper.kind) (slice_get kept.now n) false then Some n else None) place }
{
    match place {
        Some(place) => {
            if is_for_at(kept, service, place) {
                Some(place)
            } else {
                None
            }
        }
        None => None,
    }
}

/// The place of the helper that a target names, where the service is for it.
fn place_meant(kept: &KeptList, service: HelperService, entity: &EntityId) -> Option<usize>
    ensures { result ≡ services.place_meant (map shown kept.now.items) service entity.now }
{
    if_for(kept.as_slice(), service, kept.place_in(entity))
}

/// The helper with this id.
pub fn found<'a>(kept: &'a KeptList, entity: &EntityId) -> Option<&'a Kept>
    ensures { option_copied result ≡ option_and_then (slice_get kept.now.items) (place_in kept.now.items entity.now) }
{
    match kept.place_in(entity) {
        Some(place) => kept.as_slice().get(place),
        None => None,
    }
}

/// Whether the number is in the list.
fn has_number(number: usize, found: &[usize]) -> bool
    ensures { result ≡ has_number number found.now }
{
    for i in 0..found.len() {
        if number == found[i] {
            return true;
        }
    }
    false
}

/// Appends a number that is not in the list yet.
fn add_once(found: &mut Vec<usize>, number: Option<usize>) -> Result<(), AllocError>
    ensures { OnOk result (found.new.items ≡ with_number number found.old.items) }
{
    match number {
        Some(number) => {
            if has_number(number, found) {
                Ok(())
            } else {
                found.push(number)?;
                Ok(())
            }
        }
        None => Ok(()),
    }
}

/// The places of the helpers that the targets name, each once.
pub fn places_meant(
    alloc: Global,
    kept: &KeptList,
    service: HelperService,
    targets: &[EntityId],
) -> Result<Vec<usize>, AllocError>
    ensures { IfOk result (λ found. found.items ≡ services.places_meant (map shown kept.now.items) service targets.now) }
{
    let mut found = Vec::new(alloc);
    for i in 0..targets.len() {
        add_once(&mut found, place_meant(kept, service, &targets[i]))?;
    }
    Ok(found)
}
