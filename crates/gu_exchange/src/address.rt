//! The address of a log in an etcd.

ghost use Rattle.std.specs.Prelude.{◌≡◌, ◌∷◌, [], ◌++◌, ◌<◌, ℕ, List, Some, IfOk, IsErrOf, OnOk, length, option_map, slice_get};
ghost use Rattle.std.specs.List.{AllByRecursion};
ghost use Rattle.gu_etcd.specs.InMemory.{log_of};
ghost use Rattle.gu_exchange.specs.declared.error.AddressError.TheVariants.{NotAnAddress};
ghost use Rattle.gu_exchange.specs.Addresses.{IsAddress, between_commas};
ghost use Rattle.gu_exchange.specs.Endpoints.{IsEndpoint};

use crate::{AddressError, is_endpoint};
use gu_etcd::{Name, after_prefix, split_at_byte};
use std::alloc::Global;

/// The address `etcd://HOST:PORT[,HOST:PORT..]/NAME` of a log. Its hosts are of this machine.
#[derive(Drop)]
pub struct Address {
    /// At least one.
    pub endpoints: Vec<Vec<u8>>,
    pub name: Name,
    ghost some: { 0 < length endpoints.items },
}

/// Adds an endpoint, if the text is one.
fn add_endpoint(
    alloc: Global,
    endpoints: &mut Vec<Vec<u8>>,
    text: &[u8],
) -> Result<(), AddressError>
    ensures added { OnOk result (log_of endpoints.new.items ≡ log_of endpoints.old.items ++ text.now ∷ []) }
    ensures some { OnOk result (0 < length endpoints.new.items) }
    ensures is_one { OnOk result (IsEndpoint text.now) }
    ensures refused { IsErrOf result NotAnAddress → ¬ IsEndpoint text.now }
{
    if !is_endpoint(text) {
        return Err(AddressError::NotAnAddress);
    }
    endpoints.push(Vec::from_slice(alloc, text)?)?;
    Ok(())
}

/// Returns the endpoints that are listed with commas between them.
fn endpoints_of(alloc: Global, text: &[u8]) -> Result<Vec<Vec<u8>>, AddressError>
    ensures listed { IfOk result (λ endpoints. log_of endpoints.items ≡ between_commas text.now) }
    ensures each { IfOk result (λ endpoints. AllByRecursion IsEndpoint (log_of endpoints.items)) }
    ensures some { IfOk result (λ endpoints. 0 < length endpoints.items) }
    ensures refused { IsErrOf result NotAnAddress → ¬ AllByRecursion IsEndpoint (between_commas text.now) }
{
    let mut endpoints = Vec::new(alloc);
    let mut rest = text;
    while let Some((first, others)) = split_at_byte(rest, b',') {
        add_endpoint(alloc, &mut endpoints, first)?;
        rest = others;
    }
    add_endpoint(alloc, &mut endpoints, rest)?;
    Ok(endpoints)
}

impl Address {
    /// Returns the address that a text is.
    pub fn parse(alloc: Global, text: &[u8]) -> Result<Address, AddressError>
        ensures address { IfOk result (λ address. IsAddress text.now (log_of address.endpoints.items) address.name) }
        ensures refused { IsErrOf result NotAnAddress → (endpoints : List (List ℕ)) (name : List ℕ) → ¬ IsAddress text.now endpoints name }
    {
        let Some(rest) = after_prefix(text, b"etcd://") else {
            return Err(AddressError::NotAnAddress);
        };
        let Some((listed, name)) = split_at_byte(rest, b'/') else {
            return Err(AddressError::NotAnAddress);
        };
        let Some(name) = Name::new(Vec::from_slice(alloc, name)?) else {
            return Err(AddressError::NotAnAddress);
        };
        let endpoints = endpoints_of(alloc, listed)?;
        Ok(Address { endpoints, name })
    }
}
