//! Why a text is no address.

ghost use Rattle.std.specs.Prelude.{◌≡◌};

use std::alloc::{AllocError, AllocFailed};
use thiserror::Error;

/// Why a text is no address of a log.
#[derive(Clone, Copy, Debug, PartialEq, Eq, Error)]
pub enum AddressError {
    /// No memory was left.
    #[error("out of memory")]
    Memory,
    /// It isn't `etcd://HOST:PORT[,HOST:PORT..]/NAME` with hosts of this machine alone.
    #[error("not an address")]
    NotAnAddress,
}

impl From<AllocError> for AddressError {
    ghost use Rattle.gu_exchange.specs.declared.error.AddressError.TheVariants.{Memory};

    ghost from_gives = { λ _ error. error ≡ Memory };

    fn from(_: AllocError) -> Self {
        AddressError::Memory
    }
}

impl<T: Drop> From<AllocFailed<T>> for AddressError {
    ghost use Rattle.gu_exchange.specs.declared.error.AddressError.TheVariants.{Memory};

    ghost from_gives = { λ _ error. error ≡ Memory };

    fn from(_: AllocFailed<T>) -> Self {
        AddressError::Memory
    }
}
