//! Firms of the house.

ghost use Rattle.std.specs.Prelude.{◌≡◌, ◌↔◌, IsSome, IfSome};
ghost use Rattle.gu_terms.specs.Names.{IsName};

use crate::name::Name;

/// A firm of the house, which executes trades, carries accounts, or both.
#[derive(Clone, Copy, Debug, PartialEq, Eq, Hash)]
pub struct FirmId {
    pub name: Name,
}

impl FirmId {
    /// Returns the firm with this name.
    pub fn new(bytes: &[u8]) -> Option<Self>
        ensures sound { IsSome result ↔ IsName bytes.now }
        ensures same { IfSome result (λ firm. firm.name ≡ bytes.now) }
    {
        Name::new(bytes).map(|name| FirmId { name })
    }

    /// Returns its name.
    pub fn get(&self) -> &[u8]
        ensures bytes { result.now ≡ self.now.name }
        ensures sound { IsName self.now.name }
    {
        self.name.get()
    }
}
