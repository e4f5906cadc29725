//! Instruments.

ghost use Rattle.std.specs.Prelude.{◌≡◌, ◌↔◌, IsSome, IfSome};
ghost use Rattle.gu_terms.specs.Names.{IsName};

use crate::name::Name;

/// An instrument, by its symbol (FIX: Symbol, tag 55).
#[derive(Clone, Copy, Debug, PartialEq, Eq, Hash)]
pub struct Symbol {
    pub name: Name,
}

impl Symbol {
    /// Returns the symbol with this name.
    pub fn new(bytes: &[u8]) -> Option<Self>
        ensures sound { IsSome result ↔ IsName bytes.now }
        ensures same { IfSome result (λ symbol. symbol.name ≡ bytes.now) }
    {
        Name::new(bytes).map(|name| Symbol { name })
    }

    /// Returns its name.
    pub fn get(&self) -> &[u8]
        ensures bytes { result.now ≡ self.now.name }
        ensures sound { IsName self.now.name }
    {
        self.name.get()
    }
}
