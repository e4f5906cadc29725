//! Give-up agreements.

ghost use Rattle.std.specs.Prelude.{◌≡◌, ◌↔◌, IsSome, IfSome};
ghost use Rattle.gu_terms.specs.Names.{IsName};

use crate::name::Name;

/// An agreement by which one firm gives trades up to an account of another.
#[derive(Clone, Copy, Debug, PartialEq, Eq, Hash)]
pub struct AgreementId {
    pub name: Name,
}

impl AgreementId {
    /// Returns the agreement with this name.
    pub fn new(bytes: &[u8]) -> Option<Self>
        ensures sound { IsSome result ↔ IsName bytes.now }
        ensures same { IfSome result (λ agreement. agreement.name ≡ bytes.now) }
    {
        Name::new(bytes).map(|name| AgreementId { name })
    }

    /// Returns its name.
    pub fn get(&self) -> &[u8]
        ensures bytes { result.now ≡ self.now.name }
        ensures sound { IsName self.now.name }
    {
        self.name.get()
    }
}
