//! Accounts.

ghost use Rattle.std.specs.Prelude.{◌≡◌, ◌↔◌, IsSome, IfSome};
ghost use Rattle.gu_terms.specs.Names.{IsName};

use crate::name::Name;

/// An account, which one firm carries.
#[derive(Clone, Copy, Debug, PartialEq, Eq, Hash)]
pub struct AccountId {
    pub name: Name,
}

impl AccountId {
    /// Returns the account with this name.
    pub fn new(bytes: &[u8]) -> Option<Self>
        ensures sound { IsSome result ↔ IsName bytes.now }
        ensures same { IfSome result (λ account. account.name ≡ bytes.now) }
    {
        Name::new(bytes).map(|name| AccountId { name })
    }

    /// Returns its name.
    pub fn get(&self) -> &[u8]
        ensures bytes { result.now ≡ self.now.name }
        ensures sound { IsName self.now.name }
    {
        self.name.get()
    }
}
