//! Product groups.

ghost use Rattle.std.specs.Prelude.{◌≡◌, ◌↔◌, IsSome, IfSome};
ghost use Rattle.gu_terms.specs.Names.{IsName};

use crate::name::Name;

/// A product group. A limit applies within one group, and a sweep takes from one.
#[derive(Clone, Copy, Debug, PartialEq, Eq, Hash)]
pub struct Group {
    pub name: Name,
}

impl Group {
    /// Returns the group with this name.
    pub fn new(bytes: &[u8]) -> Option<Self>
        ensures sound { IsSome result ↔ IsName bytes.now }
        ensures same { IfSome result (λ group. group.name ≡ bytes.now) }
    {
        Name::new(bytes).map(|name| Group { name })
    }

    /// Returns its name.
    pub fn get(&self) -> &[u8]
        ensures bytes { result.now ≡ self.now.name }
        ensures sound { IsName self.now.name }
    {
        self.name.get()
    }
}
