//! Keys for looking up a sheet's cut while it is read.

ghost use Rattle.std.specs.Prelude.{◌≡◌};
ghost use Rattle.std.specs.Cmp.{partial_equiv_from_equiv};
ghost use Rattle.std.proofs.Common.{ap};
ghost use Rattle.gu_terms.specs.contracts.limit_key.LimitKeyEq.TheImpl.Laws as keys;
ghost use Rattle.gu_terms.proofs.KeyLemmas.{eq-Decides};
ghost use Rattle.gu_text.specs.ListedKeys.{all_but_last, looked_up_by};

use gu_terms::LimitKey;
use std::hash::{Hash, Hasher};
use std::marker::Model;

/// A key with one hash for all keys of its kind, at most 37, whose names differ from its own only in the last byte. So consecutively
/// numbered names are looked up next to each other, and a table larger than the processor's caches rarely stalls.
#[derive(Clone, Copy)]
pub(crate) struct ListedKey {
    pub(crate) key: LimitKey,
}

impl Model for ListedKey {
    ghost use Rattle.gu_terms.specs.declared.limit_key.LimitKey.{LimitKey as Key};

    ghost Value = { Key };

    ghost view = { λ k. k.key };

    ghost inverse = { λ key. record { key = key } };
}

impl PartialEq for ListedKey {
    ghost eq = { ⟦<LimitKey as PartialEq>⟧.eq };

    ghost laws = { partial_equiv_from_equiv keys.laws-law };

    fn eq(&self, other: &Self) -> bool {
        self.key == other.key
    }
}

impl Eq for ListedKey {
    ghost laws = { keys.laws-law };
}

/// Returns a text without its last byte.
fn all_but_last(text: &[u8]) -> &[u8]
    ensures { result.now ≡ all_but_last text.now }
{
    match text {
        [front @ .., _] => front,
        [] => text,
    }
}

impl Hash for ListedKey {
    ghost hash_input = { looked_up_by };

    ghost respects_eq = { λ a b same. ap looked_up_by ((eq-Decides a b).0 same) };

    fn hash<H: Hasher>(&self, state: &mut H) {
        state.write(self.key.kind().as_bytes());
        state.write(all_but_last(self.key.name()));
    }
}
