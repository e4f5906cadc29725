//! The limit keys that apply to an offer.

ghost use Rattle.std.specs.Prelude.{◌≡◌, ◌≤◌, length};
ghost use Rattle.std.specs.Cmp.{partial_equiv_from_equiv};
ghost use Rattle.std.specs.Cmp.Lexicographic.{pointwise};
ghost use Rattle.std.proofs.lemmas.Cmp.{lists_equiv};
ghost use Rattle.gu_terms.specs.contracts.limit_key.LimitKeyEq.TheImpl.Laws.{laws-law as keys_equiv};
ghost use Rattle.gu_terms.specs.Paths.{path_through, ArePathKeys};

use crate::account::AccountId;
use crate::agreement::AgreementId;
use crate::firm::FirmId;
use crate::limit_key::LimitKey;
use std::marker::Model;

/// The keys of a path: four, or five with a guarantor.
#[derive(Clone, Copy, Debug)]
enum Keys {
    Four([LimitKey; 4]),
    Five([LimitKey; 5]),
}

/// The four or five keys that apply to an offer, in order. To a contract it is the list of these keys.
#[derive(Clone, Copy, Debug)]
pub struct Path {
    keys: Keys,
}

impl Model for Path {
    ghost use Rattle.std.specs.Prelude.{◌≡◌, List, length};
    ghost use Rattle.gu_terms.specs.declared.limit_key.LimitKey.{LimitKey};

    ghost Value = { List LimitKey };

    ghost use Rattle.gu_terms.specs.Paths.{listed, kept, kept-listed, size_of, ArePathKeys};

    ghost view = { λ p. listed p.keys };

    ghost invariant = { λ p. (length (listed p.keys) ≡ size_of p.keys) × ArePathKeys (listed p.keys) };

    ghost inverse = { λ keys. record { keys = kept keys } };

    ghost inverse_ok = { λ p h i. record { keys = kept-listed p.keys h.0 i } };
}

impl Path {
    /// Returns the path of an agreement's offers, with the carrying firm's guarantor if it has one.
    pub fn new(
        executing: FirmId,
        agreement: AgreementId,
        account: AccountId,
        carrying: FirmId,
        guarantor: Option<FirmId>,
    ) -> Self
        ensures { result ≡ path_through executing agreement account carrying guarantor }
    {
        let executing = LimitKey::Exec(executing);
        let agreement = LimitKey::Agr(agreement);
        let account = LimitKey::Acct(account);
        let carrying = LimitKey::Carry(carrying);
        let keys = match guarantor {
            None => Keys::Four([executing, agreement, account, carrying]),
            Some(firm) => Keys::Five([
                executing,
                agreement,
                account,
                carrying,
                LimitKey::Guar(firm),
            ]),
        };
        Path { keys }
    }

    /// Returns its keys, in order.
    pub fn keys(&self) -> &[LimitKey]
        ensures keys { result.now ≡ self.now }
        ensures some { 4 ≤ length result.now }
        ensures few { length result.now ≤ 5 }
        ensures are { ArePathKeys result.now }
    {
        match &self.keys {
            Keys::Four(keys) => keys.as_slice(),
            Keys::Five(keys) => keys.as_slice(),
        }
    }
}

// Two paths are equal if their keys are.
impl PartialEq for Path {
    ghost eq = { pointwise ⟦<LimitKey as PartialEq>⟧.eq };

    ghost laws = { partial_equiv_from_equiv (lists_equiv keys_equiv) };

    fn eq(&self, other: &Self) -> bool {
        self.keys() == other.keys()
    }
}

impl Eq for Path {
    ghost laws = { lists_equiv keys_equiv };
}
