//! What limits apply to.

ghost use Rattle.std.specs.Prelude.{◌≡◌, ◌↔◌, IsTrue};
ghost use Rattle.gu_terms.specs.LimitKeys.{key_by, key_eq, key_of, kind_of, name_of_key};
ghost use Rattle.gu_terms.specs.Names.{IsName};

use crate::account::AccountId;
use crate::agreement::AgreementId;
use crate::firm::FirmId;
use crate::name::{LONGEST_NAME, Name};
use crate::padded::Padded;

/// A key of a daily lot limit: what the limit applies to in one product group.
#[derive(Clone, Copy, Debug, PartialEq, Eq, Hash)]
pub enum LimitKey {
    /// All that a firm gives up.
    Exec(FirmId),
    /// All that is given up under an agreement.
    Agr(AgreementId),
    /// All that an account takes up.
    Acct(AccountId),
    /// All that a firm carries.
    Carry(FirmId),
    /// All that is carried by the firms that a firm guarantees.
    Guar(FirmId),
}

impl LimitKey {
    /// Returns the word for its kind in scripts, sheets and refusals.
    pub fn kind(self) -> &'static str
        ensures { result.now ≡ kind_of self }
    {
        match self {
            LimitKey::Exec(_) => "EXEC",
            LimitKey::Agr(_) => "AGR",
            LimitKey::Acct(_) => "ACCT",
            LimitKey::Carry(_) => "CARRY",
            LimitKey::Guar(_) => "GUAR",
        }
    }

    /// Returns the key of this kind with this name, if there is such a kind.
    pub fn of(kind: &[u8], name: Name) -> Option<LimitKey>
        ensures { result ≡ key_of kind.now name }
    {
        [
            LimitKey::Exec(FirmId { name }),
            LimitKey::Agr(AgreementId { name }),
            LimitKey::Acct(AccountId { name }),
            LimitKey::Carry(FirmId { name }),
            LimitKey::Guar(FirmId { name }),
        ]
        .iter()
        .copied()
        .find(|key| key.kind().as_bytes() == kind)
    }

    /// Returns the name of the firm, the agreement or the account.
    pub fn name(&self) -> &[u8]
        ensures name { result.now ≡ name_of_key self.now }
        ensures sound { IsName (name_of_key self.now) }
    {
        match self {
            LimitKey::Exec(firm) | LimitKey::Carry(firm) | LimitKey::Guar(firm) => firm.get(),
            LimitKey::Agr(agreement) => agreement.get(),
            LimitKey::Acct(account) => account.get(),
        }
    }

    /// Returns the name as stored.
    pub(crate) fn padded(&self) -> &Padded<LONGEST_NAME>
        ensures name { result.now ≡ name_of_key self.now }
        ensures sound { IsName (name_of_key self.now) }
    {
        match self {
            LimitKey::Exec(firm) | LimitKey::Carry(firm) | LimitKey::Guar(firm) => {
                firm.name.padded()
            }
            LimitKey::Agr(agreement) => agreement.name.padded(),
            LimitKey::Acct(account) => account.name.padded(),
        }
    }

    /// Returns whether two keys are the same.
    pub fn is_same(self, other: LimitKey) -> bool
        ensures test { result ≡ key_eq self other }
        ensures same { IsTrue result ↔ (self ≡ other) }
    {
        self == other
    }
}

/// The kind of a key, without its name.
#[derive(Clone, Copy)]
pub(crate) enum KeyKind {
    Exec,
    Agr,
    Acct,
    Carry,
    Guar,
}

impl KeyKind {
    /// Returns the kind of a key.
    pub(crate) fn of(key: LimitKey) -> KeyKind
        ensures { key_by result (name_of_key key) ≡ key }
    {
        match key {
            LimitKey::Exec(_) => KeyKind::Exec,
            LimitKey::Agr(_) => KeyKind::Agr,
            LimitKey::Acct(_) => KeyKind::Acct,
            LimitKey::Carry(_) => KeyKind::Carry,
            LimitKey::Guar(_) => KeyKind::Guar,
        }
    }

    /// Returns the key of this kind with this name.
    pub(crate) fn key(self, name: Name) -> LimitKey
        ensures { result ≡ key_by self name }
    {
        match self {
            KeyKind::Exec => LimitKey::Exec(FirmId { name }),
            KeyKind::Agr => LimitKey::Agr(AgreementId { name }),
            KeyKind::Acct => LimitKey::Acct(AccountId { name }),
            KeyKind::Carry => LimitKey::Carry(FirmId { name }),
            KeyKind::Guar => LimitKey::Guar(FirmId { name }),
        }
    }
}
