//! Why offers are refused.

ghost use Rattle.std.specs.Prelude.{◌≡◌, ◌≢◌, MatchOption};
ghost use Rattle.gu_terms.specs.AllocRejects.{reject_number};
ghost use Rattle.gu_terms.specs.declared.alloc_reject.AllocReject.{AllocReject as RejectOf};

/// A carrying firm's reason for refusing an offer (FIX: AllocStatus, tag 87). The house passes it on without acting on it.
#[derive(Clone, Copy, Debug, PartialEq, Eq)]
pub enum AllocReject {
    BlockLevel,
    AccountLevel,
    Intermediary,
}

impl AllocReject {
    /// Returns the reason with this number.
    pub fn of(number: u64) -> Option<AllocReject>
        ensures { MatchOption result ((reject : RejectOf) → number ≢ reject_number reject)
            (λ reject. number ≡ reject_number reject) }
    {
        match number {
            1 => Some(AllocReject::BlockLevel),
            2 => Some(AllocReject::AccountLevel),
            5 => Some(AllocReject::Intermediary),
            _ => None,
        }
    }

    /// Returns its number.
    pub fn number(self) -> u64
        ensures { result ≡ reject_number self }
    {
        match self {
            AllocReject::BlockLevel => 1,
            AllocReject::AccountLevel => 2,
            AllocReject::Intermediary => 5,
        }
    }
}
