//! The carrying side of an agreement.

use gu_terms::{AgreementId, FirmId};

/// An agreement by which an executing firm gives trades up to an account, and the firm that carries the account.
#[derive(Clone, Copy, Debug, PartialEq, Eq)]
pub struct Partner {
    pub agreement: AgreementId,
    pub carrying: FirmId,
}
