//! The path of an agreement.

ghost use Rattle.std.specs.Prelude.{◌≡◌, ◌↔◌, IfSome, IsNone, None, Some};
ghost use Rattle.std.specs.List.{IsDistinct};
ghost use Rattle.std.specs.Option.{option_map};
ghost use Rattle.gu_terms.specs.LimitKeys.{key_eq};
ghost use Rattle.gu_terms.specs.Paths.{path_through};
ghost use Rattle.gu_ref.specs.Reference.{agreement_between, agreement_row, guarantor_of, partner_between};
ghost use Rattle.gu_limits.specs.Paths.{path_of};

use gu_ref::{Partner, Reference};
use gu_terms::{AccountId, AgreementId, FirmId, Path};

/// Returns the path through an executing firm, its agreement, the agreement's account and its carrying firm.
#[tactic(auto, using(crate::proofs::PathKeys::kinds_differ))]
fn through(
    reference: &Reference,
    executing: &FirmId,
    agreement: &AgreementId,
    account: &AccountId,
    carrying: &FirmId,
) -> Path
    ensures keys { result ≡ path_through executing.now agreement.now account.now carrying.now (guarantor_of reference.now carrying.now) }
    ensures once { IsDistinct key_eq result }
{
    let guarantor = reference.guarantor(*carrying);
    Path::new(*executing, *agreement, *account, *carrying, guarantor)
}

/// Returns the keys that apply to an agreement's offers, in order: executing firm, agreement, account, the firm that carries the account,
/// and that firm's guarantor if it has one. A guarantor's own guarantor isn't followed, and no key occurs twice.
pub fn path(reference: &Reference, agreement: AgreementId) -> Option<Path>
    ensures keys { result ≡ path_of reference.now agreement }
    ensures once { IfSome result (IsDistinct key_eq) }
    ensures unknown { IsNone result ↔ (agreement_row reference.now agreement ≡ None) }
{
    // Shows the prover: the rules of the reference.
    reference.rules();
    let parties = reference.agreement(agreement)?;
    let carrying = reference.account(parties.account)?.firm;
    Some(through(
        reference,
        &parties.executing,
        &agreement,
        &parties.account,
        &carrying,
    ))
}

/// Returns the path of an agreement that is known to be between this executing firm and this account.
pub fn path_by(
    reference: &Reference,
    executing: &FirmId,
    account: &AccountId,
    partner: &Partner,
) -> Path
    requires { partner_between reference.now executing.now account.now ≡ Some partner.now }
    ensures keys { path_of reference.now partner.now.agreement ≡ Some result }
    ensures once { IsDistinct key_eq result }
{
    // Shows the prover: the rules of the reference.
    reference.rules();
    through(
        reference,
        executing,
        &partner.agreement,
        account,
        &partner.carrying,
    )
}

/// Returns the agreement by which an executing firm gives trades up to an account, and its path.
pub fn path_between(
    reference: &Reference,
    executing: FirmId,
    account: AccountId,
) -> Option<(AgreementId, Path)>
    ensures agreement { option_map (λ p. p.0) result ≡ agreement_between reference.now executing account }
    ensures keys { IfSome result (λ p. path_of reference.now p.0 ≡ Some p.1) }
    ensures once { IfSome result (λ p. IsDistinct key_eq p.1) }
{
    // Shows the prover: the rules of the reference.
    reference.rules();
    let partner = reference.partner(executing, account)?;
    let path = path_by(reference, &executing, &account, &partner);
    Some((partner.agreement, path))
}
