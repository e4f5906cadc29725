//! The data that notices are made from.

ghost use Rattle.std.specs.Prelude.{◌≡◌};
ghost use Rattle.gu_notices.specs.Registers.{register_in};
ghost use Rattle.gu_book.specs.Beside.{register_kept};

use crate::totals::Totals;
use gu_notices::Register;
use gu_ref::Reference;

/// Returns the data that notices are made from.
pub fn register_of<'a>(reference: &'a Reference, totals: &'a Totals) -> Register<'a>
    ensures { register_in result ≡ register_kept reference.now totals.now }
{
    Register {
        reference,
        trades: &totals.trades,
        offers: &totals.offers,
    }
}
