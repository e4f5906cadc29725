//! The sample: the reference and the day of a run without words.

ghost use Rattle.std.specs.Prelude.{◌≡◌, Some, IfOk};
ghost use Rattle.gu_ref.specs.File.{IsReadFrom};
ghost use Rattle.gu_program.specs.declared.sample.TheConstants.{SAMPLE_ROWS};

use gu_ref::{RefFault, Reference};
use gu_streams::CountedReads;
use gu_terms::Day;
use std::alloc::Global;

/// Two executing firms with an account each, two carrying firms with three, and the agreements between them.
pub const SAMPLE_ROWS: &[u8] = b"FIRM,E1
FIRM,E2
FIRM,C1
FIRM,C2
GROUP,G1
GROUP,G2
INSTRUMENT,XF6,G1
INSTRUMENT,YF6,G2
ACCOUNT,H1,E1
ACCOUNT,H2,E2
ACCOUNT,A1,C1
ACCOUNT,A2,C1
ACCOUNT,A3,C2
AGREEMENT,P1,E1,A1
AGREEMENT,P2,E1,A2
AGREEMENT,P3,E2,A1
AGREEMENT,P4,E2,A3
";

/// Returns the reference that the sample's rows make.
pub fn sample_reference(alloc: Global) -> Result<Reference, RefFault>
    ensures { IfOk result (λ reference. IsReadFrom (Some SAMPLE_ROWS.now) reference) }
{
    Reference::read(alloc, &mut CountedReads::new(SAMPLE_ROWS))
}

/// Returns 5 January 2026.
pub fn sample_day() -> Day
    ensures year { result.year ≡ 2026 }
    ensures month { result.month ≡ 1 }
    ensures day { result.day ≡ 5 }
{
    Day::known(2026, 1, 5)
}
