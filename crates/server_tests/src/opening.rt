//! Days of the sample after a script.

use gu_book::Book;
use gu_ref::Reference;
use gu_script::{ScriptError, play};
use gu_streams::CountedReads;
use gu_terms::{Receipt, Seed};
use std::alloc::Global;
use std::io;

/// The rows of the sample.
const ROWS: &str = "\
FIRM,E1
FIRM,E2
FIRM,C1
FIRM,C2
FIRM,E3
GROUP,G1
GROUP,G2
INSTRUMENT,XF6,G1
INSTRUMENT,YF6,G2
ACCOUNT,H1,E1
ACCOUNT,H2,E2
ACCOUNT,A1,C1
ACCOUNT,A2,C1
ACCOUNT,A3,C2
AGREEMENT,P1,E1,A1
AGREEMENT,P2,E1,A2
AGREEMENT,P3,E2,A1
AGREEMENT,P4,E2,A3
";

/// A day with limits of 100 on the path of P1, and a trade of ten lots.
pub const A_TRADE: &str = "\
DAY 20260105
LIMIT G1 EXEC E1 100
LIMIT G1 AGR P1 100
LIMIT G1 ACCT A1 100
LIMIT G1 CARRY C1 100
REPORT E1 R1 M1 B XF6 10 101.5 H1
REPORT E2 R2 M1 S XF6 10 101.5 H2
";

/// A day with limits of 100 on the path of P1, and a trade of fifty lots.
pub const A_LARGE_TRADE: &str = "\
DAY 20260105
LIMIT G1 EXEC E1 100
LIMIT G1 AGR P1 100
LIMIT G1 ACCT A1 100
LIMIT G1 CARRY C1 100
REPORT E1 R1 M1 B XF6 50 101.5 H1
REPORT E2 R2 M1 S XF6 50 101.5 H2
";

/// A day of the other group: with limits of 100 on the path of P1, and a trade of ten lots.
pub const A_TRADE_OF_G2: &str = "\
DAY 20260105
LIMIT G2 EXEC E1 100
LIMIT G2 AGR P1 100
LIMIT G2 ACCT A1 100
LIMIT G2 CARRY C1 100
REPORT E1 R1 M1 B YF6 10 101.5 H1
REPORT E2 R2 M1 S YF6 10 101.5 H2
";

/// A day with a trade of ten lots in each group, and limits of 100 on the path of P1.
pub const A_TRADE_IN_EACH_GROUP: &str = "\
DAY 20260105
LIMIT G1 EXEC E1 100
LIMIT G1 AGR P1 100
LIMIT G1 ACCT A1 100
LIMIT G1 CARRY C1 100
LIMIT G2 EXEC E1 100
LIMIT G2 AGR P1 100
LIMIT G2 ACCT A1 100
LIMIT G2 CARRY C1 100
REPORT E1 R1 M1 B XF6 10 101.5 H1
REPORT E2 R2 M1 S XF6 10 101.5 H2
REPORT E1 R3 M3 B YF6 10 101.5 H1
REPORT E2 R4 M3 S YF6 10 101.5 H2
";

/// Returns the book of the sample after a script, and the receipts of its entries.
pub fn book_after(alloc: Global, script: &str) -> Result<(Book, Vec<Receipt>), ScriptError> {
    let Ok(reference) = Reference::read(alloc, &mut CountedReads::new(ROWS.as_bytes())) else {
        return Err(ScriptError::Read);
    };
    let mut reads = CountedReads::new(script.as_bytes());
    let world = play(alloc, reference, Seed::new(0), &mut reads, &mut io::sink())?;
    let receipts = world.outcomes().receipts(alloc)?;
    Ok((world.into_book(), receipts))
}
