//! Lines with which several transcripts begin.

/// A day with limits of 100 on the path of P1, and a trade of ten lots, bought for H1 by report R1 of E1 and sold for H2 by
/// report R2 of E2.
const A_TRADE: &str = "\
DAY 20260105                      = 1 OK
LIMIT G1 EXEC E1 100              = 2 OK
LIMIT G1 AGR P1 100               = 3 OK
LIMIT G1 ACCT A1 100              = 4 OK
LIMIT G1 CARRY C1 100             = 5 OK
REPORT E1 R1 M1 B XF6 10 101.5 H1 = 6 OK OPEN
REPORT E2 R2 M1 S XF6 10 101.5 H2 = 7 OK MATCHED
";

/// The same for five thousand lots.
const A_LARGE_TRADE: &str = "\
DAY 20260105                        = 1 OK
LIMIT G1 EXEC E1 100                = 2 OK
LIMIT G1 AGR P1 100                 = 3 OK
LIMIT G1 ACCT A1 100                = 4 OK
LIMIT G1 CARRY C1 100               = 5 OK
REPORT E1 R1 M1 B XF6 5000 101.5 H1 = 6 OK OPEN
REPORT E2 R2 M1 S XF6 5000 101.5 H2 = 7 OK MATCHED
";

/// The same for seven lots, and their give-up to A1.
const AN_OFFER: &str = "\
DAY 20260105                      = 1 OK
LIMIT G1 EXEC E1 100              = 2 OK
LIMIT G1 AGR P1 100               = 3 OK
LIMIT G1 ACCT A1 100              = 4 OK
LIMIT G1 CARRY C1 100             = 5 OK
REPORT E1 R1 M1 B XF6 7 101.5 H1  = 6 OK OPEN
REPORT E2 R2 M1 S XF6 7 101.5 H2  = 7 OK MATCHED
GIVEUP E1 L1 R1 A1 7              = 8 OK OFFERS 1 1
";

/// Three agreements of two executing firms, into two accounts of one carrying firm.
const THREE_OFFERS: &str = "\
DAY 20260105                      = 1 OK
LIMIT G1 EXEC E1 10               = 2 OK
LIMIT G1 EXEC E2 20               = 3 OK
LIMIT G1 AGR P1 100               = 4 OK
LIMIT G1 AGR P2 100               = 5 OK
LIMIT G1 AGR P3 100               = 6 OK
LIMIT G1 ACCT A1 10               = 7 OK
LIMIT G1 ACCT A2 20               = 8 OK
LIMIT G1 CARRY C1 100             = 9 OK
REPORT E1 R1 M1 B XF6 22 101.5 H1 = 10 OK OPEN
REPORT E2 R2 M1 S XF6 22 101.5 H2 = 11 OK MATCHED
GIVEUP E1 L1 R1 A1 10 A2 12       = 12 OK OFFERS 1 2
GIVEUP E2 L2 R2 A1 15             = 13 OK OFFERS 3 3
";

/// Returns the lines of a beginning by its name.
pub fn beginning(name: &str) -> &'static str {
    match name {
        "a trade" => A_TRADE,
        "a large trade" => A_LARGE_TRADE,
        "an offer" => AN_OFFER,
        "three offers" => THREE_OFFERS,
        _ => "",
    }
}
