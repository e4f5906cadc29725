//! Texts of numbers and days, beside their values.
use crate::rows::{Subject, check, number};
use gu_msgs::midnight_of;
use gu_terms::{Day, Lots, Moment, OfferNo, read_lots, read_price};
use std::alloc::{AllocError, Global};

/// Texts of lots, and what they mean.
const LOTS: &str = "\
0010.0 -> 10
10. -> 10
9 -> 9
000000000016 -> 16
0000000000016 -> 16
999999999999 -> OutOfRange
1000000 -> 1000000
10.5 -> OutOfRange
0 -> OutOfRange
-5 -> OutOfRange
-0 -> OutOfRange
1000001 -> OutOfRange
18446744073709551617 -> OutOfRange
 -> BadNumber
. -> BadNumber
+5 -> BadNumber
1e3 -> BadNumber
- -> BadNumber
-. -> BadNumber
1.2.3 -> BadNumber
";

/// Texts of prices, and the millionths that they mean.
const PRICES: &str = "\
-0.25 -> -250000
23. -> 23000000
.5 -> 500000
0001.50000000 -> 1500000
8118.97 -> 8118970000
1.234567 -> 1234567
1.2000000 -> 1200000
1.2345678 -> OutOfRange
999999.99999 -> 999999999990
9999999.99999 -> 9999999999990
000000008118 -> 8118000000
0000000008118 -> 8118000000
999999999999 -> OutOfRange
1.5. -> BadNumber
999999999.999999 -> 999999999999999
-0 -> 0
1000000000 -> OutOfRange
0.0000001 -> OutOfRange
 -> BadNumber
. -> BadNumber
+5 -> BadNumber
1e3 -> BadNumber
";

/// Texts of days, the year, the month and the day that they mean, and the milliseconds from 1970-01-01 to them.
const DAYS: &str = "\
20260105 -> (2026, 1, 5) 1767571200000
20240229 -> (2024, 2, 29) 1709164800000
99991231 -> (9999, 12, 31) 253402214400000
00010101 -> (1, 1, 1) 0
19691231 -> (1969, 12, 31) 0
19700101 -> (1970, 1, 1) 0
19700102 -> (1970, 1, 2) 86400000
20260230 -> OutOfRange
20260001 -> OutOfRange
00000101 -> OutOfRange
2026010 -> BadNumber
2026-105 -> BadNumber
";

/// Numbers, and whether lots, an offer and a moment can have them.
const RANGES: &str = "\
0 -> false false true
1 -> true true true
1000000 -> true true true
1000001 -> false true true
16000000 -> false true true
16000001 -> false false true
253402300799999 -> false false true
253402300800000 -> false false false
";

/// Returns the number of lots that a text means, or why it means none.
pub fn lots_told(alloc: Global, text: &str) -> Result<String, AllocError> {
    match read_lots(text.as_bytes()) {
        Ok(lots) => format!(in alloc; "{}", lots.get()),
        Err(error) => format!(in alloc; "{error}"),
    }
}

/// Returns the millionths that a text means, or why it means none.
pub fn price_told(alloc: Global, text: &str) -> Result<String, AllocError> {
    match read_price(text.as_bytes()) {
        Ok(price) => format!(in alloc; "{}", price.get()),
        Err(error) => format!(in alloc; "{error}"),
    }
}

/// Returns the day that a text means and its first moment, or why it means none.
pub fn day_told(alloc: Global, text: &str) -> Result<String, AllocError> {
    match Day::read(text.as_bytes()) {
        Ok(day) => format!(in alloc; "{:?} {}", day.get(), midnight_of(day).get()),
        Err(error) => format!(in alloc; "{error}"),
    }
}

/// Returns whether lots, an offer and a moment can have the number that a text writes.
pub fn ranges_told(alloc: Global, text: &str) -> Result<String, AllocError> {
    let number = number(text);
    let is_lots = Lots::new(number).is_some();
    let is_offer = OfferNo::new(number).is_some();
    let is_moment = Moment::new(number).is_some();
    format!(in alloc; "{is_lots} {is_offer} {is_moment}")
}

#[test]
fn numbers_and_days_are_read_from_their_texts(rt: HostRuntime) {
    check(&rt, rt.alloc(), Subject::Lots, LOTS);
    check(&rt, rt.alloc(), Subject::Price, PRICES);
    check(&rt, rt.alloc(), Subject::Day, DAYS);
    check(&rt, rt.alloc(), Subject::Ranges, RANGES);
}
