//! Digests in a text that was found, and the history that it plays.

use crate::sample::played;
use gu_keeping::{DigestFault, check_digests};
use std::alloc::{AllocError, Global};

/// A text with two digests: one of the first two entries, and one of that digest and the next three entries. The second comes again if
/// nothing came since.
const TEXT: &str = "\
# giveup 1.0
# reference: SHA-256 8d980c84f4024befc1ee160a646dd0e064a6db8924d8cc96ee9d94567e2feb43
DAY 20260105
LIMIT G1 EXEC E1 100
# 2 d48901f842f4370289eedf797b95baa669d03dc847c5937ed69861c0a653369c
LIMIT G1 AGR P1 100
LIMIT G1 ACCT A1 100
LIMIT G1 CARRY C1 100
# 5 0a77a844c69fbf69025135d07cf0bb441dc5fa1226bac2efd06305e7c8add69f
# 5 0a77a844c69fbf69025135d07cf0bb441dc5fa1226bac2efd06305e7c8add69f
REPORT E1 R1 M1 B XF6 10 101.5 H1
";

/// A part of the text, its replacement, and the verdict on the text then.
const ROWS: &[(&str, &str, &str)] = &[
    ("", "", "6 entries"),
    ("# 2 d48901f8", "# 2 d48901f9", "Differs 2"),
    ("# 2 d48901f8", "# 3 d48901f8", "Differs 3"),
    ("# 2 d48901f8", "# 02 d48901f8", "Differs 2"),
    (
        "# 2 d48901f8",
        "# 99999999999999999999 d48901f8",
        "Differs 18446744073709551615",
    ),
    ("8add69f\nREPORT", "8add69e\nREPORT", "Differs 5"),
    ("LIMIT G1 AGR P1 100", "LIMIT G9 AGR P1 100", "Differs 5"),
    ("LIMIT G1 AGR P1 100", "LIMIT G1 AGR P1 101", "6 entries"),
    (
        "DAY 20260105\n",
        "DAY 20260105\nDAY 20260105\n",
        "Differs 2",
    ),
    // A line that is no digest leaves its entries to the next one.
    ("# 2 d48901f8", "# x2 d48901f8", "Differs 5"),
    ("# 2 d48901f842f4", "# 2 D48901f842f4", "Differs 5"),
    (
        "LIMIT G1 EXEC E1 100\n# 2 d48901f842f4370289eedf797b95baa669d03dc847c5937ed69861c0a653369c\n",
        "# 1 087463b66c4a0bef301fae1c9da17125a35ee073bc886113b17bdebdcc15eb43\nLIMIT G1 EXEC E1 100\n",
        "Differs 5",
    ),
    (
        "LIMIT G1 EXEC E1 100\n",
        "# 1 087463b66c4a0bef301fae1c9da17125a35ee073bc886113b17bdebdcc15eb43\nLIMIT G1 EXEC E1 100\n",
        "Differs 2",
    ),
    // The digest of no entries is 32 zeros.
    (
        "DAY 20260105\n",
        "# 0 0000000000000000000000000000000000000000000000000000000000000000\nDAY 20260105\n",
        "6 entries",
    ),
    (
        "DAY 20260105\n",
        "# 0 0000000000000000000000000000000000000000000000000000000000000001\nDAY 20260105\n",
        "Differs 0",
    ),
    (
        "REPORT E1 R1 M1 B XF6 10 101.5 H1\n",
        "# 2 d48901f842f4370289eedf797b95baa669d03dc847c5937ed69861c0a653369c\n",
        "Differs 2",
    ),
];

/// Returns the verdict on a text.
fn told(alloc: Global, text: &str) -> Result<String, AllocError> {
    let Some(book) = played(alloc, text.as_bytes()) else {
        return format!(in alloc; "bad line");
    };
    match check_digests(alloc, text.as_bytes(), book.history()) {
        Ok(chain) => format!(in alloc; "{} entries", chain.count()),
        Err(DigestFault::Memory) => Err(AllocError),
        Err(fault) => format!(in alloc; "{fault}"),
    }
}

#[test]
fn the_first_digest_that_differs_is_named(rt: HostRuntime) {
    let alloc = rt.alloc();
    for &(part, other, want) in ROWS {
        let text = if part.is_empty() {
            String::from_str(alloc, TEXT)
        } else {
            TEXT.replacen(alloc, part, other, 1)
        };
        let text = text.ok().expect(&rt, "memory");
        let told = told(alloc, &text).ok().expect(&rt, "memory");
        assert_eq!(rt; told.as_str(), want, "{part} -> {other}");
    }
}

#[test]
fn a_line_that_no_lf_ends_is_no_digest(rt: HostRuntime) {
    let alloc = rt.alloc();
    let text = "DAY 20260105\n# 1 57ae91e079fc3d0fabdb972e27d0b49d13a53717c1bb1cfd2422cf26b263aa85";
    let told = told(alloc, text).ok().expect(&rt, "memory");
    assert_eq!(rt; told.as_str(), "1 entries");
}
