//! Reference files: the sample, the house of the random histories, one with an account for each offer, and the largest.

use gu_ref::{RefFault, Reference};
use gu_streams::CountedReads;
use std::alloc::{AllocError, Global};
use std::fmt::Write;

/// The sample: seventeen rows.
pub const SAMPLE: &str = "\
FIRM,E1
FIRM,E2
FIRM,C1
FIRM,C2
GROUP,G1
GROUP,G2
INSTRUMENT,XF6,G1
INSTRUMENT,YF6,G2
ACCOUNT,H1,E1
ACCOUNT,H2,E2
ACCOUNT,A1,C1
ACCOUNT,A2,C1
ACCOUNT,A3,C2
AGREEMENT,P1,E1,A1
AGREEMENT,P2,E1,A2
AGREEMENT,P3,E2,A1
AGREEMENT,P4,E2,A3
";

/// What `tools/house --rows` prints.
const HOUSE: &str = "\
FIRM,E1
FIRM,E2
FIRM,C1
GROUP,G1
GROUP,G2
INSTRUMENT,XF6,G1
INSTRUMENT,YF6,G1
INSTRUMENT,ZF6,G2
ACCOUNT,H1,E1
ACCOUNT,H2,E2
ACCOUNT,A1,C1
ACCOUNT,A2,C1
AGREEMENT,P1,E1,A1
AGREEMENT,P2,E1,A2
AGREEMENT,P3,E2,A1
AGREEMENT,P4,E1,H2
GUARANTOR,E2,C1
";

/// 4,096 accounts, each with an agreement of its own.
const WIDE: &str = "\
FIRM,E1
FIRM,C1
GROUP,G1
INSTRUMENT,XF6,G1
ACCOUNT,H1,E1
ACCOUNT,N#,C1 x 4096
AGREEMENT,N#,E1,N# x 4096
";

/// As many rows as there may be. Firm N0 carries all accounts, and the agreements are N1's.
const LARGEST: &str = "\
FIRM,N# x 1000
GROUP,N# x 100
INSTRUMENT,N#,N0 x 10000
ACCOUNT,N#,N0 x 10000
AGREEMENT,N#,N1,N# x 10000
GUARANTOR,N#+1,N# x 999
GUARANTOR,N0,N999
";

/// Returns the rows of a file by its name.
fn rows_of(name: &str) -> &'static str {
    match name {
        "the house" => HOUSE,
        "the wide" => WIDE,
        "the largest" => LARGEST,
        "nothing" => "",
        _ => SAMPLE,
    }
}

/// Adds a number.
fn push_number(text: &mut String, n: u64) -> Result<(), AllocError> {
    match write!(text, "{n}") {
        Ok(()) => Ok(()),
        Err(_) => Err(AllocError),
    }
}

/// Returns how much more than the number a `#` means, by the text after it, and the rest of this text.
fn more_after(part: &str) -> (u64, &str) {
    if let Some(rest) = part.strip_prefix("+1") {
        return (1, rest);
    }
    match part.strip_prefix("+2") {
        Some(rest) => (2, rest),
        None => (0, part),
    }
}

/// Adds a form with a number for each `#`, and the next ones for `#+1` and `#+2`.
pub fn push_numbered(text: &mut String, form: &str, n: u64) -> Result<(), AllocError> {
    let mut parts = form.split("#");
    text.push_str(parts.next().unwrap_or(""))?;
    for part in parts {
        let (more, rest) = more_after(part);
        push_number(text, n.saturating_add(more))?;
        text.push_str(rest)?;
    }
    Ok(())
}

/// Adds a row, or as many as the number after ` x ` says, in which that of each takes the place of `#`, from 0 on.
fn push_rows(file: &mut String, row: &str) -> Result<(), AllocError> {
    let (form, count) = row.split_once(" x ").unwrap_or((row, "1"));
    for n in 0..count.parse::<u64>().unwrap_or(0) {
        push_numbered(file, form, n)?;
        file.push('\n')?;
    }
    Ok(())
}

/// Returns the text of a file, and more rows, with `; ` between two.
pub fn file_of(alloc: Global, name: &str, rows: &str) -> Result<String, AllocError> {
    let mut file = String::new(alloc);
    for row in rows_of(name).lines() {
        push_rows(&mut file, row)?;
    }
    for row in rows.split_terminator("; ") {
        push_rows(&mut file, row)?;
    }
    Ok(file)
}

/// Returns the reference of a file with more rows.
pub fn reference_of(alloc: Global, name: &str, rows: &str) -> Result<Reference, RefFault> {
    let file = file_of(alloc, name, rows)?;
    Reference::read(alloc, &mut CountedReads::new(file.as_bytes()))
}
