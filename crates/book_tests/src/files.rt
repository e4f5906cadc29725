//! Files of rows that are accepted and refused, and the texts of faults.

use crate::sample::{SAMPLE, file_of, reference_of};
use gu_ref::{RefFault, Reference};
use gu_streams::CountedReads;
use std::alloc::{AllocError, Global};
use std::io::Read;
use std::process::Abort;
use std::str;

/// Rows, and the fault that a file with these rows last is refused for, or `OK`.
type Row = (&'static [u8], &'static str);

/// Files.
const ALONE: [Row; 14] = [
    (b"", "OK"),
    (b"\n\r\n\n", "OK"),
    (b"FIRM,E1", "OK"),
    (b"\"FIRM\",\"E1\"\r\n\"GROUP\",G1\r\n", "OK"),
    (b"FIRM,\"E\"9\nFIRM,E9", "Twice 2"),
    (b"FIRM,E1\r\n\r\n\n\nFIRM,E1", "Twice 2"),
    (b"FIRM,E1\rFIRM,e2", "BadRow 2"),
    (b"FIRM,E1\n\"FIRM\",\"E\n2\"\nFIRM,E3", "BadRow 2"),
    (b"FIRM,E1\nFIRM,\"E8", "OK"),
    (b"FIRM,E\"1", "BadRow 1"),
    (b"FIRM, E1", "BadRow 1"),
    (b"\xef\xbb\xbfFIRM,E1\nGROUP,E1", "OK"),
    (b"ACCOUNT,A1,C1\nFIRM,C1", "Unknown 1"),
    (b"GROUP,g\nFIRM,e", "BadRow 1"),
];

/// Rows after the sample's.
const BEHIND_THE_SAMPLE: [Row; 38] = [
    (b"FIRM,e3", "BadRow 18"),
    (b"FIRM,", "BadRow 18"),
    (b"FIRM,E 3", "BadRow 18"),
    (b"FIRM,ABCDEFGHIJKLM", "BadRow 18"),
    (b"FIRM", "BadRow 18"),
    (b"FIRM,E3,E4", "BadRow 18"),
    (b"firm,E3", "BadRow 18"),
    (b"\"\"", "BadRow 18"),
    (b"FIRM,E\xff", "BadRow 18"),
    (b"AGREEMENT,P9,E1,A9", "Unknown 18"),
    (b"AGREEMENT,P9,E9,A1", "Unknown 18"),
    (b"INSTRUMENT,XF6,G9", "Unknown 18"),
    (b"ACCOUNT,A9,C9", "Unknown 18"),
    (b"AGREEMENT,P9,E1,H1", "BadRow 18"),
    (b"AGREEMENT,P1,E1,H1", "BadRow 18"),
    (b"AGREEMENT,P9,E1,A1", "Twice 18"),
    (b"AGREEMENT,P1,E2,A2", "Twice 18"),
    (b"FIRM,E1", "Twice 18"),
    (b"GROUP,G1", "Twice 18"),
    (b"INSTRUMENT,XF6,G2", "Twice 18"),
    (b"ACCOUNT,A1,C2", "Twice 18"),
    (b"GUARANTOR,E1", "BadRow 18"),
    (b"GUARANTOR,e1,C1", "BadRow 18"),
    (b"GUARANTOR,E2,C1,C2", "BadRow 18"),
    (b"GUARANTOR,E9,C1", "Unknown 18"),
    (b"GUARANTOR,E2,C9", "Unknown 18"),
    (b"GUARANTOR,E9,E9", "Unknown 18"),
    (b"GUARANTOR,C1,C1", "BadRow 18"),
    // A firm has one guarantor at most.
    (b"GUARANTOR,E2,C1", "OK"),
    (b"GUARANTOR,E2,C1\nGUARANTOR,E1,C1", "Twice 19"),
    (b"GUARANTOR,E2,C1\nGUARANTOR,E2,C1", "Twice 19"),
    (b"GUARANTOR,E2,C1\nGUARANTOR,C1,C1", "BadRow 19"),
    (b"GUARANTOR,E2,C1\nGUARANTOR,E9,C1", "Unknown 19"),
    (b"GUARANTOR,E2,C1\nGUARANTOR,E2,C2", "OK"),
    (b"GUARANTOR,E2,C1\nGUARANTOR,C1,E2", "OK"),
    (b"GUARANTOR,E2,C1\nGUARANTOR,E1,E2", "OK"),
    (b"GUARANTOR,E3,C1\nFIRM,E3", "Unknown 18"),
    (b"GUARANTOR,E2,C1\nAGREEMENT,P5,E1,A3", "OK"),
];

/// Rows after those of the largest file.
const BEHIND_THE_LARGEST: [Row; 12] = [
    (b"", "OK"),
    (b"FIRM,MORE", "TooMany"),
    (b"GROUP,MORE", "TooMany"),
    (b"INSTRUMENT,MORE,N0", "TooMany"),
    (b"ACCOUNT,MORE,N0", "TooMany"),
    (b"AGREEMENT,MORE,N2,N0", "TooMany"),
    (b"AGREEMENT,MORE,N1,N0", "Twice 32101"),
    (b"AGREEMENT,MORE,N0,N0", "BadRow 32101"),
    (b"ACCOUNT,MORE,MORE", "Unknown 32101"),
    (b"GUARANTOR,N5,N0", "Twice 32101"),
    (b"GUARANTOR,N5,MORE", "Unknown 32101"),
    (b"GUARANTOR,N5,N5", "BadRow 32101"),
];

/// Returns the text of a fault, and `OK` if there is none.
pub fn text_of(rt: &impl Abort, alloc: Global, read: Result<Reference, RefFault>) -> String {
    match read {
        Ok(_) => format!(in alloc; "OK").ok().expect(rt, "a text"),
        Err(fault) => format!(in alloc; "{fault}").ok().expect(rt, "a text"),
    }
}

/// Reads rows after those of a file, and compares the outcome.
fn compare(rt: &impl Abort, alloc: Global, file: &[u8], table: &[Row]) {
    for (rows, want) in table {
        let mut reads = CountedReads::new(file.chain(*rows));
        let text = text_of(rt, alloc, Reference::read(alloc, &mut reads));
        let row = str::from_utf8(rows).unwrap_or("a row that is no text");
        assert_eq!(rt; text.as_str(), *want, "{row}");
    }
}

#[test]
fn a_file_is_accepted_or_has_its_first_fault(rt: HostRuntime) {
    let alloc = rt.alloc();
    compare(&rt, alloc, b"", &ALONE);
    compare(&rt, alloc, SAMPLE.as_bytes(), &BEHIND_THE_SAMPLE);
    let largest = file_of(alloc, "the largest", "")
        .ok()
        .expect(&rt, "the largest file");
    compare(&rt, alloc, largest.as_bytes(), &BEHIND_THE_LARGEST);
    let memory = text_of(&rt, alloc, Err(RefFault::Memory));
    assert_eq!(rt; memory.as_str(), "Memory");
}

/// Adds a row with these words.
fn push_row(file: &mut Vec<u8>, words: &[&[u8]]) -> Result<(), AllocError> {
    for word in words {
        file.extend_from_slice(word)?;
        file.push(b',')?;
    }
    let _ = file.pop();
    file.push(b'\n')?;
    Ok(())
}

/// Adds the rows of a reference, in its order.
pub fn push_rows(file: &mut Vec<u8>, reference: &Reference) -> Result<(), AllocError> {
    for firm in reference.firms() {
        push_row(file, &[b"FIRM", firm.get()])?;
    }
    for group in reference.groups() {
        push_row(file, &[b"GROUP", group.get()])?;
    }
    for row in reference.instruments() {
        push_row(file, &[b"INSTRUMENT", row.symbol.get(), row.group.get()])?;
    }
    for row in reference.accounts() {
        push_row(file, &[b"ACCOUNT", row.account.get(), row.firm.get()])?;
    }
    for row in reference.agreements() {
        push_row(
            file,
            &[
                b"AGREEMENT",
                row.id.get(),
                row.executing.get(),
                row.account.get(),
            ],
        )?;
    }
    for row in reference.guarantors() {
        push_row(file, &[b"GUARANTOR", row.guarantor.get(), row.firm.get()])?;
    }
    Ok(())
}

#[test]
fn rows_stand_in_the_order_of_the_file(rt: HostRuntime) {
    let rows = "GUARANTOR,C2,E1; GUARANTOR,E2,C2; GUARANTOR,E2,C1";
    let reference = reference_of(rt.alloc(), "", rows)
        .ok()
        .expect(&rt, "a reference");
    let mut file = Vec::new(rt.alloc());
    assert!(rt; push_rows(&mut file, &reference).is_ok());
    let want = file_of(rt.alloc(), "", rows).ok().expect(&rt, "a file");
    assert!(rt; file.as_slice() == want.as_bytes(), "{file:?}");
}
