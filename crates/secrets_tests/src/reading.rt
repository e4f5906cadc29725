//! Files that are accepted, and the lines that others are refused for.

use crate::sample::{FILE, read};
use gu_secrets::SecretsFault;
use std::alloc::{AllocError, Global};

/// A part of the file, its replacement, and the verdict on the file then.
const ROWS: &[(&str, &str, &str)] = &[
    ("", "", "OK"),
    // The firm.
    ("E1,0001", "F1,0001", "OK"),
    ("E1,0001", "E2,0001", "BadRow 1"),
    ("E1,0001", "e1,0001", "BadRow 1"),
    ("E1,0001", ",0001", "BadRow 1"),
    ("E1,0001", " E1,0001", "BadRow 1"),
    ("E1,0001", "\"E1\",0001", "BadRow 1"),
    ("C1,A5", "C,A5", "BadRow 2"),
    ("H-1,", "H-2,", "BadRow 5"),
    // The salt.
    ("E1,0001", "E1,00001", "BadRow 1"),
    ("E1,0001", "E1,000001", "BadRow 1"),
    ("E1,0001", "E1,01", "BadRow 1"),
    ("E1,0001", "E1,", "BadRow 1"),
    ("E1,0001", "E1,g001", "BadRow 1"),
    ("E1,0001", "E1, 001", "BadRow 1"),
    ("C1,A5A5", "C1,a5A5", "OK"),
    // The digest.
    (",3a72", ",3A72", "OK"),
    (",3a72", ",a72", "BadRow 1"),
    (",3a72", ",72", "BadRow 1"),
    (",3a72", ",003a72", "BadRow 1"),
    (",3a72", ",3a7z", "BadRow 1"),
    ("7D0AB", "7D0AB ", "BadRow 2"),
    ("7D0AB", "7D0AB,", "BadRow 2"),
    // The fields.
    (",3a72", ",,3a72", "BadRow 1"),
    (",3a72", ";3a72", "BadRow 1"),
    // The lines.
    ("E1,0001", "\n\r\n\nE1,0001", "OK"),
    ("E1,0001", "\n\r\n\nE1,", "BadRow 4"),
    ("\r\n", "\r\r\n", "BadRow 4"),
    ("\r\n", "\n \n", "BadRow 5"),
    ("\r\n", "\n# a comment\n", "BadRow 5"),
    ("ec37bb", "ec37bb\r", "BadRow 5"),
    ("ec37bb", "ec37bb\n\r", "BadRow 6"),
    ("ec37bb", "ec37bb\r\n\r\n", "OK"),
];

/// Returns the verdict on a file.
fn told(alloc: Global, file: &[u8]) -> Result<String, AllocError> {
    match read(alloc, file) {
        Ok(_) => String::from_str(alloc, "OK"),
        Err(SecretsFault::Memory) => Err(AllocError),
        Err(fault) => format!(in alloc; "{fault}"),
    }
}

#[test]
fn the_first_bad_line_is_named(rt: HostRuntime) {
    let alloc = rt.alloc();
    for &(part, other, want) in ROWS {
        let file = if part.is_empty() {
            String::from_str(alloc, FILE)
        } else {
            FILE.replacen(alloc, part, other, 1)
        };
        let file = file.ok().expect(&rt, "memory");
        let told = told(alloc, file.as_bytes()).ok().expect(&rt, "memory");
        assert_eq!(rt; told.as_str(), want, "{part} -> {other}");
    }
}

#[test]
fn a_file_without_rows_is_accepted(rt: HostRuntime) {
    let told = told(rt.alloc(), b"").ok().expect(&rt, "memory");
    assert_eq!(rt; told.as_str(), "OK");
}
