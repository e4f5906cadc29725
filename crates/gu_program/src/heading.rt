//! The comments at the head of a journal.

use gu_words::VERSION;
use jiff::Timestamp;
use std::alloc::{AllocError, Global};

/// The text before the digest of the reference.
const REFERENCE: &str = "# reference: SHA-256 ";

/// The head of a journal: the program's version, the digest of the reference, and a time.
#[derive(Drop)]
pub struct Heading {
    /// The SHA-256 digest of the reference's file.
    pub reference: [u8; 32],
    /// When the day was opened or resumed.
    pub opened: Timestamp,
}

impl Heading {
    /// Returns the comments for a day that is opened.
    pub fn text(&self, alloc: Global) -> Result<String, AllocError> {
        let digest = hex::encode(alloc, self.reference.as_slice())?;
        format!(in alloc;
            "# giveup {VERSION}\n{REFERENCE}{digest}\n# opened: {}\n",
            self.opened
        )
    }

    /// Returns the comments for a day that is resumed.
    pub fn resumed_text(&self, alloc: Global) -> Result<String, AllocError> {
        format!(in alloc; "# giveup {VERSION}\n# resumed: {}\n", self.opened)
    }

    /// Returns whether the head of a text names this reference.
    pub fn is_of(&self, alloc: Global, text: &[u8]) -> Result<bool, AllocError> {
        let digest = hex::encode(alloc, self.reference.as_slice())?;
        let line = format!(in alloc; "{REFERENCE}{digest}")?;
        Ok(
            text.split(|byte| *byte == b'\n')
                .take_while(|head| head.starts_with(b"#"))
                .any(|head| head == line.as_bytes()),
        )
    }
}
