//! What a log has.

ghost use Rattle.std.specs.Prelude.{◌<◌, ◌≤◌, ◌+◌, ◌≡◌, IfOk, IsTrue, OnOk, length};
ghost use Rattle.gu_etcd.specs.declared.node.TheConstants.{LAST_NUMBER};

use gu_etcd::{Exchange, Gateway, LAST_NUMBER, NodeError, Page, TRIES, parts_of};
use std::alloc::{AllocError, Global};
use thiserror::Error;

/// Why a log can't be read.
#[derive(Clone, Copy, Debug, PartialEq, Eq, Error)]
pub enum LogError {
    /// No memory was left.
    #[error("out of memory")]
    Memory,
    /// No answer came.
    #[error("no answer")]
    Unanswered,
    /// One of its entries isn't a batch of a desk.
    #[error("not a batch of a desk")]
    Foreign,
}

/// What a log has: the number of its entries, and the text of their batches, one after another.
#[derive(Drop)]
pub struct LogText {
    pub count: u64,
    pub text: Vec<u8>,
    ghost within: { count ≤ LAST_NUMBER },
}

/// Returns the error for a question that failed.
fn error_of(error: NodeError) -> LogError {
    match error {
        NodeError::Memory => LogError::Memory,
        NodeError::Unanswered => LogError::Unanswered,
    }
}

/// Returns the page of a log that begins at a number, asked for until an answer comes, `TRIES` times at most.
pub fn page_at<X: Exchange>(
    alloc: Global,
    gateway: &mut Gateway<X>,
    number: u64,
) -> Result<Page, LogError>
    requires { number ≤ LAST_NUMBER }
    ensures goes_on { IfOk result (λ page. IsTrue page.has_more → 0 < length page.entries.items) }
{
    for _attempt in 0..TRIES {
        match gateway.page(alloc, number) {
            Ok(page) => return Ok(page),
            Err(NodeError::Memory) => return Err(LogError::Memory),
            Err(NodeError::Unanswered) => {}
        }
    }
    Err(LogError::Unanswered)
}

impl From<AllocError> for LogError {
    ghost use Rattle.gu_lead.specs.declared.log_text.LogError.TheVariants.{Memory};

    ghost from_gives = { λ _ error. error ≡ Memory };

    fn from(_: AllocError) -> Self {
        LogError::Memory
    }
}

impl LogText {
    /// Adds an entry.
    fn add(&mut self, entry: &[u8]) -> Result<(), LogError>
        requires { self.old.count < LAST_NUMBER }
        ensures { OnOk result (self.new.count ≡ self.old.count + 1) }
    {
        let Some((_, batch)) = parts_of(entry) else {
            return Err(LogError::Foreign);
        };
        self.text.extend_from_slice(batch)?;
        self.count += 1;
        Ok(())
    }

    /// Adds a page.
    fn add_page(&mut self, page: &Page) -> Result<(), LogError>
        ensures { OnOk result (self.new.count ≡ self.old.count + length page.now.entries.items) }
    {
        for entry in &page.entries {
            if self.count == LAST_NUMBER {
                return Err(LogError::Foreign);
            }
            self.add(entry)?;
        }
        Ok(())
    }

    /// Adds the pages that come after what was read.
    fn add_rest<X: Exchange>(
        &mut self,
        alloc: Global,
        gateway: &mut Gateway<X>,
    ) -> Result<(), LogError> {
        while self.count < LAST_NUMBER {
            let page = page_at(alloc, gateway, self.count + 1)?;
            self.add_page(&page)?;
            if !page.has_more {
                return Ok(());
            }
        }
        Ok(())
    }

    /// Returns what the log of a gateway has. Each question is asked again if no answer comes.
    pub fn read<X: Exchange>(alloc: Global, gateway: &mut Gateway<X>) -> Result<LogText, LogError> {
        let mut found = LogText {
            count: 0,
            text: Vec::new(alloc),
        };
        found.add_rest(alloc, gateway)?;
        Ok(found)
    }
}
