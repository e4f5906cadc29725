//! Messages on standard error.

use crate::rows::check_told;
use gu_program::{DoorsFault, JournalFault, RunError, SecretsError};
use gu_ref::RefFault;
use gu_script::ScriptError;
use gu_secrets::SecretsFault;
use gu_streams::StreamError;
use std::alloc::Global;
use std::process::Abort;

/// Asserts the message for an error.
fn check<E>(rt: &impl Abort, alloc: Global, error: E, text: &str)
where
    RunError: From<E>,
{
    let error = RunError::from(error);
    check_told(rt, text, format!(in alloc; "{error}"), text);
}

#[test]
fn errors_are_said_in_these_words(rt: HostRuntime) {
    let alloc = rt.alloc();
    check(&rt, alloc, StreamError::Memory, "out of memory");
    check(&rt, alloc, StreamError::Read, "read fault");
    check(&rt, alloc, StreamError::Write, "write fault");
    check(&rt, alloc, ScriptError::Memory, "out of memory");
    check(&rt, alloc, ScriptError::Read, "read fault");
    check(&rt, alloc, ScriptError::Write, "write fault");
    check(&rt, alloc, ScriptError::BadLine(9), "bad line 9");
    check(&rt, alloc, RefFault::Memory, "out of memory");
    check(&rt, alloc, RefFault::BadRow(3), "reference: BadRow 3");
    check(&rt, alloc, RefFault::TooMany, "reference: TooMany");
    check(&rt, alloc, SecretsFault::Memory, "out of memory");
    check(&rt, alloc, SecretsFault::BadRow(3), "secrets: BadRow 3");
    let unread = RunError::Secrets(SecretsError::ReadFault);
    check(&rt, alloc, unread, "secrets: ReadFault");
    let taken = RunError::Doors(DoorsFault::InUse);
    check(&rt, alloc, taken, "doors: InUse");
    let many = RunError::Doors(DoorsFault::TooFewFiles(75));
    check(&rt, alloc, many, "doors: TooFewFiles 75");
    let fenced = RunError::Journal(JournalFault::Fenced);
    check(&rt, alloc, fenced, "journal: Fenced");
    let unreachable = RunError::Journal(JournalFault::Unreachable);
    check(&rt, alloc, unreachable, "journal: Unreachable");
    let unopened = RunError::Journal(JournalFault::Unopened);
    check(&rt, alloc, unopened, "journal: Unopened");
}
