//! The entries of a log: batches under the names of the desks that put them.

ghost use Rattle.std.specs.Prelude.{◌≡◌, ◌≢◌, ℕ, List, IfNone, IfOk, IfSome};
ghost use Rattle.gu_etcd.specs.Keys.{IsName};
ghost use Rattle.gu_etcd.specs.Log.{entry_of};

use crate::{after_prefix, is_name, split_at_byte};
use std::alloc::{AllocError, Global};

/// What each entry begins with.
const HEAD: &[u8] = b"# desk ";

/// Returns the entry with which a desk puts a batch.
pub fn entry_of(alloc: Global, desk: &[u8], batch: &[u8]) -> Result<Vec<u8>, AllocError>
    ensures { IfOk result (λ entry. entry.items ≡ entry_of desk.now batch.now) }
{
    let mut entry = Vec::from_slice(alloc, HEAD)?;
    entry.extend_from_slice(desk)?;
    entry.push(b'\n')?;
    entry.extend_from_slice(batch)?;
    Ok(entry)
}

/// Returns the name of the desk that put an entry, and its batch, if the text is an entry of a desk with a name.
pub fn parts_of(entry: &[u8]) -> Option<(&[u8], &[u8])>
    ensures parts { IfSome result (λ parts. entry.now ≡ entry_of parts.0.now parts.1.now) }
    ensures named { IfSome result (λ parts. IsName parts.0.now) }
    ensures none { IfNone result ((desk batch : List ℕ) → IsName desk → entry.now ≢ entry_of desk batch) }
{
    let rest = after_prefix(entry, HEAD)?;
    let (desk, batch) = split_at_byte(rest, b'\n')?;
    if is_name(desk) {
        Some((desk, batch))
    } else {
        None
    }
}

/// An entry is that of one desk, and has one batch: desks with other names don't put it.
pub fn an_entry_is_of_one_desk()
    ensures { (a b x y : List ℕ) → IsName a → IsName b → entry_of a x ≡ entry_of b y → (a ≡ b) × (x ≡ y) }
{}
