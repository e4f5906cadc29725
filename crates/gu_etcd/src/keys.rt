//! The keys of a log in etcd.

ghost use Rattle.std.specs.Prelude.{◌≡◌, ◌<◌, IfOk};
ghost use Rattle.gu_etcd.specs.Keys.{batch_key, digit_of, end_key, leader_key, ten_digits};

use std::alloc::{AllocError, Global};

/// Returns the digit of a number that counts these units.
fn digit(number: u64, unit: u64) -> u8
    requires { 0 < unit }
    ensures { result ≡ digit_of number unit }
{
    b'0' + (number / unit % 10) as u8
}

/// Returns the last ten digits of a number.
pub(crate) fn ten_digits(number: u64) -> [u8; 10]
    ensures { result ≡ ten_digits number }
{
    [
        digit(number, 1_000_000_000),
        digit(number, 100_000_000),
        digit(number, 10_000_000),
        digit(number, 1_000_000),
        digit(number, 100_000),
        digit(number, 10_000),
        digit(number, 1_000),
        digit(number, 100),
        digit(number, 10),
        digit(number, 1),
    ]
}

/// Returns the key of the entry with a number.
pub fn batch_key(alloc: Global, name: &[u8], number: u64) -> Result<Vec<u8>, AllocError>
    ensures { IfOk result (λ key. key.items ≡ batch_key name.now number) }
{
    let mut key = Vec::from_slice(alloc, name)?;
    key.push(b'/')?;
    key.extend_from_slice(&ten_digits(number))?;
    Ok(key)
}

/// Returns the end of the keys of entries, which is after them all.
pub fn end_key(alloc: Global, name: &[u8]) -> Result<Vec<u8>, AllocError>
    ensures { IfOk result (λ key. key.items ≡ end_key name.now) }
{
    let mut key = Vec::from_slice(alloc, name)?;
    key.extend_from_slice(b"/:")?;
    Ok(key)
}

/// Returns the key of the desk that leads.
pub fn leader_key(alloc: Global, name: &[u8]) -> Result<Vec<u8>, AllocError>
    ensures { IfOk result (λ key. key.items ≡ leader_key name.now) }
{
    let mut key = Vec::from_slice(alloc, name)?;
    key.extend_from_slice(b"/leader")?;
    Ok(key)
}
