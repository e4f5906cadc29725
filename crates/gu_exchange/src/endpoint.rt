//! Where an etcd listens: a host of this machine, and a port.

ghost use Rattle.std.specs.Prelude.{◌≡◌, ◌≢◌, ◌⊎◌, ◌↔◌, IsTrue, codes, slice_index};
ghost use Rattle.gu_exchange.specs.Endpoints.{IsEndpoint, IsIpv4Loopback, IsNamedEndpoint, IsPort, IsSmall};

use gu_etcd::{after_prefix, split_at_byte};
use std::net::Ipv4Addr;

/// Returns whether this is an IPv4 address in 127.0.0.0/8.
fn is_ipv4_loopback(text: &[u8]) -> bool
    ensures { IsTrue result ↔ IsIpv4Loopback text.now }
{
    text.starts_with(b"127.") && Ipv4Addr::parse_ascii(text).is_ok()
}

/// Returns whether this is `localhost` or an IPv4 address in 127.0.0.0/8.
fn is_host(text: &[u8]) -> bool
    ensures { IsTrue result ↔ ((text.now ≡ codes "localhost") ⊎ IsIpv4Loopback text.now) }
{
    text == b"localhost".as_slice() || is_ipv4_loopback(text)
}

/// Returns whether a text that has no plus is a number below 65536, in digits.
fn is_small(text: &[u8]) -> bool
    requires { slice_index text.now 0 ≢ 43 }
    ensures { IsTrue result ↔ IsSmall text.now }
{
    match std::str::from_utf8(text) {
        Ok(digits) => digits.parse::<u16>().is_ok(),
        Err(_) => false,
    }
}

/// Returns whether this is a port: a number from 1 to 65535 in digits, of which the first isn't 0.
fn is_port(text: &[u8]) -> bool
    ensures { IsTrue result ↔ IsPort text.now }
{
    let [first, ..] = text else {
        return false;
    };
    *first != b'0' && *first != b'+' && is_small(text)
}

/// Returns whether this is `localhost` or an IPv4 address in 127.0.0.0/8, a colon and a port.
fn is_named_endpoint(text: &[u8]) -> bool
    ensures { IsTrue result ↔ IsNamedEndpoint text.now }
{
    match split_at_byte(text, b':') {
        Some((host, port)) => is_host(host) && is_port(port),
        None => false,
    }
}

/// Returns whether this is `HOST:PORT`, with a host of this machine: an IPv4 address in 127.0.0.0/8, `[::1]` or `localhost`.
pub fn is_endpoint(text: &[u8]) -> bool
    ensures { IsTrue result ↔ IsEndpoint text.now }
{
    match after_prefix(text, b"[::1]:") {
        Some(port) => is_port(port),
        None => is_named_endpoint(text),
    }
}
