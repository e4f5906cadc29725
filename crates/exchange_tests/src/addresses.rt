//! Addresses of logs.
use gu_exchange::{Address, AddressError};
use std::test::Fail;

/// Texts, and whether each is an address.
const ADDRESSES: &[(&str, bool)] = &[
    ("etcd://127.0.0.1:2379/DAY", true),
    (
        "etcd://127.0.0.1:2379,127.0.0.2:2379,127.255.255.255:1/DAY-1",
        true,
    ),
    ("etcd://localhost:2379/DAY", true),
    ("etcd://[::1]:65535/DAY", true),
    (
        "etcd://localhost:2379,[::1]:2379,127.0.0.1:2379/a.b_c",
        true,
    ),
    ("", false),
    ("etcd://", false),
    ("etcd:///DAY", false),
    ("etcd://127.0.0.1:2379", false),
    ("etcd://127.0.0.1:2379/", false),
    ("etcd://127.0.0.1:2379/DAY/1", false),
    ("etcd://127.0.0.1:2379/DAY 1", false),
    ("etcd://127.0.0.1/DAY", false),
    ("etcd://127.0.0.1:/DAY", false),
    ("etcd://127.0.0.1:0/DAY", false),
    ("etcd://127.0.0.1:02379/DAY", false),
    ("etcd://127.0.0.1:65536/DAY", false),
    ("etcd://127.0.0.1:+2379/DAY", false),
    ("etcd://127.0.0.1:2379x/DAY", false),
    ("etcd://127.0.0.1:2379,/DAY", false),
    ("etcd://,127.0.0.1:2379/DAY", false),
    ("etcd://127.0.0.1:2379,,127.0.0.1:2380/DAY", false),
    ("etcd://127.0.0.1:2379, 127.0.0.1:2380/DAY", false),
    ("etcd://128.0.0.1:2379/DAY", false),
    ("etcd://12.0.0.1:2379/DAY", false),
    ("etcd://127.1:2379/DAY", false),
    ("etcd://127.0.0.256:2379/DAY", false),
    ("etcd://127.0.0.01:2379/DAY", false),
    ("etcd://127.0.0.1.1:2379/DAY", false),
    ("etcd://10.0.0.1:2379/DAY", false),
    ("etcd://0.0.0.0:2379/DAY", false),
    ("etcd://[::]:2379/DAY", false),
    ("etcd://[::2]:2379/DAY", false),
    ("etcd://::1:2379/DAY", false),
    ("etcd://[0:0:0:0:0:0:0:1]:2379/DAY", false),
    ("etcd://[::1]/DAY", false),
    ("etcd://localhost/DAY", false),
    ("etcd://Localhost:2379/DAY", false),
    ("etcd://localhost.localdomain:2379/DAY", false),
    ("etcd://example.com:2379/DAY", false),
    ("ETCD://127.0.0.1:2379/DAY", false),
    ("http://127.0.0.1:2379/DAY", false),
    ("127.0.0.1:2379/DAY", false),
    (" etcd://127.0.0.1:2379/DAY", false),
    ("etcd://127.0.0.1:2379/DAY\n", false),
    ("etcd://127.0.0.1:2379/D\u{e4}Y", false),
];

#[test]
fn an_address_names_hosts_of_this_machine(rt: HostRuntime) {
    for (text, is) in ADDRESSES {
        let address = Address::parse(rt.alloc(), text.as_bytes());
        assert_eq!(rt; address.is_ok(), *is, "{text}");
        if let Err(error) = address {
            assert_eq!(rt; error, AddressError::NotAnAddress, "{text}");
        }
    }
}

#[test]
fn its_endpoints_and_its_name_are_read(rt: HostRuntime) -> Result<(), Fail> {
    let address = Address::parse(
        rt.alloc(),
        b"etcd://localhost:2379,[::1]:80,127.0.0.3:9/DAY-7",
    )?;
    assert_eq!(rt; address.name.as_bytes(), b"DAY-7".as_slice());
    assert_eq!(rt; address.endpoints.len(), 3);
    assert_eq!(rt;
        address.endpoints[0].as_slice(),
        b"localhost:2379".as_slice()
    );
    assert_eq!(rt; address.endpoints[1].as_slice(), b"[::1]:80".as_slice());
    assert_eq!(rt; address.endpoints[2].as_slice(), b"127.0.0.3:9".as_slice());
    Ok(())
}
