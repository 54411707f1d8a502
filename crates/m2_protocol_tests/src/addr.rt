//! Addresses as Ceph's encoding has them.

use m2_addr::{Addr, AddrFault, AddrOrder, AddrVec, AnyAddr, read_addr, read_v4, write_addr};
use m2_bytes::{Blob, Reader};
use std::alloc::Global;
use std::cmp::Ordering;

/// 127.0.0.1:6800 with kind 2 and nonce 7, as Ceph's encoding of it reads.
const TEXT: [u8; 35] = [
    1, 1, 1, 28, 0, 0, 0, 2, 0, 0, 0, 7, 0, 0, 0, 16, 0, 0, 0, 2, 0, 0x1a, 0x90, 127, 0, 0, 1, 0,
    0, 0, 0, 0, 0, 0, 0,
];

const ADDR: Addr = Addr {
    kind: 2,
    nonce: 7,
    ip: 0x7f000001,
    port: 6800,
};

#[test]
fn an_address_is_written(rt: HostRuntime) {
    let mut out = Blob::empty(rt.alloc());
    write_addr(&ADDR, &mut out).expect(&rt, "memory");
    assert_eq!(rt; out.as_slice(), TEXT.as_slice());
}

/// What is read of the text with one byte changed.
fn read_changed(at: usize, byte: u8) -> Result<Addr, AddrFault> {
    let mut text = TEXT;
    if at < 35 {
        text[at] = byte;
    }
    read_v4(&mut Reader::new(&text))
}

#[test]
fn a_changed_byte_gives_its_fault_or_is_ignored(rt: HostRuntime) {
    for (at, byte, read) in [
        (0, 1, Ok(ADDR)),
        (0, 2, Err(AddrFault::BadMarker)),
        (1, 0, Err(AddrFault::BadMarker)),
        (1, 200, Ok(ADDR)),
        (3, 27, Err(AddrFault::BadLength)),
        (3, 29, Err(AddrFault::Short)),
        (15, 17, Err(AddrFault::BadLength)),
        (19, 10, Err(AddrFault::NotIpv4)),
        (27, 9, Ok(ADDR)),
    ] {
        assert_eq!(rt; read_changed(at, byte), read, "byte {at}");
    }
}

/// `[::1]:6800` with kind 2 and nonce 7.
const IPV6: [u8; 47] = [
    1, 1, 1, 40, 0, 0, 0, 2, 0, 0, 0, 7, 0, 0, 0, 28, 0, 0, 0, 10, 0, 0x1a, 0x90, 0, 0, 0, 0, 0, 0,
    0, 0, 0, 0, 0, 0, 0, 0, 0, 0, 0, 0, 0, 1, 0, 0, 0, 0,
];

#[test]
fn an_address_of_another_kind_is_kept_as_its_bytes(rt: HostRuntime) {
    match read_addr(rt.alloc(), &mut Reader::new(&IPV6)) {
        Ok(AnyAddr::Other(bytes)) => assert_eq!(rt; bytes.as_slice(), IPV6.as_slice()),
        _ => panic!(rt; "an address that isn't an IPv4 one"),
    }
}

/// Whether a vector of two addresses is read, with this main one, and written as it was.
fn is_kept(alloc: Global, text: &[u8]) -> bool {
    let Ok(read) = AddrVec::read(alloc, &mut Reader::new(text)) else {
        return false;
    };
    let mut out = Blob::empty(alloc);
    let written = read.write(&mut out).is_ok() && out.as_slice() == text;
    written && read.as_slice().len() == 2 && read.main() == Ok(ADDR)
}

/// That address as one of kind 1, and then as it is.
const BOTH: [u8; 75] = [
    2, 2, 0, 0, 0, 1, 1, 1, 28, 0, 0, 0, 1, 0, 0, 0, 7, 0, 0, 0, 16, 0, 0, 0, 2, 0, 0x1a, 0x90,
    127, 0, 0, 1, 0, 0, 0, 0, 0, 0, 0, 0, 1, 1, 1, 28, 0, 0, 0, 2, 0, 0, 0, 7, 0, 0, 0, 16, 0, 0,
    0, 2, 0, 0x1a, 0x90, 127, 0, 0, 1, 0, 0, 0, 0, 0, 0, 0, 0,
];

#[test]
fn the_main_address_is_the_first_of_kind_msgr2(rt: HostRuntime) {
    assert!(rt; is_kept(rt.alloc(), &BOTH));
}

fn addr(kind: u32, nonce: u32, ip: u32, port: u16) -> Addr {
    Addr {
        kind,
        nonce,
        ip,
        port,
    }
}

#[test]
fn addresses_are_ordered_by_kind_nonce_ip_and_port(rt: HostRuntime) {
    let rising = [
        addr(1, 9, 9, 9),
        Addr { nonce: 6, ..ADDR },
        addr(2, 7, 1, 1),
        ADDR,
        Addr { port: 6801, ..ADDR },
    ];
    for (low, high) in rising.iter().zip(rising.iter().skip(1)) {
        assert!(rt; low.is_below(high) && !high.is_below(low));
    }
    assert_eq!(rt; ADDR.compare(&ADDR), Ordering::Equal);
}

#[test]
fn their_bytes_are_ordered_by_kind_nonce_port_and_ip(rt: HostRuntime) {
    let rising = [
        addr(1, 9, 9, 9),
        addr(2, 29_665, 9, 9),
        addr(2, 240, 9, 8),
        addr(2, 240, 1, 9),
        addr(2, 240, 9, 9),
        addr(2, 65_776, 1, 1),
        addr(2, 496, 1, 1),
    ];
    for (low, high) in rising.iter().zip(rising.iter().skip(1)) {
        assert!(rt;
            low.is_below_in(AddrOrder::Bytes, high) && !high.is_below_in(AddrOrder::Bytes, low)
        );
    }
    assert_eq!(rt; ADDR.compare_in(AddrOrder::Bytes, &ADDR), Ordering::Equal);
}
