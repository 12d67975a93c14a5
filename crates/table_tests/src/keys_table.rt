use keys::{HashedKey, Key, OrderedKey, SeatNumber, StationKey, fnv_1a, is_ascending};
use std::cmp::Ordering;

// The 64-bit FNV-1a hashes of short texts, as known from the authors' test suite; written from memory.
const VECTORS: [(&str, u64); 12] = [
    ("", 0xcbf2_9ce4_8422_2325),
    ("a", 0xaf63_dc4c_8601_ec8c),
    ("b", 0xaf63_df4c_8601_f1a5),
    ("c", 0xaf63_de4c_8601_eff2),
    ("d", 0xaf63_d94c_8601_e773),
    ("e", 0xaf63_d84c_8601_e5c0),
    ("f", 0xaf63_db4c_8601_ead9),
    ("fo", 0x0898_5907_b541_d342),
    ("foo", 0xdcb2_7518_fed9_d577),
    ("foob", 0xdd12_0e79_0c25_12af),
    ("fooba", 0xcac1_65af_a2fe_f40a),
    ("foobar", 0x8594_4171_f739_67e8),
];

#[test]
fn fnv_1a_vectors(rt: HostRuntime) {
    for (text, hash) in VECTORS {
        assert_eq!(rt; fnv_1a(text.as_bytes()), hash, "{}", text);
    }
}

fn seat(number: u64) -> SeatNumber {
    SeatNumber { number }
}

// A seat number's form is big-endian, is written into a part of a slice, and is read back.
#[test]
fn seat_number_form(rt: HostRuntime) {
    let key = seat(0x0102_0304_0506_0708);
    let mut out = [0xee; 11];
    assert_eq!(rt; key.write(&mut out, 2), Some(10));
    assert_eq!(rt; out, [0xee, 0xee, 1, 2, 3, 4, 5, 6, 7, 8, 0xee]);
    assert_eq!(rt; key.write(&mut out, 4), None);
    assert_eq!(rt; key.write(&mut out, usize::MAX), None);
    assert_eq!(rt; out, [0xee, 0xee, 1, 2, 3, 4, 5, 6, 7, 8, 0xee]);
    assert_eq!(rt; <SeatNumber as Key>::read(&out[2..10]), Some(key));
    assert_eq!(rt; <SeatNumber as Key>::read(&out[2..9]), None);
    assert_eq!(rt; <SeatNumber as Key>::read(&out[2..11]), None);
    assert_eq!(rt; <SeatNumber as Key>::form_len(), 8);
}

// Station keys differ at the first and at the last byte; the first one decides.
#[test]
fn station_key_order(rt: HostRuntime) {
    let low = StationKey { bytes: [7; 32] };
    let mut bytes = [7; 32];
    bytes[31] = 8;
    let last = StationKey { bytes };
    bytes[0] = 6;
    let first = StationKey { bytes };
    assert_eq!(rt; low.compare(&low), Ordering::Equal);
    assert_eq!(rt; low.compare(&last), Ordering::Less);
    assert_eq!(rt; last.compare(&low), Ordering::Greater);
    assert_eq!(rt; first.compare(&low), Ordering::Less);
    assert!(rt; is_ascending(&[first, low, last]));
    assert!(rt; !is_ascending(&[first, low, low]));
    assert_eq!(rt; <StationKey as Key>::form_len(), 32);
}

// Seat numbers are compared by value, and their hash is that of their form.
#[test]
fn seat_number_order_and_hash(rt: HostRuntime) {
    assert_eq!(rt; seat(9).compare(&seat(10)), Ordering::Less);
    assert_eq!(rt; seat(u64::MAX).compare(&seat(0)), Ordering::Greater);
    assert!(rt; is_ascending(&[seat(0), seat(1), seat(u64::MAX)]));
    assert!(rt; !is_ascending(&[seat(1), seat(0)]));
    let none: [SeatNumber; 0] = [];
    assert!(rt; is_ascending(&none));
    assert_eq!(rt; seat(0x6162).hash(), fnv_1a(b"\0\0\0\0\0\0ab"));
}

// A station key is written and read back, and its hash is that of its bytes.
#[test]
fn station_key_form(rt: HostRuntime) {
    let key = StationKey { bytes: [5; 32] };
    let mut out = [0; 33];
    assert_eq!(rt; key.write(&mut out, 1), Some(33));
    assert_eq!(rt; key.write(&mut out, 2), None);
    assert_eq!(rt; out[0], 0);
    assert_eq!(rt; <StationKey as Key>::read(&out[1..33]), Some(key));
    assert_eq!(rt; <StationKey as Key>::read(&out), None);
    assert_eq!(rt; key.hash(), fnv_1a(&[5; 32]));
}
