use bit_set::{BitSet, BitSetFault};
use keys::SeatNumber;
use std::test::Fail;

fn seat(number: u64) -> SeatNumber {
    SeatNumber { number }
}

// A set of three keys: its bits are set by key and by index, and past the last key nothing changes.
#[test]
fn bits_of_a_set(rt: HostRuntime) -> Result<(), Fail> {
    let mut set = BitSet::new(&[seat(3), seat(5), seat(9)])?;
    assert_eq!(rt; set.len(), 3);
    assert_eq!(rt; set.position(&seat(5)), Some(1));
    assert_eq!(rt; set.position(&seat(4)), None);
    assert!(rt; set.key_at(3).is_none());
    assert!(rt; set.update(&seat(5), true));
    assert!(rt; !set.update(&seat(4), true));
    assert!(rt; set.update_at(2, true));
    assert!(rt; !set.update_at(3, true));
    assert_eq!(rt; set.is_known(0), Some(false));
    assert_eq!(rt; set.is_known(1), Some(true));
    let knowledge = set.knowledge(7);
    assert_eq!(rt; knowledge.index, 7);
    assert_eq!(rt; knowledge.len, 3);
    assert_eq!(rt; knowledge.bytes, [6, 0, 0, 0, 0, 0, 0, 0]);
    Ok(())
}

#[test]
fn sets_that_are_refused(rt: HostRuntime) -> Result<(), Fail> {
    let twice = BitSet::new(&[seat(3), seat(3)]);
    assert_eq!(rt; twice.err(), Some(BitSetFault::NotAscending));
    let many = BitSet::new(&[seat(3); 65]);
    assert_eq!(rt; many.err(), Some(BitSetFault::TooMany));
    Ok(())
}
