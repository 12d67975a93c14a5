use hashed_roll::HashedRoll;
use keys::SeatNumber;
use rolls::{Roll, RollFault};
use sorted_roll::SortedRoll;
use std::process::Abort;
use std::test::Fail;

const SIZES: [usize; 4] = [1, 2, 63, 64];

// Keys far apart and out of order: the odd numbers from the end, then the even ones.
fn seat(i: usize) -> SeatNumber {
    let n = i as u64;
    let number = if n % 2 == 0 { n } else { u64::MAX - n };
    SeatNumber { number }
}

// Enters a key, and sees that it is found and stays where it is.
fn enter<R: Roll<SeatNumber>>(rt: &impl Abort, roll: &mut R, i: usize) -> Result<usize, Fail> {
    let place = roll.enter(seat(i))?;
    assert_eq!(rt; roll.enter(seat(i)), Ok(place));
    assert_eq!(rt; roll.find(&seat(i)), Some(place));
    assert_eq!(rt; roll.key_at(place), Some(seat(i)));
    Ok(place)
}

// Past the end a place counts as empty.
fn past_the_end<R: Roll<SeatNumber>>(rt: &impl Abort, roll: &mut R, size: usize) {
    assert!(rt; roll.key_at(size).is_none());
    assert!(rt; roll.key_at(usize::MAX).is_none());
    assert_eq!(rt; roll.strike(size), Err(RollFault::Vacant));
    assert_eq!(rt; roll.strike(usize::MAX), Err(RollFault::Vacant));
}

// Strikes a key, strikes its place again, and gives the place to another key.
fn replace<R: Roll<SeatNumber>>(
    rt: &impl Abort,
    roll: &mut R,
    old: usize,
    new: usize,
) -> Result<(), Fail> {
    let place = roll
        .find(&seat(old))
        .ok_or_else(|| Fail::new("the key is there"))?;
    assert_eq!(rt; roll.strike(place), Ok(()));
    assert_eq!(rt; roll.strike(place), Err(RollFault::Vacant));
    assert_eq!(rt; roll.find(&seat(old)), None);
    assert!(rt; roll.key_at(place).is_none());
    assert_eq!(rt; enter(rt, roll, new)?, place);
    assert_eq!(rt; roll.enter(seat(old)), Err(RollFault::Full));
    Ok(())
}

// An empty roll is filled, found full, and has each of its keys replaced in turn.
fn drive<R: Roll<SeatNumber>>(rt: &impl Abort, roll: &mut R, size: usize) -> Result<(), Fail> {
    assert_eq!(rt; roll.size(), size);
    assert_eq!(rt; roll.find(&seat(0)), None);
    assert_eq!(rt; roll.strike(0), Err(RollFault::Vacant));
    for i in 0..size {
        enter(rt, roll, i)?;
    }
    assert_eq!(rt; roll.enter(seat(size)), Err(RollFault::Full));
    past_the_end(rt, roll, size);
    for i in 0..size {
        replace(rt, roll, i, size.saturating_add(i))?;
    }
    for i in 0..size {
        assert!(rt; roll.find(&seat(size.saturating_add(i))).is_some());
    }
    past_the_end(rt, roll, size);
    Ok(())
}

#[test]
fn sorted_rolls(rt: HostRuntime) -> Result<(), Fail> {
    for size in SIZES {
        let mut roll = SortedRoll::<SeatNumber>::new(rt.alloc(), size)?;
        drive(&rt, &mut roll, size)?;
    }
    Ok(())
}

#[test]
fn hashed_rolls(rt: HostRuntime) -> Result<(), Fail> {
    for size in SIZES {
        let mut roll = HashedRoll::<SeatNumber>::new(rt.alloc(), size)?;
        drive(&rt, &mut roll, size)?;
    }
    Ok(())
}

// A roll has 1 to 64 places.
#[test]
fn sizes_that_are_refused(rt: HostRuntime) {
    for size in [0, 65, usize::MAX] {
        let sorted = SortedRoll::<SeatNumber>::new(rt.alloc(), size).err();
        assert_eq!(rt; sorted.and_then(|fault| fault.number()), Some(22));
        let hashed = HashedRoll::<SeatNumber>::new(rt.alloc(), size).err();
        assert_eq!(rt; hashed.and_then(|fault| fault.number()), Some(22));
    }
}

// A fault is printed in the width that is asked for, and cut where it is to be cut.
#[test]
fn faults_are_padded(rt: HostRuntime) -> Result<(), Fail> {
    let full = RollFault::Full;
    assert_eq!(rt;
        format!(in rt.alloc(); "{full}")?.as_str(),
        "no place is empty"
    );
    assert_eq!(rt;
        format!(in rt.alloc(); "{full:>20}")?.as_str(),
        "   no place is empty"
    );
    assert_eq!(rt; format!(in rt.alloc(); "{full:.2}")?.as_str(), "no");
    let vacant = RollFault::Vacant;
    assert_eq!(rt;
        format!(in rt.alloc(); "{vacant:<28}|")?.as_str(),
        "the place is empty already  |"
    );
    let size = RollFault::BadSize;
    assert_eq!(rt;
        format!(in rt.alloc(); "{size:^27}")?.as_str(),
        " a roll has 1 to 64 places "
    );
    let memory = RollFault::OutOfMemory;
    assert_eq!(rt;
        format!(in rt.alloc(); "{memory:-<24}")?.as_str(),
        "no memory for the roll--"
    );
    Ok(())
}
