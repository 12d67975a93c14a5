#![tactic(auto)]

// Finds and enters a second of both rolls at 64 places, for both kinds of key. With no argument it
// does nothing; with one it takes that many rounds.
use anyhow::anyhow;
use hashed_roll::HashedRoll;
use keys::{OrderedKey, SeatNumber, StationKey};
use rolls::{Roll, RollFault};
use sorted_roll::SortedRoll;
use std::time::Instant;
use std::{array, env};

const PLACES: usize = 64;

// Spreads small numbers over 64 bits.
fn mixed(i: u64) -> u64 {
    i.wrapping_add(1).wrapping_mul(0x9e37_79b9_7f4a_7c15)
}

fn seats() -> [SeatNumber; PLACES] {
    array::from_fn(|i| SeatNumber {
        number: mixed(i as u64),
    })
}

fn stations() -> [StationKey; PLACES] {
    array::from_fn(|i| {
        let [a, b, c, d, e, f, g, h] = mixed(i as u64).to_be_bytes();
        let mut bytes = [0; 32];
        bytes[0] = a;
        bytes[5] = b;
        bytes[10] = c;
        bytes[15] = d;
        bytes[20] = e;
        bytes[25] = f;
        bytes[30] = g;
        bytes[31] = h;
        StationKey { bytes }
    })
}

// Finds every key once, and counts those found.
fn find_all<K: OrderedKey, R: Roll<K>>(roll: &R, keys: &[K]) -> u64 {
    keys.iter().filter(|key| roll.find(key).is_some()).count() as u64
}

// Enters every key once.
fn enter_all<K: OrderedKey, R: Roll<K>>(roll: &mut R, keys: &[K]) -> Result<(), RollFault> {
    for key in keys {
        roll.enter(*key)?;
    }
    Ok(())
}

fn strike_all<K: OrderedKey, R: Roll<K>>(roll: &mut R) {
    for place in 0..PLACES {
        let _ = roll.strike(place);
    }
}

// How many a second.
fn rate(count: u64, nanos: u128) -> u128 {
    (count as u128).saturating_mul(1_000_000_000) / nanos.max(1)
}

fn bench<K: OrderedKey, R: Roll<K>>(
    rt: &HostRuntime,
    name: &str,
    roll: &mut R,
    keys: &[K],
    rounds: u64,
) -> anyhow::Result<()> {
    let mut entering = 0u128;
    for _round in 0..rounds {
        strike_all(roll);
        let start = Instant::now(rt)?;
        if enter_all(roll, keys).is_err() {
            return Err(anyhow!("the roll is full"));
        }
        entering = entering.saturating_add(start.elapsed(rt)?.as_nanos());
    }
    let mut found = 0u64;
    let start = Instant::now(rt)?;
    for _round in 0..rounds {
        found = found.saturating_add(find_all(roll, keys));
    }
    let finding = start.elapsed(rt)?.as_nanos();
    let finds = rate(found, finding);
    let enters = rate(found, entering);
    println!(rt; "{name}: {finds} finds a second, {enters} enters a second")?;
    Ok(())
}

fn run(rt: &HostRuntime, rounds: u64) -> anyhow::Result<()> {
    let heap = rt.alloc();
    let mut roll = SortedRoll::<SeatNumber>::new(heap, PLACES)?;
    bench(rt, "sorted roll, seat numbers", &mut roll, &seats(), rounds)?;
    let mut roll = HashedRoll::<SeatNumber>::new(heap, PLACES)?;
    bench(rt, "hashed roll, seat numbers", &mut roll, &seats(), rounds)?;
    let mut roll = SortedRoll::<StationKey>::new(heap, PLACES)?;
    bench(
        rt,
        "sorted roll, station keys",
        &mut roll,
        &stations(),
        rounds,
    )?;
    let mut roll = HashedRoll::<StationKey>::new(heap, PLACES)?;
    bench(
        rt,
        "hashed roll, station keys",
        &mut roll,
        &stations(),
        rounds,
    )
}

fn main(rt: HostRuntime) -> anyhow::Result<()> {
    let Some(rounds) = env::args(&rt)?.nth(1) else {
        return Ok(());
    };
    run(&rt, rounds.as_str().parse::<u64>()?)
}
