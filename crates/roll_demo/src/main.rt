#![tactic(auto)]

// Runs the same commands over a sorted and a hashed roll of seat numbers, side by side.
mod answer;
mod command;
mod perform;

use command::{Command, number, read};
use hashed_roll::HashedRoll;
use keys::SeatNumber;
use perform::{all_in, perform};
use rolls::{Roll, RollFault};
use sorted_roll::SortedRoll;
use std::alloc::{AllocError, Global};
use std::io;

// The two rolls.
#[derive(Drop)]
struct Pair {
    sorted: SortedRoll<SeatNumber>,
    hashed: HashedRoll<SeatNumber>,
}

impl Pair {
    fn new(heap: Global, size: usize) -> Result<Pair, RollFault> {
        let sorted = SortedRoll::new(heap, size)?;
        let hashed = HashedRoll::new(heap, size)?;
        Ok(Pair { sorted, hashed })
    }

    // Carries out a line of the input and prints what each roll answers.
    fn line(&mut self, rt: &HostRuntime, number: usize, line: &str) -> io::Result<()> {
        let Some(command) = read(line) else {
            return println!(rt; "line {number} does not read");
        };
        let sorted = perform(&mut self.sorted, command);
        let hashed = perform(&mut self.hashed, command);
        println!(rt; "{line}: sorted {sorted}, hashed {hashed}")
    }

    // The keys of the sorted roll, in order.
    fn keys(&self, heap: Global) -> Result<Vec<u64>, AllocError> {
        let mut keys: Vec<u64> = (0..self.sorted.size())
            .filter_map(|place| self.sorted.key_at(place))
            .map(|key| key.number)
            .collect(heap)?;
        keys.sort_unstable();
        Ok(keys)
    }

    // Prints each key with its two places, and whether the rolls hold the same keys.
    fn summary(&mut self, rt: &HostRuntime) -> anyhow::Result<()> {
        let keys = self.keys(rt.alloc())?;
        for number in keys.iter() {
            let command = Command::Find(SeatNumber { number: *number });
            let sorted = perform(&mut self.sorted, command);
            let hashed = perform(&mut self.hashed, command);
            println!(rt; "key {number}: sorted {sorted}, hashed {hashed}")?;
        }
        if all_in(&self.sorted, &self.hashed) && all_in(&self.hashed, &self.sorted) {
            println!(rt; "both rolls hold the same keys")?;
        } else {
            println!(rt; "the rolls hold different keys")?;
        }
        Ok(())
    }
}

// Reads the size from the first line and makes the rolls; none where that line does not serve.
fn start(rt: &HostRuntime, first: &str) -> anyhow::Result<Option<Pair>> {
    let Some(size) = number(first) else {
        println!(rt; "line 1 does not read")?;
        return Ok(None);
    };
    match Pair::new(rt.alloc(), size as usize) {
        Ok(pair) => Ok(Some(pair)),
        Err(fault) => {
            match fault.number() {
                Some(number) => println!(rt; "size {size}: refused with {number}")?,
                None => println!(rt; "size {size}: no memory")?,
            }
            Ok(None)
        }
    }
}

fn run(rt: &HostRuntime) -> anyhow::Result<()> {
    let text = io::read_to_string(rt.alloc(), rt.stdin())?;
    let mut lines = text.lines();
    let Some(mut pair) = start(rt, lines.next().unwrap_or(""))? else {
        return Ok(());
    };
    for (number, line) in (2..usize::MAX).zip(lines) {
        pair.line(rt, number, line)?;
    }
    pair.summary(rt)
}

fn main(rt: HostRuntime) -> anyhow::Result<()> {
    run(&rt)
}
