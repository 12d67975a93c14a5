use keys::SeatNumber;

// One line of the input.
#[derive(Clone, Copy)]
pub enum Command {
    // Give the seat number a place.
    Enter(SeatNumber),
    // Empty the place that has the seat number.
    Strike(SeatNumber),
    // Find the place of the seat number.
    Find(SeatNumber),
}

// A decimal number of 64 bits, with no sign.
pub(crate) fn number(text: &str) -> Option<u64> {
    if text.starts_with('+') {
        return None;
    }
    text.parse::<u64>().ok()
}

// The command of a line: a sign, one space and a number.
pub(crate) fn read(line: &str) -> Option<Command> {
    let (sign, rest) = line.split_once(' ')?;
    let seat = SeatNumber {
        number: number(rest)?,
    };
    match sign {
        "+" => Some(Command::Enter(seat)),
        "-" => Some(Command::Strike(seat)),
        "?" => Some(Command::Find(seat)),
        _ => None,
    }
}
