use std::fmt;

// What a roll answers to a command.
#[derive(Clone, Copy)]
pub enum Answer {
    // The place where the key stands, or stood until it was struck.
    Place(usize),
    // The key is absent and no place is empty.
    Full,
    // No place has the key.
    Missing,
}

impl fmt::Display for Answer {
    fn fmt<W: fmt::Write>(&self, f: &mut fmt::Formatter<W>) -> fmt::Result {
        match self {
            Answer::Place(place) => write!(f, "{place}"),
            Answer::Full => write!(f, "full"),
            Answer::Missing => write!(f, "absent"),
        }
    }
}
