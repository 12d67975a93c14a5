ghost use Rattle.roll_demo.specs.Commands.{Performed, AllIn};

use crate::answer::Answer;
use crate::command::Command;
use keys::SeatNumber;
use rolls::Roll;

// Carries out a command on a roll.
pub fn perform<R: Roll<SeatNumber>>(roll: &mut R, command: Command) -> Answer
    ensures performed { Performed (R.Roll.places roll.old) (R.Roll.places roll.new) command result }
{
    match command {
        Command::Enter(key) => roll.enter(key).map_or(Answer::Full, Answer::Place),
        Command::Strike(key) => {
            let Some(place) = roll.find(&key) else {
                return Answer::Missing;
            };
            let _ = roll.strike(place);
            Answer::Place(place)
        }
        Command::Find(key) => roll.find(&key).map_or(Answer::Missing, Answer::Place),
    }
}

// Whether every key of one roll is in the other.
pub fn all_in<A: Roll<SeatNumber>, B: Roll<SeatNumber>>(roll: &A, other: &B) -> bool
    ensures { AllIn (A.Roll.places roll.now) (B.Roll.places other.now) result }
{
    for place in 0..roll.size() {
        let Some(key) = roll.key_at(place) else {
            continue;
        };
        let Some(_) = other.find(&key) else {
            return false;
        };
    }
    true
}
