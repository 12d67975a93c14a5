ghost use Rattle.std.specs.Prelude.{◌≡◌};
ghost use Rattle.types.specs.Times.{plus, jitter, earlier, earliest as earliest_of};

use super::moment::Moment;
use super::span::Span;

impl Moment {
    // The moment that lies a length of time later. It stops at the last moment there is.
    pub fn saturating_add(self, span: Span) -> Moment
        ensures { result ≡ plus self span }
    {
        Moment {
            millis: self.millis.saturating_add(span.millis),
        }
    }

    // The moment that lies up to half a length of time later: the draw says how far.
    pub fn add_jittered(self, span: Span, draw: u64) -> Moment
        ensures { result ≡ plus self (jitter span draw) }
    {
        self.saturating_add(Span {
            millis: draw % (span.millis / 2 + 1),
        })
    }

    // Whether this moment is before the other.
    pub fn is_earlier(&self, other: &Moment) -> bool
        ensures { result ≡ earlier self.now other.now }
    {
        self < other
    }

    // Whether this moment is after the other.
    pub fn is_later(&self, other: &Moment) -> bool
        ensures { result ≡ earlier other.now self.now }
    {
        self > other
    }
}

// The earlier of two moments, or the second where there is no first.
pub fn earliest(first: Option<Moment>, second: Moment) -> Moment
    ensures { result ≡ earliest_of first second }
{
    first.map_or(second, |first| first.min(second))
}
