ghost use Rattle.std.specs.Prelude.{◌≡◌};
ghost use Rattle.hostname.specs.Scan.{nothing_read, longer, after, may_end};

// How many bytes a label has at most.
const LONGEST: usize = 63;

// What has been read of a label.
#[derive(Clone, Copy)]
pub(crate) struct Label {
    // How many bytes it has so far.
    len: usize,
    // Whether the last of them is a hyphen.
    hyphen: bool,
}

impl Label {
    // A label of which nothing has been read.
    pub(crate) fn empty() -> Label
        ensures { result ≡ nothing_read }
    {
        Label {
            len: 0,
            hyphen: false,
        }
    }

    // What has been read after one byte more, of this label or, past a dot, of the next.
    // None if no name goes on like that.
    pub(crate) fn followed_by(self, byte: u8) -> Option<Label>
        ensures { result ≡ after self byte }
    {
        match byte {
            b'.' if self.may_end() => Some(Label::empty()),
            b'-' if self.len > 0 => self.longer(true),
            b'a'..=b'z' | b'A'..=b'Z' | b'0'..=b'9' => self.longer(false),
            _ => None,
        }
    }

    // Whether the label may end here: it is not empty and its last byte is no hyphen.
    pub(crate) fn may_end(self) -> bool
        ensures { result ≡ may_end self }
    {
        self.len > 0 && !self.hyphen
    }

    // The label with one byte more, or none if it then has too many.
    fn longer(self, hyphen: bool) -> Option<Label>
        ensures { result ≡ longer self hyphen }
    {
        (self.len < LONGEST).then(|| Label {
            len: self.len + 1,
            hyphen,
        })
    }
}
