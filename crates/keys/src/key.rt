ghost use Rattle.std.specs.Prelude.{◌≡◌, ℕ, List, Option};
ghost use Rattle.keys.specs.Form.{Formed, written, written_end};

// A name by which a peer is known. Each kind of key has a byte form of fixed length.
pub trait Key: Copy {
    // How many bytes the form has, 1 to 64.
    const SIZE: usize;

    // The same number, where a clause speaks of it: `form_len` answers both.
    ghost size: { ℕ };

    // The bytes that stand for a key.
    ghost form: { Self → List ℕ };

    // The key that bytes stand for, or none.
    ghost reading: { List ℕ → Option Self };

    // How many bytes a form of this kind has.
    fn form_len() -> usize
        ensures { result ≡ size };

    // Puts the form over what stands in `out` from `at` on, and answers the place behind it.
    // Where the form does not fit there, answers none and leaves `out`.
    fn write(&self, out: &mut [u8], at: usize) -> Option<usize>
        ensures end { result ≡ written_end out.old at (form self.now) }
        ensures after { out.new ≡ written out.old at (form self.now) };

    // The key whose form these bytes are, or none.
    fn read(bytes: &[u8]) -> Option<Self>
        ensures { result ≡ reading bytes.now };

    ghost formed: { Formed size form reading };
}
