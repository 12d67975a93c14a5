ghost use Rattle.std.specs.Prelude.{◌≡◌, ◌<◌, ◌≤◌, length, is_some, MatchOption, nat_lt};

mod bits;

use bits::with_bit;

// How many bits the bytes have.
const MOST_BITS: u64 = 64;

// Which peers of a set a peer knows about: one bit for each, in key order. One that was received
// may claim any number of bits.
#[derive(Clone, Copy, Debug)]
pub struct BitVec {
    // The index of the set that the bits are of.
    pub index: u64,
    // How many bits there are.
    pub len: u64,
    // The bits: bit i lies in byte i / 8, at weight 2^(i mod 8).
    pub bytes: [u8; 8],
    ghost whole: { length bytes ≡ 8 },
}

impl BitVec {
    ghost use Rattle.types.specs.Bits.{bits as list_of, bit_at, Blank, Written};

    // A vector of so many bits, all 0; none if they are more than 64.
    pub fn new(index: u64, len: u64) -> Option<BitVec>
        ensures { MatchOption result (64 < len) (λ v. (len ≤ 64) × Blank index len v) }
    {
        (len <= MOST_BITS).then(|| BitVec {
            index,
            len,
            bytes: [0; 8],
        })
    }

    // The bit at an index, or none past the last.
    #[tactic(auto, using(crate::proofs::BitLists::bit_read, crate::proofs::BitLists::bits_count))]
    pub fn get(&self, i: u64) -> Option<bool>
        ensures value { result ≡ bit_at (list_of self.now) i }
        ensures there { is_some result ≡ nat_lt i (length (list_of self.now)) }
    {
        if i >= self.len {
            return None;
        }
        let byte = self.bytes.get((i / 8) as usize)?;
        Some(*byte >> (i % 8) & 1 == 1)
    }

    // Sets a bit, and answers whether it is there. Past the last bit nothing changes.
    pub fn set(&mut self, i: u64, bit: bool) -> bool
        ensures there { result ≡ nat_lt i (length (list_of self.old)) }
        ensures written { Written self.old self.new i bit }
    {
        let there = self.get(i).is_some();
        if there {
            self.put(i, bit);
        }
        there
    }

    // Sets a bit that is there.
    #[tactic(auto, using(crate::proofs::BitLists::bits_count))]
    fn put(&mut self, i: u64, bit: bool)
        requires { i < length (list_of self.old) }
        ensures { Written self.old self.new i bit }
    {
        let at = (i / 8) as usize;
        self.bytes[at] = with_bit(self.bytes[at], (i % 8) as u32, bit);
    }
}
