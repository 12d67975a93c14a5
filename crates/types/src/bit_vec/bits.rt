ghost use Rattle.std.specs.Prelude.{◌≡◌, ◌<◌, slice_set};
ghost use Rattle.types.specs.Bits.{low_bits};

// A byte with the bit of weight 2^k set as given.
pub(super) fn with_bit(byte: u8, k: u32, bit: bool) -> u8
    requires { k < 8 }
    ensures { low_bits 8 result ≡ slice_set (low_bits 8 byte) k bit }
{
    let old = byte >> k & 1 == 1;
    if old == bit { byte } else { byte ^ (1 << k) }
}
