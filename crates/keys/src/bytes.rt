ghost use Rattle.std.specs.Prelude.{◌≡◌};
ghost use Rattle.keys.specs.Form.{written, written_end};
ghost use Rattle.keys.specs.Hash.{fnv_1a};

const OFFSET_BASIS: u64 = 0xcbf2_9ce4_8422_2325;

const PRIME: u64 = 0x100_0000_01b3;

// Puts bytes over what stands in `out` from `at` on, and answers the place behind them.
// Where they do not fit there, answers none and leaves `out`.
pub(crate) fn put(out: &mut [u8], at: usize, bytes: &[u8]) -> Option<usize>
    ensures end { result ≡ written_end out.old at bytes.now }
    ensures after { out.new ≡ written out.old at bytes.now }
{
    let len = bytes.len();
    if len > out.len() || at > out.len() - len {
        return None;
    }
    let end = at + len;
    out[at..end].copy_from_slice(bytes);
    Some(end)
}

// The hash FNV-1a of bytes.
pub fn fnv_1a(bytes: &[u8]) -> u64
    ensures { result ≡ fnv_1a bytes.now }
{
    let mut hash = OFFSET_BASIS;
    for byte in bytes {
        hash = (hash ^ u64::from(*byte)).wrapping_mul(PRIME);
    }
    hash
}
