ghost use Rattle.std.specs.Prelude.{◌≡◌};
ghost use Rattle.ip_addr.specs.Tables.{v6_table};

use crate::block::Block;
use crate::global::Global;

// The rows of the registry, in the order of the RFC.
static V6_BLOCKS: [Block; 13] = [
    // ::1/128: loopback address
    Block {
        base: 0x0000_0000_0000_0000_0000_0000_0000_0001,
        prefix: 128,
        global: Global::False,
    },
    // ::/128: unspecified address
    Block {
        base: 0x0000_0000_0000_0000_0000_0000_0000_0000,
        prefix: 128,
        global: Global::False,
    },
    // 64:ff9b::/96: IPv4-IPv6 translation
    Block {
        base: 0x0064_ff9b_0000_0000_0000_0000_0000_0000,
        prefix: 96,
        global: Global::True,
    },
    // ::ffff:0:0/96: IPv4-mapped address
    Block {
        base: 0x0000_0000_0000_0000_0000_ffff_0000_0000,
        prefix: 96,
        global: Global::False,
    },
    // 100::/64: discard-only address block
    Block {
        base: 0x0100_0000_0000_0000_0000_0000_0000_0000,
        prefix: 64,
        global: Global::False,
    },
    // 2001::/23: IETF protocol assignments
    Block {
        base: 0x2001_0000_0000_0000_0000_0000_0000_0000,
        prefix: 23,
        global: Global::False,
    },
    // 2001::/32: TEREDO
    Block {
        base: 0x2001_0000_0000_0000_0000_0000_0000_0000,
        prefix: 32,
        global: Global::False,
    },
    // 2001:2::/48: benchmarking
    Block {
        base: 0x2001_0002_0000_0000_0000_0000_0000_0000,
        prefix: 48,
        global: Global::False,
    },
    // 2001:db8::/32: documentation
    Block {
        base: 0x2001_0db8_0000_0000_0000_0000_0000_0000,
        prefix: 32,
        global: Global::False,
    },
    // 2001:10::/28: ORCHID
    Block {
        base: 0x2001_0010_0000_0000_0000_0000_0000_0000,
        prefix: 28,
        global: Global::False,
    },
    // 2002::/16: 6to4
    Block {
        base: 0x2002_0000_0000_0000_0000_0000_0000_0000,
        prefix: 16,
        global: Global::NotApplicable,
    },
    // fc00::/7: unique local
    Block {
        base: 0xfc00_0000_0000_0000_0000_0000_0000_0000,
        prefix: 7,
        global: Global::False,
    },
    // fe80::/10: link-scoped unicast
    Block {
        base: 0xfe80_0000_0000_0000_0000_0000_0000_0000,
        prefix: 10,
        global: Global::False,
    },
];

// The IPv6 special-purpose blocks of RFC 6890, section 2.2.3.
pub fn v6_blocks() -> &'static [Block]
    ensures { result.now ≡ v6_table }
{
    &V6_BLOCKS
}
