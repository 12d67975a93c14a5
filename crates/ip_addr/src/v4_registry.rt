ghost use Rattle.std.specs.Prelude.{◌≡◌};
ghost use Rattle.ip_addr.specs.Tables.{v4_table};

use crate::block::Block;
use crate::global::Global;

// The rows of the registry, in the order of the RFC.
static V4_BLOCKS: [Block; 16] = [
    // 0.0.0.0/8: this host on this network
    Block {
        base: 0x0000_0000,
        prefix: 8,
        global: Global::False,
    },
    // 10.0.0.0/8: private use
    Block {
        base: 0x0a00_0000,
        prefix: 8,
        global: Global::False,
    },
    // 100.64.0.0/10: shared address space
    Block {
        base: 0x6440_0000,
        prefix: 10,
        global: Global::False,
    },
    // 127.0.0.0/8: loopback
    Block {
        base: 0x7f00_0000,
        prefix: 8,
        global: Global::False,
    },
    // 169.254.0.0/16: link local
    Block {
        base: 0xa9fe_0000,
        prefix: 16,
        global: Global::False,
    },
    // 172.16.0.0/12: private use
    Block {
        base: 0xac10_0000,
        prefix: 12,
        global: Global::False,
    },
    // 192.0.0.0/24: IETF protocol assignments
    Block {
        base: 0xc000_0000,
        prefix: 24,
        global: Global::False,
    },
    // 192.0.0.0/29: DS-Lite
    Block {
        base: 0xc000_0000,
        prefix: 29,
        global: Global::False,
    },
    // 192.0.2.0/24: documentation
    Block {
        base: 0xc000_0200,
        prefix: 24,
        global: Global::False,
    },
    // 192.88.99.0/24: 6to4 relay anycast
    Block {
        base: 0xc058_6300,
        prefix: 24,
        global: Global::True,
    },
    // 192.168.0.0/16: private use
    Block {
        base: 0xc0a8_0000,
        prefix: 16,
        global: Global::False,
    },
    // 198.18.0.0/15: benchmarking
    Block {
        base: 0xc612_0000,
        prefix: 15,
        global: Global::False,
    },
    // 198.51.100.0/24: documentation
    Block {
        base: 0xc633_6400,
        prefix: 24,
        global: Global::False,
    },
    // 203.0.113.0/24: documentation
    Block {
        base: 0xcb00_7100,
        prefix: 24,
        global: Global::False,
    },
    // 240.0.0.0/4: reserved for future use
    Block {
        base: 0xf000_0000,
        prefix: 4,
        global: Global::False,
    },
    // 255.255.255.255/32: limited broadcast
    Block {
        base: 0xffff_ffff,
        prefix: 32,
        global: Global::False,
    },
];

// The IPv4 special-purpose blocks of RFC 6890, section 2.2.2.
pub fn v4_blocks() -> &'static [Block]
    ensures { result.now ≡ v4_table }
{
    &V4_BLOCKS
}
