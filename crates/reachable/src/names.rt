use ip_addr::Block;

// How the blocks of IPv6 are written.
const V6_NAMES: [(u128, u8, &str); 13] = [
    (1, 128, "::1/128"),
    (0, 128, "::/128"),
    (0x0064_ff9b << 96, 96, "64:ff9b::/96"),
    (0xffff << 32, 96, "::ffff:0:0/96"),
    (0x0100 << 112, 64, "100::/64"),
    (0x2001 << 112, 23, "2001::/23"),
    (0x2001 << 112, 32, "2001::/32"),
    (0x2001_0002 << 96, 48, "2001:2::/48"),
    (0x2001_0db8 << 96, 32, "2001:db8::/32"),
    (0x2001_0010 << 96, 28, "2001:10::/28"),
    (0x2002 << 112, 16, "2002::/16"),
    (0xfc00 << 112, 7, "fc00::/7"),
    (0xfe80 << 112, 10, "fe80::/10"),
];

// How a block of IPv6 is written; a block that has no name here is written as `?`.
pub(crate) fn of_v6_block(block: &Block) -> &'static str {
    V6_NAMES
        .iter()
        .find(|(base, prefix, _)| *base == block.base && *prefix == block.prefix)
        .map_or("?", |(_, _, name)| name)
}
