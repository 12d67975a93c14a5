// An address as a number of so many bits.
#[derive(Clone, Copy)]
pub(crate) struct AddressBits {
    // How many bits the address has.
    pub(crate) width: u8,
    // The number that its octets write, the highest first.
    pub(crate) number: u128,
}
