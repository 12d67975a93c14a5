// Why no set is made of a list of keys.
#[derive(Clone, Copy, Debug, PartialEq, Eq)]
pub enum BitSetFault {
    // There are more than 64 keys.
    TooMany,
    // Some key is not below the next one.
    NotAscending,
}
