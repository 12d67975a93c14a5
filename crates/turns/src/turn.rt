use record::Record;

// What becomes of a record.
#[derive(Clone, Copy)]
pub enum Turn<K> {
    // It is written as given.
    Write(Record<K>),
    // It is erased, since nothing holds it once it is as given.
    Erase(Record<K>),
}
