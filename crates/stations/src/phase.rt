use crate::record::Record;

// What a station does. A record is filling while elements of it are lacking, and then full.
#[derive(Clone, Copy)]
pub enum Phase {
    Idle,
    Filling(Record),
    Full(Record),
}
