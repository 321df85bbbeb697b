use console::input::{Unread, parse_numbers};
use rpo_kinds::names::KindName;
use std::alloc::Global;

// What is asked: a kind, and the words of a record.
#[derive(Drop)]
pub struct Input {
    pub kind: KindName,
    pub words: Vec<u64>,
}

pub(crate) fn parse(heap: Global, text: &str) -> Result<Input, Unread> {
    let mut lines = text.lines();
    let first = lines.next().ok_or(Unread::NoKind)?;
    let kind = first.trim().parse::<KindName>()?;
    let mut words = Vec::new(heap);
    for (i, line) in lines.enumerate() {
        parse_numbers(&mut words, i.saturating_add(2), 1, line)?;
    }
    Ok(Input { kind, words })
}
