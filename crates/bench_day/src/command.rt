use crate::clashes::{Told, TwoOpenings};
use console::input::{Unread, parse_numbers};
use openings::operands::{one_byte, two_bytes};
use std::alloc::Global;

// What a line asks of a lot, filling or closed.
#[derive(Drop)]
pub enum Command {
    Make(u8),
    Begin(u8, u16, u16),
    Feed(u8, u64),
    FeedEight(u8, [u64; 8]),
    Seal(u8),
    Abandon(u8),
    Clear(u16),
    Root,
    Close,
    Open(u16),
    // Opens a place and checks the path with a record, or with nothing, as the claim.
    Check(u16, Option<Vec<u64>>),
    Clash(TwoOpenings),
}

// The command of a name and a few numbers.
fn short_command(name: &str, n: &[u64]) -> Option<Command> {
    match (name, n) {
        ("make", [d]) => Some(Command::Make(one_byte(*d))),
        ("begin", [s, p, l]) => Some(Command::Begin(one_byte(*s), two_bytes(*p), two_bytes(*l))),
        ("feed", [s, x]) => Some(Command::Feed(one_byte(*s), *x)),
        ("feed-eight", [s, a, b, c, d, e, f, g, h]) => {
            Some(Command::FeedEight(one_byte(*s), [*a, *b, *c, *d, *e, *f, *g, *h]))
        }
        ("seal", [s]) => Some(Command::Seal(one_byte(*s))),
        ("abandon", [s]) => Some(Command::Abandon(one_byte(*s))),
        ("clear", [p]) => Some(Command::Clear(two_bytes(*p))),
        ("open", [p]) => Some(Command::Open(two_bytes(*p))),
        ("check-empty", [p]) => Some(Command::Check(two_bytes(*p), None)),
        ("clash", [depth, place, root, a, b, under_ab, c, d, under_cd]) => {
            Some(Command::Clash(TwoOpenings {
                depth: one_byte(*depth),
                place: two_bytes(*place),
                root: [*root],
                first: Told {
                    record: [*a, *b],
                    path: [*under_ab],
                },
                second: Told {
                    record: [*c, *d],
                    path: [*under_cd],
                },
            }))
        }
        _ => None,
    }
}

// The command of a name that stands alone.
fn bare_command(name: &str) -> Option<Command> {
    match name {
        "root" => Some(Command::Root),
        "close" => Some(Command::Close),
        _ => None,
    }
}

// The command of a name and numbers.
fn command_of(name: &str, mut numbers: Vec<u64>) -> Option<Command> {
    if name == "check" && numbers.len() > 0 {
        let place = numbers.remove(0);
        return Some(Command::Check(two_bytes(place), Some(numbers)));
    }
    short_command(name, &numbers)
}

// The command of a line.
pub(crate) fn parse_command(heap: Global, line: usize, text: &str) -> Result<Command, Unread> {
    let found = match text.split_once(' ') {
        Some((name, rest)) => {
            let mut numbers = Vec::new(heap);
            parse_numbers(&mut numbers, line, 2, rest)?;
            command_of(name, numbers)
        }
        None => bare_command(text),
    };
    found.ok_or(Unread::NoCommand { line })
}
