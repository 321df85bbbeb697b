use console::no_case::NoCase;
use rpo_kinds::names::KindName;
use std::alloc::{AllocError, Global};

// A call with its words. `room` is how many words its output buffer has: where it has none, the words are the buffer.
#[derive(Drop)]
pub enum Call {
    Digest {
        words: Vec<u64>,
        room: usize,
    },
    Pair {
        first: Vec<u64>,
        second: Vec<u64>,
        room: usize,
    },
    Permute {
        state: Vec<u64>,
    },
    Reverse {
        state: Vec<u64>,
    },
}

#[derive(Drop)]
pub struct Case {
    pub kind: KindName,
    pub call: Call,
}

// `count` words from `start` on, each `step` more than the one before, modulo 2^64.
#[derive(Clone, Copy)]
struct Run {
    count: usize,
    start: u64,
    step: u64,
}

// A buffer and a run of words are no longer than this, so that no line asks for all of the memory.
const MOST_WORDS: usize = 65536;

// The kind of a number that stands as one digit.
pub(crate) fn read_kind(text: &str) -> Result<KindName, NoCase> {
    let [digit] = text.as_bytes() else {
        return Err(NoCase::Form);
    };
    Ok(KindName::try_from(digit.wrapping_sub(b'0'))?)
}

pub(crate) fn read_length(text: &str) -> Result<usize, NoCase> {
    let n = text.parse::<usize>()?;
    if n > MOST_WORDS {
        return Err(NoCase::Form);
    }
    Ok(n)
}

fn read_run(text: &str) -> Result<Run, NoCase> {
    let (count, rest) = text.split_once('@').ok_or(NoCase::Form)?;
    let (start, step) = rest.split_once('+').ok_or(NoCase::Form)?;
    Ok(Run {
        count: read_length(count)?,
        start: start.parse::<u64>()?,
        step: step.parse::<u64>()?,
    })
}

fn push_run(words: &mut Vec<u64>, run: Run) -> Result<(), AllocError> {
    let mut x = run.start;
    for _ in 0..run.count {
        words.push(x)?;
        x = x.wrapping_add(run.step);
    }
    Ok(())
}

// Adds a word or a run of words.
fn push_part(words: &mut Vec<u64>, text: &str) -> Result<(), NoCase> {
    match text.parse::<u64>() {
        Ok(x) => Ok(words.push(x)?),
        Err(_) => Ok(push_run(words, read_run(text)?)?),
    }
}

pub(crate) fn read_words(heap: Global, text: &str) -> Result<Vec<u64>, NoCase> {
    let mut words = Vec::new(heap);
    for part in text.split_whitespace() {
        push_part(&mut words, part)?;
    }
    Ok(words)
}

// What stands before the first colon: a call, a kind, and the room of a buffer where the call has one.
#[derive(Clone, Copy)]
struct Head<'a> {
    call: &'a str,
    kind: KindName,
    room: Option<usize>,
}

fn read_head(text: &str) -> Result<Head<'_>, NoCase> {
    let mut parts = text.split_whitespace();
    let call = parts.next().ok_or(NoCase::Form)?;
    let kind = read_kind(parts.next().ok_or(NoCase::Form)?)?;
    let room = parts.next().map(read_length).transpose()?;
    if parts.next().is_some() {
        return Err(NoCase::Form);
    }
    Ok(Head { call, kind, room })
}

// The call of a head, with the words after the first colon; those of a pair stand on both sides of a second one.
fn read_call(heap: Global, head: Head<'_>, text: &str) -> Result<Call, NoCase> {
    match (head.call, head.room) {
        ("digest", Some(room)) => Ok(Call::Digest {
            words: read_words(heap, text)?,
            room,
        }),
        ("pair", Some(room)) => {
            let (left, right) = text.split_once(':').ok_or(NoCase::Form)?;
            Ok(Call::Pair {
                first: read_words(heap, left)?,
                second: read_words(heap, right)?,
                room,
            })
        }
        ("permute", None) => Ok(Call::Permute {
            state: read_words(heap, text)?,
        }),
        ("reverse", None) => Ok(Call::Reverse {
            state: read_words(heap, text)?,
        }),
        _ => Err(NoCase::Form),
    }
}

// The case that a line writes.
pub(crate) fn read_case(heap: Global, text: &str) -> Result<Case, NoCase> {
    let (front, rest) = text.split_once(':').ok_or(NoCase::Form)?;
    let head = read_head(front)?;
    Ok(Case {
        kind: head.kind,
        call: read_call(heap, head, rest)?,
    })
}
