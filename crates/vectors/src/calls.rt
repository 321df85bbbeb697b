use crate::cases::{Call, Case};
use crate::report::report;
use kinds::denial::Denial;
use kinds::drill::Drill;
use kinds::kind::Kind;
use kinds::permuting::permute;
use rpo_kinds::names::KindName;
use rpo_kinds::reversing::{Reversible, reverse};
use rpo_kinds::rpo128::Rpo128;
use rpo_kinds::rpo160::Rpo160;
use sponge::digest::digest;
use sponge::pair::two_to_one;
use std::io;

// What a buffer holds before a call, to see that a denied call leaves it.
pub(crate) const PATTERN: u64 = 11936128518282651045;

// The kinds that derive their constants, once for all cases.
#[derive(Clone, Copy)]
pub struct Kinds {
    pub(crate) rpo128: Rpo128,
    pub(crate) rpo160: Rpo160,
}

impl Kinds {
    pub(crate) fn new() -> Kinds {
        Kinds {
            rpo128: Rpo128::new(),
            rpo160: Rpo160::new(),
        }
    }
}

// Makes a call on a copy of a buffer, and writes its answer.
fn run<F: FnOnce(&mut [u64]) -> Result<(), Denial>>(
    rt: &HostRuntime,
    before: &[u64],
    call: F,
) -> io::Result<()>
    requires { F.IsAlwaysCallable call }
{
    let mut after = Vec::from_slice(rt.alloc(), before)?;
    let answer = call(&mut after);
    report(rt, answer, before, &after)
}

// The same on a buffer of that many words.
fn run_on<F: FnOnce(&mut [u64]) -> Result<(), Denial>>(
    rt: &HostRuntime,
    room: usize,
    call: F,
) -> io::Result<()>
    requires { F.IsAlwaysCallable call }
{
    let before = vec![in rt.alloc(); PATTERN; room]?;
    run(rt, &before, call)
}

// A call on any kind. Not every kind has a reverse.
fn run_any<K: Kind>(rt: &HostRuntime, kind: &K, call: &Call) -> io::Result<()> {
    match call {
        Call::Digest { words, room } => run_on(rt, *room, |out| digest(kind, words, out)),
        Call::Pair {
            first,
            second,
            room,
        } => run_on(rt, *room, |out| two_to_one(kind, first, second, out)),
        Call::Permute { state } => run(rt, state, |state| permute(kind, state)),
        Call::Reverse { .. } => println!(rt; "this kind has no reverse"),
    }
}

fn run_reversible<K: Reversible>(rt: &HostRuntime, kind: &K, call: &Call) -> io::Result<()> {
    match call {
        Call::Reverse { state } => run(rt, state, |state| reverse(kind, state)),
        _ => run_any(rt, kind, call),
    }
}

pub(crate) fn run_case(rt: &HostRuntime, kinds: &Kinds, case: &Case) -> io::Result<()> {
    match case.kind {
        KindName::Drill => run_any(rt, &Drill, &case.call),
        KindName::Rpo128 => run_reversible(rt, &kinds.rpo128, &case.call),
        KindName::Rpo160 => run_reversible(rt, &kinds.rpo160, &case.call),
    }
}
