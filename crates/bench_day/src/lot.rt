ghost use Rattle.std.specs.Prelude.{◌≤◌};

use crate::command::Command;
use console::output::{Checked, Named, Refused};
use kinds::denial::Denial;
use kinds::kind::Kind;
use lots::closed::ClosedLot;
use lots::lot::Lot;
use openings::checking::check;
use promises::promises;
use std::io;

// A lot of a kind, filling or closed. The compiler refuses to feed the second, and to open the first.
#[derive(Drop)]
pub enum LotInHand<K: Kind> {
    Filling(Lot<K>),
    // With the depth whose paths the day makes room for: the lot's own, until a make that is refused names another.
    Closed(ClosedLot<K>, u8),
}

fn print_answer(rt: &impl Print, answer: Result<(), Denial>) -> io::Result<()> {
    match answer {
        Ok(()) => println!(rt; "ok"),
        Err(why) => println!(rt; "{}", Refused(why)),
    }
}

// The `n` words that a call writes, after their name; or why it is refused.
fn print_written<F: FnOnce(&mut [u64]) -> Result<(), Denial>>(
    rt: &impl Print,
    name: &str,
    n: usize,
    call: F,
) -> io::Result<()>
    requires room { n ≤ 64 }
    requires callable { F.IsAlwaysCallable call }
{
    let mut room = [0u64; 64];
    let out = &mut room[..n];
    match call(out) {
        Ok(()) => println!(rt; "{}", Named { name, words: out }),
        Err(why) => println!(rt; "{}", Refused(why)),
    }
}

// A call of a filling lot.
fn fill<K: Kind>(rt: &impl Print, lot: &mut Lot<K>, command: &Command) -> io::Result<()> {
    let answer = match command {
        Command::Make(depth) => lot.make(*depth),
        Command::Begin(station, place, length) => lot.begin(*station, *place, *length),
        Command::Feed(station, word) => lot.feed(*station, *word),
        Command::FeedEight(station, words) => lot.feed_eight(*station, words),
        Command::Seal(station) => lot.seal(*station),
        Command::Abandon(station) => lot.abandon(*station),
        Command::Clear(place) => lot.clear(*place),
        Command::Root => return print_written(rt, "root", K::DIGEST, |out| lot.root(out)),
        _ => return println!(rt; "not while the lot is filled"),
    };
    print_answer(rt, answer)
}

// How many words a path has at a depth that a lot can have.
fn path_words<K: Kind>(depth: u8) -> usize
    ensures { result ≤ 64 }
{
    depth.min(8) as usize * K::DIGEST
}

// Opens a place of a closed lot, and checks the opening under the lot's root.
fn verify<K: Kind>(
    kind: &K,
    lot: &ClosedLot<K>,
    depth: u8,
    place: u16,
    claim: Option<&[u64]>,
) -> Result<bool, Denial> {
    let (mut root, mut path) = ([0u64; 16], [0u64; 64]);
    let root = &mut root[..K::DIGEST];
    let path = &mut path[..path_words::<K>(depth)];
    lot.root(root)?;
    lot.open(place, path)?;
    check(kind, root, depth, place, claim, path)
}

// A call of a closed lot.
fn ask<K: Kind>(
    rt: &impl Print,
    kind: &K,
    lot: &ClosedLot<K>,
    depth: u8,
    command: &Command,
) -> io::Result<()> {
    match command {
        Command::Root => print_written(rt, "root", K::DIGEST, |out| lot.root(out)),
        Command::Open(place) => {
            let n = path_words::<K>(depth);
            print_written(rt, "path", n, |out| lot.open(*place, out))
        }
        Command::Check(place, record) => {
            let checked = Checked(verify(kind, lot, depth, *place, record.as_deref()));
            println!(rt; "{checked}")
        }
        _ => println!(rt; "not once the lot is closed"),
    }
}

// The depth of a command that makes a lot which there can be; else the one before.
fn depth_after(depth: u8, command: &Command) -> u8 {
    match command {
        Command::Make(named) if *named <= 8 => *named,
        _ => depth,
    }
}

// A call of a lot in the phase that it is in.
fn answer<K: Kind>(
    rt: &impl Print,
    kind: &K,
    lot: &mut LotInHand<K>,
    command: &Command,
) -> io::Result<()> {
    match lot {
        LotInHand::Filling(l) => fill(rt, l, command),
        LotInHand::Closed(l, depth) => {
            *depth = depth_after(*depth, command);
            ask(rt, kind, l, *depth, command)
        }
    }
}

// Closes a lot. What its buyer relies on from here on is the contract of `promises`, for every kind.
fn close<K: Kind + Drop>(lot: LotInHand<K>) -> LotInHand<K> {
    promises::<K>();
    match lot {
        LotInHand::Filling(l) => {
            let closed = l.close();
            let depth = closed.depth() as u8;
            LotInHand::Closed(closed, depth)
        }
        closed => closed,
    }
}

// One call; the lot after it, which closing makes another.
pub(crate) fn turn<K: Kind + Drop>(
    rt: &impl Print,
    kind: &K,
    mut lot: LotInHand<K>,
    command: &Command,
) -> io::Result<LotInHand<K>> {
    if let Command::Close = command {
        println!(rt; "ok")?;
        return Ok(close(lot));
    }
    answer(rt, kind, &mut lot, command)?;
    Ok(lot)
}
