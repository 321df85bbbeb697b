use console::output::{Named, Refused};
use finder::clash::Clash;
use finder::finding::find_clash;
use kinds::drill::Drill;
use openings::opening::Opening;
use std::io;

// An opening at the drill kind, of a record of two words and with a path of one.
#[derive(Clone, Copy)]
pub struct Told {
    pub record: [u64; 2],
    pub path: [u64; 1],
}

// Two of them for a place, of which a clash is looked for.
#[derive(Clone, Copy)]
pub struct TwoOpenings {
    pub depth: u8,
    pub place: u16,
    pub root: [u64; 1],
    pub first: Told,
    pub second: Told,
}

impl Told {
    fn opening(&self) -> Opening<'_> {
        Opening {
            claim: Some(&self.record),
            path: &self.path,
        }
    }
}

pub(crate) fn print_clash(rt: &impl Print, told: &TwoOpenings) -> io::Result<()> {
    let TwoOpenings {
        depth,
        place,
        root,
        first,
        second,
    } = told;
    let mut out = [0u64; 4];
    match find_clash(
        &Drill,
        root,
        *depth,
        *place,
        first.opening(),
        second.opening(),
        &mut out,
    ) {
        Ok(Clash::Pairs { level }) => {
            let pairs = Named {
                name: "pairs",
                words: &out,
            };
            println!(rt; "level {level}, {pairs}")
        }
        Ok(Clash::Records) => println!(rt; "the two records"),
        Ok(Clash::ZeroRecord { .. }) => println!(rt; "a record whose digest is all zeros"),
        Err(why) => println!(rt; "{}", Refused(why)),
    }
}
