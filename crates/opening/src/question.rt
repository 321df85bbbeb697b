ghost use Rattle.std.specs.Prelude.{◌≡◌};
ghost use Rattle.openings.specs.Sites.{claim_of};
ghost use Rattle.opening.specs.Replies.{told_claim};

use console::input::{Unread, parse_numbers};
use openings::opening::Opening;
use openings::operands::{one_byte, two_bytes};
use rpo_kinds::names::KindName;
use std::alloc::Global;
use std::str::Lines;

// An opening as it is told: a record, or nothing, and a path.
#[derive(Drop)]
pub struct Told {
    claim: Option<Vec<u64>>,
    path: Vec<u64>,
}

impl Told {
    pub(crate) fn opening(&self) -> Opening<'_>
        ensures claim { claim_of result ≡ told_claim self.now }
        ensures path { result.path.now ≡ self.now.path.items }
    {
        Opening {
            claim: self.claim.as_deref(),
            path: &self.path,
        }
    }
}

// What is asked: whether an opening fits a root, or which clash two openings show.
#[derive(Drop)]
pub struct Question {
    pub kind: KindName,
    pub root: Vec<u64>,
    pub depth: u8,
    pub place: u16,
    pub first: Told,
    pub second: Option<Told>,
}

// The lines that are left, and the number of the one that was asked for last.
#[derive(Drop)]
struct Rest<'a> {
    heap: Global,
    lines: Lines<'a>,
    line: usize,
}

impl<'a> Rest<'a> {
    // The name that the next line begins with, and what follows it.
    fn next(&mut self) -> Option<(&'a str, &'a str)> {
        self.line = self.line.saturating_add(1);
        let text = self.lines.next()?;
        Some(text.split_once(' ').unwrap_or((text, "")))
    }

    fn refused(&self) -> Unread {
        Unread::NoCommand { line: self.line }
    }

    // What follows that name on the next line.
    fn after(&mut self, name: &str) -> Result<&'a str, Unread> {
        match self.next() {
            Some((found, rest)) if found == name => Ok(rest),
            _ => Err(self.refused()),
        }
    }

    fn numbers(&self, text: &str) -> Result<Vec<u64>, Unread> {
        let mut words = Vec::new(self.heap);
        parse_numbers(&mut words, self.line, 2, text)?;
        Ok(words)
    }

    // The one number after a name.
    fn number(&mut self, name: &str) -> Result<u64, Unread> {
        let text = self.after(name)?;
        match self.numbers(text)?.as_slice() {
            [x] => Ok(*x),
            _ => Err(self.refused()),
        }
    }

    // An opening whose first line has that name and rest.
    fn told(&mut self, name: &str, rest: &str) -> Result<Told, Unread> {
        let claim = match name {
            "record" => Some(self.numbers(rest)?),
            "nothing" if rest.is_empty() => None,
            _ => return Err(self.refused()),
        };
        let path = self.after("path")?;
        Ok(Told {
            claim,
            path: self.numbers(path)?,
        })
    }
}

// The question of a text. A depth or a place that is too large for its operand stays one that no tree has.
pub(crate) fn read_question(heap: Global, text: &str) -> Result<Question, Unread> {
    let mut rest = Rest {
        heap,
        lines: text.lines(),
        line: 0,
    };
    let kind = rest.after("kind")?.parse::<KindName>()?;
    let root = rest.after("root")?;
    let root = rest.numbers(root)?;
    let depth = one_byte(rest.number("depth")?);
    let place = two_bytes(rest.number("place")?);
    let (name, claim) = rest.next().ok_or(Unread::NoCommand { line: rest.line })?;
    let first = rest.told(name, claim)?;
    let second = match rest.next() {
        Some((name, claim)) => Some(rest.told(name, claim)?),
        None => None,
    };
    if rest.next().is_some() {
        return Err(rest.refused());
    }
    Ok(Question {
        kind,
        root,
        depth,
        place,
        first,
        second,
    })
}
