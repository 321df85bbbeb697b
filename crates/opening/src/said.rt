ghost use Rattle.std.specs.Prelude.{◌≡◌};

use console::output::{Checked, Refused, Words};
use finder::clash::Clash;
use kinds::denial::Denial;
use std::fmt;
use std::marker::Model;

// The buffer of a search, in room that no kind outgrows. Clauses see its words.
#[derive(Drop)]
pub struct Pairs {
    pub(crate) words: [u64; 28],
    pub(crate) long: usize,
}

impl Model for Pairs {
    ghost use Rattle.std.specs.Prelude.{ℕ, ◌≤◌, List, take};

    ghost Value = { List ℕ };

    ghost view = { λ p. take p.long p.words };

    ghost invariant = { λ p. p.long ≤ 28 };
}

impl Pairs {
    fn words(&self) -> &[u64]
        ensures { result.now ≡ self.now }
    {
        &self.words[..self.long]
    }
}

// What is said of a question: the answer of the check, or that of the finder with what it leaves in its buffer.
#[derive(Drop)]
pub enum Said {
    Checked(Result<bool, Denial>),
    Found(Result<Clash, Denial>, Pairs),
}

// A clash, with the words of its pairs where it is of pairs.
#[derive(Clone, Copy)]
struct Shown<'a> {
    clash: Clash,
    pairs: &'a [u64],
}

impl fmt::Display for Shown<'_> {
    ghost use Rattle.std.specs.Prelude.{Some};
    ghost use Rattle.opening.specs.Texts.{clash_text};

    ghost output = { λ shown. Some (clash_text shown.clash shown.pairs.now) };

    fn fmt<W: fmt::Write>(&self, f: &mut fmt::Formatter<W>) -> fmt::Result {
        match self.clash {
            Clash::Pairs { level } => {
                let pairs = Words(self.pairs);
                write!(f, "clash: pairs of level {level}: {pairs}")
            }
            Clash::Records => write!(f, "clash: two records"),
            Clash::ZeroRecord { second } => {
                let which = if second { "second" } else { "first" };
                write!(f, "clash: the digest of the {which} record is all zeros")
            }
        }
    }
}

impl fmt::Display for Said {
    ghost use Rattle.std.specs.Prelude.{Some};
    ghost use Rattle.opening.specs.Texts.{said_text};

    ghost output = { λ said. Some (said_text said) };

    fn fmt<W: fmt::Write>(&self, f: &mut fmt::Formatter<W>) -> fmt::Result {
        match self {
            Said::Checked(checked) => Checked(*checked).fmt(f),
            Said::Found(Ok(clash), pairs) => {
                let pairs = pairs.words();
                let clash = *clash;
                Shown { clash, pairs }.fmt(f)
            }
            Said::Found(Err(why), _) => Refused(*why).fmt(f),
        }
    }
}
