use crate::rpo128::Rpo128;
use crate::rpo160::Rpo160;
use kinds::drill::Drill;
use kinds::kind::Kind;
use std::fmt;
use std::str::FromStr;

// The kinds by their names, for a program that is told at run time which one to take.
#[derive(Clone, Copy, Debug, PartialEq, Eq)]
pub enum KindName {
    Drill,
    Rpo128,
    Rpo160,
}

// A number that no kind has, or a text that says none.
#[derive(Clone, Copy, Debug, PartialEq, Eq)]
pub struct UnknownKind;

impl KindName {
    ghost use Rattle.std.specs.Prelude.{◌≡◌};
    ghost use Rattle.rpo_kinds.specs.Names.{name_of};

    // The number that the kind itself states.
    pub fn number(self) -> u8
        ensures { name_of result ≡ Some self }
    {
        match self {
            KindName::Drill => Drill::NUMBER,
            KindName::Rpo128 => Rpo128::NUMBER,
            KindName::Rpo160 => Rpo160::NUMBER,
        }
    }
}

impl TryFrom<u8> for KindName {
    type Error = UnknownKind;

    ghost use Rattle.std.specs.Prelude.{◌≡◌};
    ghost use Rattle.rpo_kinds.specs.Names.{kind_named};

    ghost try_from_gives = { λ number r. r ≡ kind_named number };

    fn try_from(number: u8) -> Result<KindName, UnknownKind> {
        match number {
            0 => Ok(KindName::Drill),
            1 => Ok(KindName::Rpo128),
            2 => Ok(KindName::Rpo160),
            _ => Err(UnknownKind),
        }
    }
}

impl FromStr for KindName {
    type Err = UnknownKind;

    ghost use Rattle.rpo_kinds.specs.Names.{ReadsKind};

    ghost from_str_gives = { ReadsKind };

    fn from_str(text: &str) -> Result<KindName, UnknownKind> {
        match text {
            "drill" | "0" => Ok(KindName::Drill),
            "rpo-128" | "1" => Ok(KindName::Rpo128),
            "rpo-160" | "2" => Ok(KindName::Rpo160),
            _ => Err(UnknownKind),
        }
    }
}

impl fmt::Display for KindName {
    ghost use Rattle.std.specs.Prelude.{Some};
    ghost use Rattle.rpo_kinds.specs.Names.{kind_word};

    ghost output = { λ name. Some (kind_word name) };

    fn fmt<W: fmt::Write>(&self, f: &mut fmt::Formatter<W>) -> fmt::Result {
        f.write_str(match self {
            KindName::Drill => "drill",
            KindName::Rpo128 => "rpo-128",
            KindName::Rpo160 => "rpo-160",
        })
    }
}
