ghost use Rattle.std.specs.Prelude.{◌≡◌, ◌≤◌, ◌⊎◌, IfOk, IfErr, vec_len};
ghost use Rattle.std.specs.String.{string_vec};
ghost use Rattle.console.specs.Numbers.{Appended, Refusal};
ghost use Rattle.console.specs.declared.input.Unread.TheVariants.{Broken as broken, NoMemory as no_memory, NoText as no_text};

use rpo_kinds::names::UnknownKind;
use std::alloc::{AllocError, AllocFailed};
use std::io::{ErrorKind, Read};
use std::{fmt, io};

// Why an input could not be read.
#[derive(Drop)]
pub enum Unread {
    Broken,
    NoMemory,
    TooLong,
    NoText,
    NoKind,
    NoNumber { line: usize, word: usize },
    NoCommand { line: usize },
}

impl From<AllocError> for Unread {
    ghost from_gives = { λ e r. r ≡ no_memory };

    fn from(_e: AllocError) -> Unread {
        Unread::NoMemory
    }
}

impl<T: Drop> From<AllocFailed<T>> for Unread {
    ghost from_gives = { λ e r. r ≡ no_memory };

    fn from(_e: AllocFailed<T>) -> Unread {
        Unread::NoMemory
    }
}

impl From<io::Error> for Unread {
    ghost from_gives = { λ e r. (r ≡ no_memory) ⊎ (r ≡ broken) };

    fn from(e: io::Error) -> Unread {
        match e.kind() {
            ErrorKind::OutOfMemory => Unread::NoMemory,
            _ => Unread::Broken,
        }
    }
}

impl From<UnknownKind> for Unread {
    fn from(_e: UnknownKind) -> Unread {
        Unread::NoKind
    }
}

impl fmt::Display for Unread {
    ghost use Rattle.std.specs.Prelude.{Some};
    ghost use Rattle.console.specs.Unread.{unread_text};

    ghost output = { λ why. Some (unread_text why) };

    fn fmt<W: fmt::Write>(&self, f: &mut fmt::Formatter<W>) -> fmt::Result {
        match self {
            Unread::Broken => write!(f, "standard input broke off"),
            Unread::NoMemory => write!(f, "there is not enough memory"),
            Unread::TooLong => write!(f, "the input has more than {MOST_BYTES} bytes"),
            Unread::NoText => write!(f, "the input is no text"),
            Unread::NoKind => write!(f, "no kind is named: drill, rpo-128, rpo-160, or 0, 1, 2"),
            Unread::NoNumber { line, word } => {
                write!(
                    f,
                    "line {line}, word {word} is no decimal number of 64 bits"
                )
            }
            Unread::NoCommand { line } => write!(f, "line {line} is no command"),
        }
    }
}

// Room for 4,096 numbers of 20 digits, many times over.
pub const MOST_BYTES: usize = 1048576;

// All of standard input, if it is not too long.
pub fn slurp(rt: &HostRuntime) -> Result<Vec<u8>, Unread>
    ensures { IfOk result (λ v. vec_len v ≤ 1048576) }
{
    let mut all = Vec::new(rt.alloc());
    let most = MOST_BYTES as u64 + 1;
    rt.stdin().take(most).read_to_end(&mut all)?;
    if all.len() > MOST_BYTES {
        return Err(Unread::TooLong);
    }
    Ok(all)
}

// Bytes as a text.
fn text_of(bytes: Vec<u8>) -> Result<String, Unread>
    ensures text { IfOk result (λ text. string_vec text ≡ bytes) }
    ensures refused { IfErr result (λ why. why ≡ no_text) }
{
    String::from_utf8(bytes).map_err(|_| Unread::NoText)
}

// All of standard input as a text.
pub fn read_text(rt: &HostRuntime) -> Result<String, Unread>
    ensures { IfOk result (λ text. vec_len (string_vec text) ≤ 1048576) }
{
    let bytes = slurp(rt)?;
    text_of(bytes)
}

// The numbers of a text, after those that are there. `line` and `first` say where the text stands.
pub fn parse_numbers(
    words: &mut Vec<u64>,
    line: usize,
    first: usize,
    text: &str,
) -> Result<(), Unread>
    ensures read { IfOk result (λ done. Appended text.now words.old.items words.new.items) }
    ensures refused { IfErr result (λ why. Refusal text.now why) }
{
    for (i, part) in text.split_whitespace().enumerate() {
        let word = i.saturating_add(first);
        let x = part
            .parse::<u64>()
            .map_err(|_| Unread::NoNumber { line, word })?;
        words.push(x)?;
    }
    Ok(())
}
