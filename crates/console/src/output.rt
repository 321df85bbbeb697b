ghost use Rattle.std.specs.Prelude.{Some};
ghost use Rattle.console.specs.Checks.{refused_text, check_text};
ghost use Rattle.console.specs.Words.{words_text, named_text};

use kinds::denial::Denial;
use std::fmt;

// Words with a space between each two.
#[derive(Clone, Copy)]
pub struct Words<'a>(pub &'a [u64]);

impl fmt::Display for Words<'_> {
    ghost output = { λ words. Some (words_text words.0.now) };

    fn fmt<W: fmt::Write>(&self, f: &mut fmt::Formatter<W>) -> fmt::Result {
        if let [first, others @ ..] = self.0 {
            write!(f, "{first}")?;
            for word in others {
                write!(f, " {word}")?;
            }
        }
        Ok(())
    }
}

// A refusal: its number, its layer, and the index of a word where there is one.
#[derive(Clone, Copy)]
pub struct Refused(pub Denial);

impl fmt::Display for Refused {
    ghost output = { λ refused. Some (refused_text refused.0) };

    fn fmt<W: fmt::Write>(&self, f: &mut fmt::Formatter<W>) -> fmt::Result {
        let why = self.0;
        write!(f, "no {why}")
    }
}

// What the check of an opening answers.
#[derive(Clone, Copy)]
pub struct Checked(pub Result<bool, Denial>);

impl fmt::Display for Checked {
    ghost output = { λ checked. Some (check_text checked.0) };

    fn fmt<W: fmt::Write>(&self, f: &mut fmt::Formatter<W>) -> fmt::Result {
        match self.0 {
            Ok(true) => write!(f, "accepted"),
            Ok(false) => write!(f, "not accepted"),
            Err(why) => Refused(why).fmt(f),
        }
    }
}

// A name, and words after it.
#[derive(Clone, Copy)]
pub struct Named<'a> {
    pub name: &'a str,
    pub words: &'a [u64],
}

impl fmt::Display for Named<'_> {
    ghost output = { λ named. Some (named_text named.name.now named.words.now) };

    fn fmt<W: fmt::Write>(&self, f: &mut fmt::Formatter<W>) -> fmt::Result {
        let name = self.name;
        write!(f, "{name}")?;
        for word in self.words {
            write!(f, " {word}")?;
        }
        Ok(())
    }
}
