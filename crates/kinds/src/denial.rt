ghost use Rattle.std.specs.Prelude.{◌≡◌, Some};
ghost use Rattle.std.specs.Option.{option_to_list};
ghost use Rattle.kinds.specs.Denials.{number_of, layer_of, values_of, layer_word, denial_text};

use std::fmt;

// Why a call is denied. docs/REFUSALS.md has the causes and the orders.
#[derive(Clone, Copy, Debug, PartialEq, Eq)]
pub enum Denial {
    DepthTooLarge,
    NoSuchStation,
    NoSuchPlace,
    BadLength,
    StationBusy,
    StationIdle,
    NotElement(usize),
    RecordFull,
    RecordShort,
    BadBuffer,
    FirstNotAccepted,
    SecondNotAccepted,
    OpeningsAlike,
}

// Which part of the software denies.
#[derive(Clone, Copy, Debug, PartialEq, Eq)]
pub enum Layer {
    Lot,
    Station,
    Word,
    Finder,
    Script,
}

impl Denial {
    pub fn number(self) -> u8
        ensures { result ≡ number_of self }
    {
        match self {
            Denial::DepthTooLarge => 1,
            Denial::NoSuchStation => 2,
            Denial::NoSuchPlace => 3,
            Denial::BadLength => 4,
            Denial::StationBusy => 5,
            Denial::StationIdle => 6,
            Denial::NotElement(_) => 7,
            Denial::RecordFull => 8,
            Denial::RecordShort => 9,
            Denial::BadBuffer => 10,
            Denial::FirstNotAccepted => 11,
            Denial::SecondNotAccepted => 12,
            Denial::OpeningsAlike => 13,
        }
    }

    pub fn layer(self) -> Layer
        ensures { result ≡ layer_of self }
    {
        match self {
            Denial::DepthTooLarge | Denial::NoSuchPlace | Denial::BadBuffer => Layer::Lot,
            Denial::NotElement(_) => Layer::Word,
            Denial::FirstNotAccepted | Denial::SecondNotAccepted | Denial::OpeningsAlike =>
                Layer::Finder,
            _ => Layer::Station,
        }
    }

    // The index of the word that is no element, where the denial speaks of one.
    pub fn index(self) -> Option<usize>
        ensures { option_to_list result ≡ values_of self }
    {
        match self {
            Denial::NotElement(i) => Some(i),
            _ => None,
        }
    }
}

impl Layer {
    // Its name in messages and in the lines of a transcript.
    pub fn word(self) -> &'static str
        ensures { result.now ≡ layer_word self }
    {
        match self {
            Layer::Lot => "lot",
            Layer::Station => "station",
            Layer::Word => "word",
            Layer::Finder => "finder",
            Layer::Script => "script",
        }
    }
}

impl fmt::Display for Layer {
    ghost output = { λ layer. Some (layer_word layer) };

    fn fmt<W: fmt::Write>(&self, f: &mut fmt::Formatter<W>) -> fmt::Result {
        f.write_str(self.word())
    }
}

impl fmt::Display for Denial {
    ghost output = { λ denial. Some (denial_text denial) };

    fn fmt<W: fmt::Write>(&self, f: &mut fmt::Formatter<W>) -> fmt::Result {
        let number = self.number();
        let layer = self.layer();
        match self.index() {
            Some(i) => write!(f, "{number} {layer} {i}"),
            None => write!(f, "{number} {layer}"),
        }
    }
}
