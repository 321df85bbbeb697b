ghost use Rattle.std.specs.Prelude.{◌≡◌, ◌≤◌};
ghost use Rattle.reader.specs.Verbs.{width_of};

// What a command asks for.
#[derive(Clone, Copy, Debug, PartialEq, Eq)]
pub enum Verb {
    Start,
    Begin,
    Feed,
    FeedEight,
    Seal,
    Abandon,
    Clear,
    Root,
    Open,
    Close,
}

// A byte that is no command.
#[derive(Clone, Copy, Debug, PartialEq, Eq)]
pub struct UnknownByte;

impl TryFrom<u8> for Verb {
    type Error = UnknownByte;

    ghost use Rattle.std.specs.Prelude.{◌≡◌};
    ghost use Rattle.reader.specs.Verbs.{verb_in};

    ghost try_from_gives = { λ byte r. r ≡ verb_in byte };

    fn try_from(byte: u8) -> Result<Verb, UnknownByte> {
        match byte {
            0x01 => Ok(Verb::Start),
            0x10 => Ok(Verb::Begin),
            0x11 => Ok(Verb::Feed),
            0x12 => Ok(Verb::Seal),
            0x13 => Ok(Verb::Abandon),
            0x14 => Ok(Verb::Clear),
            0x15 => Ok(Verb::Root),
            0x16 => Ok(Verb::Open),
            0x17 => Ok(Verb::Close),
            0x18 => Ok(Verb::FeedEight),
            _ => Err(UnknownByte),
        }
    }
}

impl Verb {
    // How many operand bytes it has.
    pub fn width(self) -> usize
        ensures exact { result ≡ width_of self }
        ensures small { result ≤ 65 }
    {
        match self {
            Verb::Root | Verb::Close => 0,
            Verb::Seal | Verb::Abandon => 1,
            Verb::Start | Verb::Clear | Verb::Open => 2,
            Verb::Begin => 5,
            Verb::Feed => 9,
            Verb::FeedEight => 65,
        }
    }
}
