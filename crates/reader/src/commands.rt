ghost use Rattle.std.specs.Prelude.{◌≡◌};
ghost use Rattle.reader.specs.Commands.{said, read_part};

use crate::verbs::Verb;

// The operand bytes of a command, as a part of the script, and the offset of its first byte.
#[derive(Clone, Copy)]
pub struct Part<'a> {
    pub operands: &'a [u8],
    pub at: usize,
}

// A command as it stands in a script.
#[derive(Clone, Copy)]
pub enum Command<'a> {
    Start(Part<'a>),
    Begin(Part<'a>),
    Feed(Part<'a>),
    FeedEight(Part<'a>),
    Seal(Part<'a>),
    Abandon(Part<'a>),
    Clear(Part<'a>),
    Root(Part<'a>),
    Open(Part<'a>),
    Close(Part<'a>),
}

impl<'a> Command<'a> {
    pub fn new(verb: Verb, part: Part<'a>) -> Command<'a>
        ensures { said result ≡ read_part verb part.entry }
    {
        match verb {
            Verb::Start => Command::Start(part),
            Verb::Begin => Command::Begin(part),
            Verb::Feed => Command::Feed(part),
            Verb::FeedEight => Command::FeedEight(part),
            Verb::Seal => Command::Seal(part),
            Verb::Abandon => Command::Abandon(part),
            Verb::Clear => Command::Clear(part),
            Verb::Root => Command::Root(part),
            Verb::Open => Command::Open(part),
            Verb::Close => Command::Close(part),
        }
    }

    pub fn verb(self) -> Verb
        ensures { result ≡ (said self.entry).verb }
    {
        match self {
            Command::Start(_) => Verb::Start,
            Command::Begin(_) => Verb::Begin,
            Command::Feed(_) => Verb::Feed,
            Command::FeedEight(_) => Verb::FeedEight,
            Command::Seal(_) => Verb::Seal,
            Command::Abandon(_) => Verb::Abandon,
            Command::Clear(_) => Verb::Clear,
            Command::Root(_) => Verb::Root,
            Command::Open(_) => Verb::Open,
            Command::Close(_) => Verb::Close,
        }
    }
}
