ghost use Rattle.std.specs.Prelude.{◌≡◌};
ghost use Rattle.reader.specs.Commands.{said};
ghost use Rattle.reader.specs.Orders.{order_of};

use crate::commands::{Command, Part};
use crate::numbers::{byte_at, eight_words, u16_at, u64_at};

// What a command asks for, with its operands as numbers.
#[derive(Clone, Copy)]
pub enum Order {
    Start {
        kind: u8,
        depth: u8,
    },
    Begin {
        station: u8,
        place: u16,
        length: u16,
    },
    Feed {
        station: u8,
        word: u64,
    },
    FeedEight {
        station: u8,
        words: [u64; 8],
    },
    Seal {
        station: u8,
    },
    Abandon {
        station: u8,
    },
    Clear {
        place: u16,
    },
    Root,
    Open {
        place: u16,
    },
    Close,
}

impl From<Command<'_>> for Order {
    ghost from_gives = { λ command order. order ≡ order_of (said command) };

    fn from(command: Command<'_>) -> Order {
        match command {
            Command::Start(Part { operands, .. }) => Order::Start {
                kind: byte_at(operands, 0),
                depth: byte_at(operands, 1),
            },
            Command::Begin(Part { operands, .. }) => Order::Begin {
                station: byte_at(operands, 0),
                place: u16_at(operands, 1),
                length: u16_at(operands, 3),
            },
            Command::Feed(Part { operands, .. }) => Order::Feed {
                station: byte_at(operands, 0),
                word: u64_at(operands, 1),
            },
            Command::FeedEight(Part { operands, .. }) => Order::FeedEight {
                station: byte_at(operands, 0),
                words: eight_words(operands),
            },
            Command::Seal(Part { operands, .. }) => Order::Seal {
                station: byte_at(operands, 0),
            },
            Command::Abandon(Part { operands, .. }) => Order::Abandon {
                station: byte_at(operands, 0),
            },
            Command::Clear(Part { operands, .. }) => Order::Clear {
                place: u16_at(operands, 0),
            },
            Command::Root(_) => Order::Root,
            Command::Open(Part { operands, .. }) => Order::Open {
                place: u16_at(operands, 0),
            },
            Command::Close(_) => Order::Close,
        }
    }
}
