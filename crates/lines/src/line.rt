ghost use Rattle.std.specs.Prelude.{◌≡◌, ℕ, ◌+◌, ◌≤◌, List, [], ◌++◌, length, take, decimal};
ghost use Rattle.lines.specs.Lines.{spaced};

use itoa::Buffer;
use std::marker::Model;

// A line of at most `N` bytes, in memory of its own. Clauses see its bytes.
#[derive(Drop)]
pub struct Line<const N: usize> {
    bytes: [u8; N],
    len: usize,
}

impl<const N: usize> Model for Line<N> {
    ghost Value = { List ℕ };

    ghost view = { λ line. take line.len line.bytes };

    ghost invariant = { λ line. line.len ≤ N };
}

impl<const N: usize> Line<N> {
    pub fn new() -> Self
        ensures { result ≡ [] }
    {
        Line {
            bytes: [0; N],
            len: 0,
        }
    }

    // No bytes again, in the same memory.
    pub fn clear(&mut self)
        ensures { self.new ≡ [] }
    {
        self.len = 0;
    }

    pub fn as_bytes(&self) -> &[u8]
        ensures is { result.now ≡ self.now }
        ensures short { length result.now ≤ N }
    {
        &self.bytes[..self.len]
    }

    pub fn push_text(&mut self, text: &[u8])
        requires { length self.old + length text.now ≤ N }
        ensures { self.new ≡ self.old ++ text.now }
    {
        let end = self.len + text.len();
        let bytes = &mut self.bytes[..];
        bytes[self.len..end].copy_from_slice(text);
        self.len = end;
    }

    // The number in decimal. Room for 20 digits is asked whatever the number is, so that callers can count.
    pub fn push_number(&mut self, n: u64)
        requires { length self.old + 20 ≤ N }
        ensures written { self.new ≡ self.old ++ decimal n }
        ensures short { length self.new ≤ length self.old + 20 }
    {
        self.push_text(Buffer::new().format(n).as_bytes());
    }

    // A space and the number. One digit needs no division, and most numbers of the drill kind have one.
    pub fn push_spaced_number(&mut self, n: u64)
        requires { length self.old + 21 ≤ N }
        ensures written { self.new ≡ self.old ++ spaced (decimal n) }
        ensures short { length self.new ≤ length self.old + 21 }
    {
        if n < 10 {
            self.push_text(&[b' ', b'0' + n as u8]);
        } else {
            self.push_text(b" ");
            self.push_number(n);
        }
    }
}
