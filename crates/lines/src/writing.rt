ghost use Rattle.std.specs.Prelude.{◌≡◌, ◌+◌, ◌*◌, ◌≤◌, length};
ghost use Rattle.lines.specs.Lines.{numbers_line, ok_line, heading_word, no_line};

use crate::line::Line;
use kinds::denial::Layer;

// What the numbers of a line are: the tree value, or the path of a place.
#[derive(Clone, Copy)]
pub enum Heading {
    Root,
    Path,
}

// Each of these calls makes a line anew in the memory that it is lent, since a line by value would be moved whole.
pub fn ok_line<const N: usize>(line: &mut Line<N>)
    requires { 3 ≤ N }
    ensures is { line.new ≡ ok_line }
    ensures short { length line.new ≤ 3 }
{
    line.clear();
    line.push_text(b"ok\n");
}

// A word and numbers.
pub fn numbers_line<const N: usize>(word: &[u8], numbers: &[u64], line: &mut Line<N>)
    requires { length word.now + 21 * length numbers.now + 1 ≤ N }
    ensures is { line.new ≡ numbers_line word.now numbers.now }
    ensures short { length line.new ≤ length word.now + 21 * length numbers.now + 1 }
{
    line.clear();
    line.push_text(word);
    for n in numbers {
        line.push_spaced_number(*n);
    }
    line.push_text(b"\n");
}

impl Heading {
    fn word(self) -> &'static [u8]
        ensures is { result.now ≡ heading_word self }
        ensures short { length result.now ≡ 4 }
    {
        match self {
            Heading::Root => b"root",
            Heading::Path => b"path",
        }
    }

    // The line of the numbers.
    pub fn line<const N: usize>(self, numbers: &[u64], line: &mut Line<N>)
        requires { 21 * length numbers.now + 5 ≤ N }
        ensures is { line.new ≡ numbers_line (heading_word self) numbers.now }
        ensures short { length line.new ≤ 21 * length numbers.now + 5 }
    {
        numbers_line(self.word(), numbers, line);
    }
}

// A refusal: its number, its layer, and the offset of the command.
pub fn no_line<const N: usize>(number: u8, layer: Layer, offset: usize, refusal: &mut Line<N>)
    requires { 53 ≤ N }
    ensures is { refusal.new ≡ no_line number layer offset }
    ensures short { length refusal.new ≤ 53 }
{
    refusal.clear();
    refusal.push_text(b"no");
    refusal.push_spaced_number(number as u64);
    refusal.push_text(b" ");
    refusal.push_text(layer.word().as_bytes());
    refusal.push_spaced_number(offset as u64);
    refusal.push_text(b"\n");
}
