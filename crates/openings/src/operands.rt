// Operands as they come from outside, of any size. One that is too large for its width becomes the largest, which no lot
// and no tree has, so that none is cut down to one that they have.
ghost use Rattle.std.specs.Prelude.{◌≡◌, min};

// A depth or a station.
pub fn one_byte(operand: u64) -> u8
    ensures { result ≡ min 255 operand }
{
    u8::try_from(operand).unwrap_or(u8::MAX)
}

// A place or a length.
pub fn two_bytes(operand: u64) -> u16
    ensures { result ≡ min 65535 operand }
{
    u16::try_from(operand).unwrap_or(u16::MAX)
}
