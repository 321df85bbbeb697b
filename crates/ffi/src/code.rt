ghost use Rattle.std.specs.Prelude.{◌≡◌};
ghost use Rattle.kinds.specs.Denials.{told, number_of, values_of};
ghost use Rattle.ffi.specs.Codes.{code_of, first_value};

use kinds::denial::Denial;

pub fn code(answer: Result<(), Denial>) -> u8
    ensures { result ≡ code_of (told answer) }
{
    match answer {
        Ok(()) => 0,
        Err(why) => why.number(),
    }
}

// The number of a denial; the index of a word goes to `index`, where the denial speaks of one.
pub(crate) fn tell(why: Denial, index: &mut usize) -> u8
    ensures number { result ≡ number_of why }
    ensures index { index.new ≡ first_value (values_of why) index.old }
{
    if let Some(i) = why.index() {
        *index = i;
    }
    why.number()
}
