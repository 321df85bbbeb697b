ghost use Rattle.std.specs.Prelude.{◌≡◌, ◌≤◌, [], ◌∷◌, IfOk, nat_le, position};
ghost use Rattle.field.specs.Field.{p, Elements};
ghost use Rattle.kinds.specs.Answers.{answer};
ghost use Rattle.kinds.specs.Denials.{told};
ghost use Rattle.kinds.specs.Words.{not_elements_past};

use crate::denial::Denial;
use field::element::P;

// Where the first word stands that is no element.
pub fn bad_place(words: &[u64]) -> Option<usize>
    ensures { result ≡ position (λ x. nat_le p x) words.now }
{
    words.iter().position(|x| *x >= P)
}

// Denies words of which one is no element, with its index; that many words stand before these.
pub fn admit(before: usize, words: &[u64]) -> Result<(), Denial>
    requires { before ≤ 65536 }
    ensures answer { told result ≡ answer (not_elements_past before words.now ∷ []) }
    ensures each { IfOk result (λ done. Elements words.now) }
{
    match bad_place(words) {
        Some(i) => Err(Denial::NotElement(before + i)),
        None => Ok(()),
    }
}
