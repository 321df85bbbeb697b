// Words of claims, roots and paths, as they come from outside.
ghost use Rattle.std.specs.Prelude.{◌≡◌, ◌+◌, ◌≤◌, [], ◌∷◌, ◌++◌, length, IfOk};
ghost use Rattle.std.specs.List.{flat_map, AllByRecursion};
ghost use Rattle.field.specs.Field.{Elements};
ghost use Rattle.kinds.specs.Answers.{answer};
ghost use Rattle.kinds.specs.Denials.{told};
ghost use Rattle.kinds.specs.Words.{not_elements};
ghost use Rattle.openings.specs.Opening.{claimed, words_of};
ghost use Rattle.openings.specs.Checks.{bad_claim};

use kinds::denial::Denial;
use kinds::words::admit;
use sponge::digest::is_bad_length;

// The words of a claim.
pub fn words_of<'a>(claim: Option<&'a [u64]>) -> &'a [u64]
    ensures { result.now ≡ words_of (claimed claim.entry) }
{
    claim.unwrap_or(&[])
}

// Whether a claim is too short or too long for a record.
pub fn is_bad_claim(claim: Option<&[u64]>) -> bool
    ensures { result ≡ (bad_claim (claimed claim.entry)).0 }
{
    claim.is_some_and(|words| is_bad_length(words.len()))
}

// Refusal 7; the index is counted through all parts in a row.
pub fn admit_words(parts: &[&[u64]]) -> Result<(), Denial>
    requires { length (flat_map (λ x. x.now) parts.now) ≤ 65536 }
    ensures answer { told result ≡ answer (not_elements (flat_map (λ x. x.now) parts.now) ∷ []) }
    ensures each { IfOk result (λ done. AllByRecursion (λ x. Elements x.now) parts.now) }
{
    let mut before = 0;
    for part in parts {
        admit(before, part)?;
        before += part.len();
    }
    Ok(())
}

// Lays two parts side by side.
pub fn lay(first: &[u64], second: &[u64], all: &mut [u64])
    requires { length all.old ≡ length first.now + length second.now }
    ensures { all.new ≡ first.now ++ second.now }
{
    let (front, back) = all.split_at_mut(first.len());
    front.copy_from_slice(first);
    back.copy_from_slice(second);
}
