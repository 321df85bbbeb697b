ghost use Rattle.field.specs.Field.{p};
ghost use Rattle.field.specs.Primes.{Prime};
ghost use Rattle.rpo_kinds.specs.Mappings.{MixingsUndone};

// The mixing of either kind and its reverse undo one another on every state: if p is prime, and outright, since it is.
#[tactic(auto, using(field::proofs::Goldilocks::p_prime, crate::proofs::Named::mixings_undone))]
pub fn mixings_undone()
    ensures premise { Prime p → MixingsUndone }
    ensures outright { MixingsUndone }
{}
