// What holds of the permutation and its reverse.
ghost use Rattle.field.specs.Field.{p};
ghost use Rattle.field.specs.Primes.{Prime};
ghost use Rattle.rpo.specs.Undo.{InverseRows, Undo, UndoBoth};

// They undo one another: for any matrix and its inverse, and for both sizes, if p is prime; and for both
// sizes outright, since it is.
pub fn permutation_undone()
    ensures any { Undo }
    ensures premise { Prime p → UndoBoth }
    ensures outright { UndoBoth }
{}

// The tables of the inverse matrices are the inverses of those of the matrices, both ways.
pub fn inverse_rows()
    ensures { InverseRows }
{}
