// The matrices of the two sizes, and their inverses.
ghost use Rattle.std.specs.Prelude.{◌≡◌};
ghost use Rattle.rpo.specs.FirstRow.{first_row};
ghost use Rattle.rpo.specs.Rows.{row_12, inverse_12, row_16, inverse_16};

use crate::matrix::{Circulant, SmallCirculant};
use crate::rows::{INVERSE_12, INVERSE_16, ROW_12, ROW_16};

pub fn matrix_12() -> SmallCirculant<12>
    ensures { first_row 12 result.matrix ≡ row_12 }
{
    let matrix = Circulant { twice: &ROW_12 };
    SmallCirculant { matrix }
}

pub fn inverse_matrix_12() -> Circulant<12>
    ensures { first_row 12 result ≡ inverse_12 }
{
    Circulant { twice: &INVERSE_12 }
}

pub fn matrix_16() -> SmallCirculant<16>
    ensures { first_row 16 result.matrix ≡ row_16 }
{
    let matrix = Circulant { twice: &ROW_16 };
    SmallCirculant { matrix }
}

pub fn inverse_matrix_16() -> Circulant<16>
    ensures { first_row 16 result ≡ inverse_16 }
{
    Circulant { twice: &INVERSE_16 }
}
