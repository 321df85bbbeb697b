// The check of an opening, for each kind. Where `has_record` is false nothing is claimed; 0 and nothing else says that an
// opening is accepted.
ghost use Rattle.std.specs.Prelude.{◌≡◌};
ghost use Rattle.kinds.specs.Kinds.{drill};
ghost use Rattle.rpo_kinds.specs.Mappings.{rpo_128, rpo_160};
ghost use Rattle.openings.specs.Checks.{check_call};
ghost use Rattle.ffi.specs.Openings.{claim_from, check_told, SaysAccepted};

use ffi::opening_calls::{check_code, opening_from};
use kinds::drill::Drill;
use rpo_kinds::rpo128::Rpo128;
use rpo_kinds::rpo160::Rpo160;

#[unsafe(no_mangle)]
pub extern "C" fn drill_check(
    root: &[u64],
    depth: usize,
    place: usize,
    has_record: bool,
    words: &[u64],
    path: &[u64],
    index: &mut usize,
) -> u8
    ensures told { (result, index.new) ≡ check_told (check_call 1 1 drill root.now depth place (claim_from has_record words.now) path.now) index.old }
    ensures accepted { SaysAccepted result (check_call 1 1 drill root.now depth place (claim_from has_record words.now) path.now) }
{
    let opening = opening_from(has_record, words, path);
    check_code(&Drill, root, depth, place, opening, index)
}

#[unsafe(no_mangle)]
pub extern "C" fn rpo128_check(
    root: &[u64],
    depth: usize,
    place: usize,
    has_record: bool,
    words: &[u64],
    path: &[u64],
    index: &mut usize,
) -> u8
    ensures told { (result, index.new) ≡ check_told (check_call 4 4 rpo_128 root.now depth place (claim_from has_record words.now) path.now) index.old }
    ensures accepted { SaysAccepted result (check_call 4 4 rpo_128 root.now depth place (claim_from has_record words.now) path.now) }
{
    let opening = opening_from(has_record, words, path);
    check_code(&Rpo128::new(), root, depth, place, opening, index)
}

#[unsafe(no_mangle)]
pub extern "C" fn rpo160_check(
    root: &[u64],
    depth: usize,
    place: usize,
    has_record: bool,
    words: &[u64],
    path: &[u64],
    index: &mut usize,
) -> u8
    ensures told { (result, index.new) ≡ check_told (check_call 6 5 rpo_160 root.now depth place (claim_from has_record words.now) path.now) index.old }
    ensures accepted { SaysAccepted result (check_call 6 5 rpo_160 root.now depth place (claim_from has_record words.now) path.now) }
{
    let opening = opening_from(has_record, words, path);
    check_code(&Rpo160::new(), root, depth, place, opening, index)
}
