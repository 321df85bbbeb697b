// The finder of a clash, for each kind. Where a has-record flag is false, that opening claims nothing.
ghost use Rattle.std.specs.Prelude.{◌≡◌};
ghost use Rattle.kinds.specs.Kinds.{drill};
ghost use Rattle.rpo_kinds.specs.Mappings.{rpo_128, rpo_160};
ghost use Rattle.finder.specs.Findings.{find_call};
ghost use Rattle.ffi.specs.Openings.{claim_from, find_told};

use ffi::opening_calls::{find_code, opening_from};
use kinds::drill::Drill;
use rpo_kinds::rpo128::Rpo128;
use rpo_kinds::rpo160::Rpo160;

#[unsafe(no_mangle)]
pub extern "C" fn drill_find(
    root: &[u64],
    depth: usize,
    place: usize,
    first_has_record: bool,
    first_record: &[u64],
    first_path: &[u64],
    second_has_record: bool,
    second_record: &[u64],
    second_path: &[u64],
    out: &mut [u64],
    clash: &mut u8,
    level: &mut usize,
    index: &mut usize,
) -> u8
    ensures { (result, clash.new, level.new, index.new, out.new) ≡ find_told (find_call 1 1 drill root.now depth place (claim_from first_has_record first_record.now) first_path.now (claim_from second_has_record second_record.now) second_path.now out.old) clash.old level.old index.old }
{
    let first = opening_from(first_has_record, first_record, first_path);
    let second = opening_from(second_has_record, second_record, second_path);
    find_code(
        &Drill, root, depth, place, first, second, out, clash, level, index,
    )
}

#[unsafe(no_mangle)]
pub extern "C" fn rpo128_find(
    root: &[u64],
    depth: usize,
    place: usize,
    first_has_record: bool,
    first_record: &[u64],
    first_path: &[u64],
    second_has_record: bool,
    second_record: &[u64],
    second_path: &[u64],
    out: &mut [u64],
    clash: &mut u8,
    level: &mut usize,
    index: &mut usize,
) -> u8
    ensures { (result, clash.new, level.new, index.new, out.new) ≡ find_told (find_call 4 4 rpo_128 root.now depth place (claim_from first_has_record first_record.now) first_path.now (claim_from second_has_record second_record.now) second_path.now out.old) clash.old level.old index.old }
{
    let first = opening_from(first_has_record, first_record, first_path);
    let second = opening_from(second_has_record, second_record, second_path);
    find_code(
        &Rpo128::new(),
        root,
        depth,
        place,
        first,
        second,
        out,
        clash,
        level,
        index,
    )
}

#[unsafe(no_mangle)]
pub extern "C" fn rpo160_find(
    root: &[u64],
    depth: usize,
    place: usize,
    first_has_record: bool,
    first_record: &[u64],
    first_path: &[u64],
    second_has_record: bool,
    second_record: &[u64],
    second_path: &[u64],
    out: &mut [u64],
    clash: &mut u8,
    level: &mut usize,
    index: &mut usize,
) -> u8
    ensures { (result, clash.new, level.new, index.new, out.new) ≡ find_told (find_call 6 5 rpo_160 root.now depth place (claim_from first_has_record first_record.now) first_path.now (claim_from second_has_record second_record.now) second_path.now out.old) clash.old level.old index.old }
{
    let first = opening_from(first_has_record, first_record, first_path);
    let second = opening_from(second_has_record, second_record, second_path);
    find_code(
        &Rpo160::new(),
        root,
        depth,
        place,
        first,
        second,
        out,
        clash,
        level,
        index,
    )
}
