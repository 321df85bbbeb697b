// The check of an opening and the finder of a clash, over any kind.
ghost use Rattle.std.specs.Prelude.{◌≡◌};
ghost use Rattle.kinds.specs.Denials.{told};
ghost use Rattle.openings.specs.Sites.{claim_of};
ghost use Rattle.openings.specs.Checks.{check_call, accepted};
ghost use Rattle.finder.specs.Findings.{find_call, shown, shown_by};
ghost use Rattle.ffi.specs.Openings.{claim_from, check_told, SaysAccepted, find_told, clash_after, level_after};

use crate::code::tell;
use finder::clash::Clash;
use finder::finding::find_clash;
use kinds::denial::Denial;
use kinds::kind::Kind;
use openings::checking::check;
use openings::opening::Opening;
use openings::operands::{one_byte, two_bytes};

// What the check answers where it denies nothing and the opening comes to another root.
pub const NOT_ACCEPTED: u8 = 200;

// A claim and its path. Where no record is claimed the words are not looked at.
pub fn opening_from<'a>(has_record: bool, words: &'a [u64], path: &'a [u64]) -> Opening<'a>
    ensures claim { claim_of result ≡ claim_from has_record words.now }
    ensures path { result.path.now ≡ path.now }
{
    let claim = if has_record { Some(words) } else { None };
    Opening { claim, path }
}

// The check at a depth and a place of any size, so that none is cut down to one that a tree has.
fn check_any<K: Kind>(
    kind: &K,
    root: &[u64],
    depth: usize,
    place: usize,
    opening: Opening<'_>,
) -> Result<bool, Denial>
    ensures { (told result, accepted result) ≡ check_call K.CAPACITY K.DIGEST K.mapping root.now depth place (claim_of opening.entry) opening.entry.path.now }
{
    check(
        kind,
        root,
        one_byte(depth as u64),
        two_bytes(place as u64),
        opening.claim,
        opening.path,
    )
}

// 0 and nothing else says that an opening is accepted.
pub fn check_code<K: Kind>(
    kind: &K,
    root: &[u64],
    depth: usize,
    place: usize,
    opening: Opening<'_>,
    index: &mut usize,
) -> u8
    ensures told { (result, index.new) ≡ check_told (check_call K.CAPACITY K.DIGEST K.mapping root.now depth place (claim_of opening.entry) opening.entry.path.now) index.old }
    ensures accepted { SaysAccepted result (check_call K.CAPACITY K.DIGEST K.mapping root.now depth place (claim_of opening.entry) opening.entry.path.now) }
{
    match check_any(kind, root, depth, place, opening) {
        Ok(true) => 0,
        Ok(false) => NOT_ACCEPTED,
        Err(why) => tell(why, index),
    }
}

// A clash by number, and the level of its pairs.
fn tell_clash(found: Clash, clash: &mut u8, level: &mut usize)
    ensures clash { clash.new ≡ clash_after (shown_by found) clash.old }
    ensures level { level.new ≡ level_after (shown_by found) level.old }
{
    *clash = match found {
        Clash::Pairs { level: at } => {
            *level = at;
            1
        }
        Clash::Records => 2,
        Clash::ZeroRecord { second: false } => 3,
        Clash::ZeroRecord { second: true } => 4,
    };
}

// The finder at a depth and a place of any size.
fn find_any<K: Kind>(
    kind: &K,
    root: &[u64],
    depth: usize,
    place: usize,
    first: Opening<'_>,
    second: Opening<'_>,
    out: &mut [u64],
) -> Result<Clash, Denial>
    ensures { (told result, shown result, out.new) ≡ find_call K.CAPACITY K.DIGEST K.mapping root.now depth place (claim_of first.entry) first.entry.path.now (claim_of second.entry) second.entry.path.now out.old }
{
    find_clash(
        kind,
        root,
        one_byte(depth as u64),
        two_bytes(place as u64),
        first,
        second,
        out,
    )
}

pub fn find_code<K: Kind>(
    kind: &K,
    root: &[u64],
    depth: usize,
    place: usize,
    first: Opening<'_>,
    second: Opening<'_>,
    out: &mut [u64],
    clash: &mut u8,
    level: &mut usize,
    index: &mut usize,
) -> u8
    ensures { (result, clash.new, level.new, index.new, out.new) ≡ find_told (find_call K.CAPACITY K.DIGEST K.mapping root.now depth place (claim_of first.entry) first.entry.path.now (claim_of second.entry) second.entry.path.now out.old) clash.old level.old index.old }
{
    match find_any(kind, root, depth, place, first, second, out) {
        Ok(found) => {
            tell_clash(found, clash, level);
            0
        }
        Err(why) => tell(why, index),
    }
}
