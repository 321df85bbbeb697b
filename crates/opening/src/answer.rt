ghost use Rattle.std.specs.Prelude.{◌≡◌, Some, None};
ghost use Rattle.opening.specs.Replies.{said_by, reply_with, reply};

use crate::question::{Question, Told};
use crate::said::{Pairs, Said};
use finder::finding::find_clash;
use kinds::drill::Drill;
use kinds::kind::Kind;
use openings::checking::check;
use promises::promises;
use rpo_kinds::names::KindName;
use rpo_kinds::rpo128::Rpo128;
use rpo_kinds::rpo160::Rpo160;

// Whether the opening fits the root.
fn checked<K: Kind>(kind: &K, asked: &Question) -> Said
    ensures { said_by result ≡ reply_with K.CAPACITY K.DIGEST K.mapping asked.now None }
{
    let opening = asked.first.opening();
    Said::Checked(check(
        kind,
        &asked.root,
        asked.depth,
        asked.place,
        opening.claim,
        opening.path,
    ))
}

// The clash that both openings show.
fn compared<K: Kind>(kind: &K, asked: &Question, second: &Told) -> Said
    ensures { said_by result ≡ reply_with K.CAPACITY K.DIGEST K.mapping asked.now (Some second.now) }
{
    let mut words = [0u64; 28];
    let long = 4 * K::DIGEST;
    let found = find_clash(
        kind,
        &asked.root,
        asked.depth,
        asked.place,
        asked.first.opening(),
        second.opening(),
        &mut words[..long],
    );
    Said::Found(found, Pairs { words, long })
}

// What a buyer relies on is the contract of `promises`, for every kind.
fn answer_at<K: Kind>(kind: &K, asked: &Question) -> Said
    ensures { said_by result ≡ reply_with K.CAPACITY K.DIGEST K.mapping asked.now asked.now.second }
{
    promises::<K>();
    match &asked.second {
        Some(second) => compared(kind, asked, second),
        None => checked(kind, asked),
    }
}

// The answer at the kind that is named.
pub(crate) fn answer(asked: &Question) -> Said
    ensures { said_by result ≡ reply asked.now }
{
    match asked.kind {
        KindName::Drill => answer_at(&Drill, asked),
        KindName::Rpo128 => answer_at(&Rpo128::new(), asked),
        KindName::Rpo160 => answer_at(&Rpo160::new(), asked),
    }
}
