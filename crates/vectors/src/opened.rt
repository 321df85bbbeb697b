use crate::calls::{Kinds, PATTERN};
use crate::cases::{read_kind, read_length, read_words};
use crate::report::show_denial;
use console::no_case::NoCase;
use console::output::{Checked, Words};
use finder::clash::Clash;
use finder::finding::find_clash;
use kinds::drill::Drill;
use kinds::kind::Kind;
use openings::checking::check;
use openings::opening::Opening;
use rpo_kinds::names::KindName;
use std::alloc::Global;
use std::io;

// The words between two colons, or nothing, as a claim, which `-` stands for.
type Section = Option<Vec<u64>>;

// What stands before the first colon. With room for its pairs, a clash of two openings is looked for; with none, one is checked.
#[derive(Clone, Copy)]
struct Head {
    kind: KindName,
    depth: u8,
    place: u16,
    room: Option<usize>,
}

fn read_section(heap: Global, text: &str) -> Result<Section, NoCase> {
    if text.trim() == "-" {
        return Ok(None);
    }
    Ok(Some(read_words(heap, text)?))
}

fn read_head(text: &str) -> Result<Head, NoCase> {
    let mut parts = text.split_whitespace();
    parts.next().ok_or(NoCase::Form)?;
    let kind = read_kind(parts.next().ok_or(NoCase::Form)?)?;
    let depth = parts.next().ok_or(NoCase::Form)?.parse::<u8>()?;
    let place = parts.next().ok_or(NoCase::Form)?.parse::<u16>()?;
    let room = parts.next().map(read_length).transpose()?;
    Ok(Head {
        kind,
        depth,
        place,
        room,
    })
}

// The sections behind the head.
fn read_sections(heap: Global, text: &str) -> Result<Vec<Section>, NoCase> {
    let mut all = Vec::new(heap);
    for part in text.split(':') {
        all.push(read_section(heap, part)?)?;
    }
    Ok(all)
}

fn words_of(section: &Section) -> &[u64] {
    section.as_deref().unwrap_or(&[])
}

fn run_check<K: Kind>(rt: &HostRuntime, kind: &K, head: Head, s: &[Section]) -> io::Result<()> {
    let [root, claim, path] = s else {
        return println!(rt; "a check has three sections");
    };
    let checked = Checked(check(
        kind,
        words_of(root),
        head.depth,
        head.place,
        claim.as_deref(),
        words_of(path),
    ));
    println!(rt; "{checked}")
}

fn show_clash(rt: &HostRuntime, clash: Clash, out: &[u64], kept: bool) -> io::Result<()> {
    match clash {
        Clash::Pairs { level } => {
            let words = Words(out);
            println!(rt; "pairs {level} {words}")
        }
        Clash::Records if kept => println!(rt; "records"),
        Clash::ZeroRecord { second } if kept => println!(rt; "zero {second}"),
        _ => println!(rt; "changed"),
    }
}

fn run_find<K: Kind>(
    rt: &HostRuntime,
    kind: &K,
    head: Head,
    room: usize,
    s: &[Section],
) -> io::Result<()> {
    let [root, first_claim, first_path, second_claim, second_path] = s else {
        return println!(rt; "a find has five sections");
    };
    let before = vec![in rt.alloc(); PATTERN; room]?;
    let mut out = vec![in rt.alloc(); PATTERN; room]?;
    let first = Opening {
        claim: first_claim.as_deref(),
        path: words_of(first_path),
    };
    let second = Opening {
        claim: second_claim.as_deref(),
        path: words_of(second_path),
    };
    let answer = find_clash(
        kind,
        words_of(root),
        head.depth,
        head.place,
        first,
        second,
        &mut out,
    );
    let kept = before.as_slice() == out.as_slice();
    match answer {
        Ok(clash) => show_clash(rt, clash, &out, kept),
        Err(why) => show_denial(rt, why, kept),
    }
}

fn run_any<K: Kind>(rt: &HostRuntime, kind: &K, head: Head, s: &[Section]) -> io::Result<()> {
    match head.room {
        Some(room) => run_find(rt, kind, head, room, s),
        None => run_check(rt, kind, head, s),
    }
}

// The head of a line, and its sections.
fn read_opened(heap: Global, text: &str) -> Result<(Head, Vec<Section>), NoCase> {
    let (front, rest) = text.split_once(':').ok_or(NoCase::Form)?;
    Ok((read_head(front)?, read_sections(heap, rest)?))
}

// A line that begins `check KIND DEPTH PLACE` or `find KIND DEPTH PLACE ROOM`.
pub(crate) fn run_opened(rt: &HostRuntime, kinds: &Kinds, text: &str) -> Result<(), NoCase> {
    let (head, sections) = read_opened(rt.alloc(), text)?;
    match head.kind {
        KindName::Drill => run_any(rt, &Drill, head, &sections)?,
        KindName::Rpo128 => run_any(rt, &kinds.rpo128, head, &sections)?,
        KindName::Rpo160 => run_any(rt, &kinds.rpo160, head, &sections)?,
    }
    Ok(())
}
