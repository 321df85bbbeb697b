use crate::clashes::print_clash;
use crate::command::{Command, parse_command};
use crate::lot::{LotInHand, turn};
use console::input::Unread;
use kinds::drill::Drill;
use lots::lot::Lot;
use rpo_kinds::names::KindName;
use rpo_kinds::rpo128::Rpo128;
use rpo_kinds::rpo160::Rpo160;
use script::any::OfKind;
use std::io;

// A lot of one of the kinds.
type AnyLot = OfKind<LotInHand<Drill>, LotInHand<Rpo128>, LotInHand<Rpo160>>;

fn new_lot(rt: &HostRuntime, kind: KindName) -> Result<AnyLot, Unread> {
    let heap = rt.alloc();
    Ok(match kind {
        KindName::Drill => OfKind::Drill(LotInHand::Filling(Lot::new(heap, Drill)?)),
        KindName::Rpo128 => OfKind::Rpo128(LotInHand::Filling(Lot::new(heap, Rpo128::new())?)),
        KindName::Rpo160 => OfKind::Rpo160(LotInHand::Filling(Lot::new(heap, Rpo160::new())?)),
    })
}

fn turn_any(rt: &impl Print, lot: AnyLot, command: &Command) -> io::Result<AnyLot> {
    Ok(match lot {
        OfKind::Drill(l) => OfKind::Drill(turn(rt, &Drill, l, command)?),
        OfKind::Rpo128(l) => OfKind::Rpo128(turn(rt, &Rpo128::new(), l, command)?),
        OfKind::Rpo160(l) => OfKind::Rpo160(turn(rt, &Rpo160::new(), l, command)?),
    })
}

// What a line asks for.
#[derive(Drop)]
enum Line {
    Lot(KindName),
    Call(Command),
    // A clash is of no lot, and is answered as it is read.
    Clash,
}

// Prints a line, with what is answered before the lot in hand is looked at.
fn read_line(rt: &HostRuntime, line: usize, text: &str) -> Result<Line, Unread> {
    print!(rt; "{text}: ")?;
    if let Some(name) = text.strip_prefix("lot ") {
        let kind = name.parse::<KindName>()?;
        println!(rt; "ok")?;
        return Ok(Line::Lot(kind));
    }
    match parse_command(rt.alloc(), line, text)? {
        Command::Clash(told) => {
            print_clash(rt, &told)?;
            Ok(Line::Clash)
        }
        command => Ok(Line::Call(command)),
    }
}

// The lot in hand after a line: a new one of a kind, or the one before, called.
fn lot_after(rt: &HostRuntime, lot: AnyLot, line: Line) -> Result<AnyLot, Unread> {
    match line {
        Line::Lot(kind) => new_lot(rt, kind),
        Line::Call(command) => Ok(turn_any(rt, lot, &command)?),
        Line::Clash => Ok(lot),
    }
}

// The lines of a text, one after the other. A text that names no kind runs at the drill kind.
pub(crate) fn run(rt: &HostRuntime, text: &str) -> Result<(), Unread> {
    let mut lot = new_lot(rt, KindName::Drill)?;
    for (i, text) in text.lines().enumerate() {
        let line = read_line(rt, i.saturating_add(1), text)?;
        lot = lot_after(rt, lot, line)?;
    }
    Ok(())
}
