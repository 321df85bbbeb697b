ghost use Rattle.std.specs.Prelude.{◌≡◌};
ghost use Rattle.script.specs.Stages.{digest_size, new_lot, named_lot, any_filled, any_closed, any_asked};
ghost use Rattle.script.specs.Shown.{shown_kind, shown_started};

use kinds::denial::Denial;
use kinds::drill::Drill;
use kinds::kind::Kind;
use lots::closed::ClosedLot;
use lots::lot::Lot;
use reader::fault::ScriptFault;
use reader::orders::Order;
use rpo_kinds::rpo128::Rpo128;
use rpo_kinds::rpo160::Rpo160;
use turns::answers::ScriptLine;
use turns::asking::ask;
use turns::filling::fill;

// What is of one of the kinds that a script can name.
#[derive(Drop)]
pub enum OfKind<A, B, C> {
    Drill(A),
    Rpo128(B),
    Rpo160(C),
}

pub type AnyLot = OfKind<Lot<Drill>, Lot<Rpo128>, Lot<Rpo160>>;

pub type AnyClosed = OfKind<ClosedLot<Drill>, ClosedLot<Rpo128>, ClosedLot<Rpo160>>;

// The lot, made anew.
fn made<K: Kind + Drop>(mut lot: Lot<K>, depth: u8) -> Result<Lot<K>, Denial>
    ensures { result ≡ new_lot K.DIGEST depth }
{
    lot.make(depth)?;
    Ok(lot)
}

impl AnyLot {
    pub(crate) fn made(self, depth: u8) -> Result<AnyLot, ScriptFault>
        ensures { shown_started result ≡ named_lot (shown_kind self).0 (new_lot (digest_size (shown_kind self).0) depth) }
    {
        Ok(match self {
            AnyLot::Drill(lot) => AnyLot::Drill(made(lot, depth)?),
            AnyLot::Rpo128(lot) => AnyLot::Rpo128(made(lot, depth)?),
            AnyLot::Rpo160(lot) => AnyLot::Rpo160(made(lot, depth)?),
        })
    }

    // Runs a command that is in its phase, and writes its line.
    pub(crate) fn fill(&mut self, order: Order, at: usize, line: &mut ScriptLine)
        ensures after { shown_kind self.new ≡ (any_filled (shown_kind self.old) order at).0 }
        ensures line { line.new ≡ (any_filled (shown_kind self.old) order at).1 }
    {
        match self {
            AnyLot::Drill(lot) => fill(lot, order, at, line),
            AnyLot::Rpo128(lot) => fill(lot, order, at, line),
            AnyLot::Rpo160(lot) => fill(lot, order, at, line),
        }
    }

    pub(crate) fn close(self) -> AnyClosed
        ensures { shown_kind result ≡ any_closed (shown_kind self) }
    {
        match self {
            AnyLot::Drill(lot) => AnyClosed::Drill(lot.close()),
            AnyLot::Rpo128(lot) => AnyClosed::Rpo128(lot.close()),
            AnyLot::Rpo160(lot) => AnyClosed::Rpo160(lot.close()),
        }
    }
}

impl AnyClosed {
    // Runs a command that is in its phase, and writes its line.
    pub(crate) fn ask(&self, order: Order, at: usize, line: &mut ScriptLine)
        ensures { line.new ≡ any_asked (shown_kind self.now) order at }
    {
        match self {
            AnyClosed::Drill(lot) => ask(lot, order, at, line),
            AnyClosed::Rpo128(lot) => ask(lot, order, at, line),
            AnyClosed::Rpo160(lot) => ask(lot, order, at, line),
        }
    }
}
