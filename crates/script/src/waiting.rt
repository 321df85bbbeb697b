ghost use Rattle.std.specs.Prelude.{◌≡◌};
ghost use Rattle.script.specs.Stages.{started};
ghost use Rattle.script.specs.Shown.{shown_kind, shown_started};

use crate::any::AnyLot;
use kinds::drill::Drill;
use lots::lot::Lot;
use reader::fault::ScriptFault;
use rpo_kinds::names::KindName;
use rpo_kinds::rpo128::Rpo128;
use rpo_kinds::rpo160::Rpo160;
use std::alloc::{AllocError, Global};

// A lot of each kind: all memory is taken before the script is run, so that no line waits on it.
#[derive(Drop)]
pub struct Waiting {
    drill: Lot<Drill>,
    rpo128: Lot<Rpo128>,
    rpo160: Lot<Rpo160>,
}

impl Waiting {
    pub(crate) fn new(heap: Global) -> Result<Waiting, AllocError> {
        let drill = Lot::new(heap, Drill)?;
        let rpo128 = Lot::new(heap, Rpo128::new())?;
        let rpo160 = Lot::new(heap, Rpo160::new())?;
        Ok(Waiting {
            drill,
            rpo128,
            rpo160,
        })
    }

    // The lot of that kind; the other two go.
    fn of_kind(self, name: KindName) -> AnyLot
        ensures { (shown_kind result).0 ≡ name }
    {
        match name {
            KindName::Drill => AnyLot::Drill(self.drill),
            KindName::Rpo128 => AnyLot::Rpo128(self.rpo128),
            KindName::Rpo160 => AnyLot::Rpo160(self.rpo160),
        }
    }

    // The lot that the start at that offset asks for.
    pub(crate) fn start(self, kind: u8, depth: u8, at: usize) -> Result<AnyLot, ScriptFault>
        ensures { shown_started result ≡ started kind depth at }
    {
        let name = KindName::try_from(kind).map_err(|_| ScriptFault::UnknownKind(at))?;
        self.of_kind(name).made(depth)
    }
}
