ghost use Rattle.std.specs.Prelude.{◌≡◌};
ghost use Rattle.std.specs.Option.{option_to_list};
ghost use Rattle.reader.specs.declared.fault.ScriptFault.TheVariants.{Denied as denied_by_lot};
ghost use Rattle.reader.specs.Faults.{number_of, layer_of, values_of};

use kinds::denial::{Denial, Layer};

// Why a command of a script is refused. The script's own faults have the offset of the command.
#[derive(Clone, Copy, Debug, PartialEq, Eq)]
pub enum ScriptFault {
    UnknownCommand(usize),
    CutShort(usize),
    OutOfPhase(usize),
    TooLong,
    UnknownKind(usize),
    Denied(Denial),
}

impl From<Denial> for ScriptFault {
    ghost from_gives = { λ e r. r ≡ denied_by_lot e };

    fn from(e: Denial) -> ScriptFault {
        ScriptFault::Denied(e)
    }
}

impl ScriptFault {
    pub fn number(self) -> u8
        ensures { result ≡ number_of self }
    {
        match self {
            ScriptFault::UnknownCommand(_) => 14,
            ScriptFault::CutShort(_) => 15,
            ScriptFault::OutOfPhase(_) => 16,
            ScriptFault::TooLong => 17,
            ScriptFault::UnknownKind(_) => 18,
            ScriptFault::Denied(denial) => denial.number(),
        }
    }

    pub fn layer(self) -> Layer
        ensures { result ≡ layer_of self }
    {
        match self {
            ScriptFault::Denied(denial) => denial.layer(),
            _ => Layer::Script,
        }
    }

    // The offset of a fault of the script's own, or the index that a denial speaks of.
    pub fn value(self) -> Option<usize>
        ensures { option_to_list result ≡ values_of self }
    {
        match self {
            ScriptFault::UnknownCommand(at)
            | ScriptFault::CutShort(at)
            | ScriptFault::OutOfPhase(at)
            | ScriptFault::UnknownKind(at) => Some(at),
            ScriptFault::TooLong => Some(0),
            ScriptFault::Denied(denial) => denial.index(),
        }
    }
}
