ghost use Rattle.std.specs.Prelude.{◌≡◌};
ghost use Rattle.reader.specs.Phases.{in_phase};

use crate::verbs::Verb;

// How far a script has come.
#[derive(Clone, Copy)]
pub enum Phase {
    Before,
    Filling,
    Closed,
}

impl Phase {
    // Whether a command is in its phase.
    pub fn allows(self, verb: Verb) -> bool
        ensures { result ≡ in_phase self verb }
    {
        match self {
            Phase::Before => matches!(verb, Verb::Start),
            Phase::Filling => !matches!(verb, Verb::Start | Verb::Open),
            Phase::Closed => matches!(verb, Verb::Root | Verb::Open),
        }
    }
}
