// Holds the worked examples.
#![tactic(auto)]

ghost use Rattle.examples.specs.Table.{WorkedExamples};

#[tactic(auto, unfolding(rpo::specs::Matrix::times, rpo_kinds::specs::Constants::constant_at))]
pub fn examples_stand()
    ensures { WorkedExamples }
{}
