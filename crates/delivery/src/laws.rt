// What follows for every board from what its calls promise, and worked examples: each function promises one law.
// The statements are in specs/Laws.antt and specs/Examples.antt; told in docs/RULES.md, "Reports and closings" and "Worked examples".
ghost use Rattle.delivery.specs.Examples.{Worked};
ghost use Rattle.delivery.specs.Laws.{StepsEnd};

// Wherever a board stands, the steps by which it goes on end at one place, and that is where it settles.
#[tactic(auto, using(crate::proofs::Settling::steps_end))]
pub fn steps_end()
    ensures { StepsEnd }
{}

// The examples hold.
#[tactic(auto, using(crate::proofs::Worked::worked))]
pub fn examples()
    ensures { Worked }
{}
