// The worked cases of document 01, on its own bytes.
ghost use Rattle.demands.specs.Cases.{WorkedCases, WrongTurns};

// The starred cases A to J.
pub fn worked_cases()
    ensures { WorkedCases }
{}

// Cases in which each of the four wrong turns would give another answer.
pub fn wrong_turns_answer_otherwise()
    ensures { WrongTurns }
{}
