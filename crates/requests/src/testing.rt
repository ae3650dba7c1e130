// Document 02, K3: the test of a coalition ends at the broken grant.
ghost use Rattle.requests.specs.Testing.{VerdictIsSoundness, EndsAtTheBrokenGrant, UncountedChangeNoTest};
ghost use Rattle.requests.specs.Cases.{TestCases};

// The verdict is whether the coalition is sound.
pub fn the_verdict_is_soundness()
    ensures { VerdictIsSoundness }
{}

// It ends at the first counting grant that the coalition breaks, which is counted; where it breaks none, all are tested.
pub fn the_test_ends_at_the_first_broken_grant()
    ensures { EndsAtTheBrokenGrant }
{}

// Grants that don't count change no verdict and no number.
pub fn uncounted_grants_change_no_test()
    ensures { UncountedChangeNoTest }
{}

// The cases of the request, on their own bytes and numbers.
pub fn worked_cases()
    ensures { TestCases }
{}
