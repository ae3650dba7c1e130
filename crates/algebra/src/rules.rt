// The seven rules of document 01, "Derivations": they derive every yes, and nothing else.
ghost use Rattle.algebra.specs.Rules.{RulesAreSound, RulesAreComplete, YesIsDerived};

// What the rules derive is a yes.
pub fn seven_rules_are_sound()
    ensures { RulesAreSound }
{}

// Every yes is derived by the rules.
pub fn seven_rules_are_complete()
    ensures { RulesAreComplete }
{}

// The acts-for question answers yes exactly where the rules derive it from the grants that count.
pub fn yes_is_what_seven_rules_derive()
    ensures { YesIsDerived }
{}
