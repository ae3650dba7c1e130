// FLAM's principal algebra and document 01's coalitions: what the one derives is what the other decides.
#![tactic(auto)]

pub mod gap;
pub mod rules;

ghost use Rattle.algebra.specs.Algebra.{HeldWhereMeant, ActsForByCoalitions, FlowsToByCoalitions, StaticIsActsFor, VisibleIsFlowsTo, SpokenByVoiceIsActsForVoice, NormalForms, VoiceOfNormalForms, VoiceIsHeld, DefinitionsOneAndTwo, YesIsActsFor, YesIsFlowsTo};

// FLAM has no quorum: a term is held exactly where the principal that it means is held.
pub fn a_term_is_held_where_its_meaning_is()
    ensures { HeldWhereMeant }
{}

// Sound and complete: p acts for q in the algebra exactly if on each side every sound coalition that holds p holds q.
pub fn acts_for_is_decided_by_coalitions()
    ensures { ActsForByCoalitions }
{}

// FLAM's Definition 3 is the flows-to question's sentence.
pub fn flows_to_is_decided_by_coalitions()
    ensures { FlowsToByCoalitions }
{}

// "Statically" is the algebra without grants.
pub fn statically_is_without_grants()
    ensures { StaticIsActsFor }
{}

// A grant is visible exactly if its label flows to the label asked under.
pub fn visible_is_flows_to()
    ensures { VisibleIsFlowsTo }
{}

// A grant was spoken by the voice exactly if its label's integrity acts for the voice of q.
pub fn spoken_by_the_voice_is_acting_for_it()
    ensures { SpokenByVoiceIsActsForVoice }
{}

// Every principal equals its normal form, and so what any term means does.
pub fn every_term_has_a_normal_form()
    ensures { NormalForms }
{}

// The voice is Definition 7's, and equal principals have equal voices.
pub fn voice_is_definition_7()
    ensures { VoiceOfNormalForms }
{}

// Document 01's voice is held exactly where Definition 7's is.
pub fn voice_is_held_where_definition_7s_is()
    ensures { VoiceIsHeld }
{}

// All properties of an authority projection and of the confidentiality and integrity basis.
pub fn definitions_1_and_2_hold()
    ensures { DefinitionsOneAndTwo }
{}

// The acts-for question's yes, and the algebra over the grants that count.
pub fn acts_for_yes_is_the_algebras()
    ensures { YesIsActsFor }
{}

// The flows-to question's yes, and Definition 3 over the grants that count.
pub fn flows_to_yes_is_the_algebras()
    ensures { YesIsFlowsTo }
{}
