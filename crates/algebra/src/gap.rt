// The gap of document 02 is FLAM's subtraction of principals, and what is asked of a grant's label is to speak for it.
ghost use Rattle.algebra.specs.Gap.{GapIsHeld, GapIsWeakest, GapIsSubtraction, NoGap, SpokenIsActsForGap, SpokenSideBySide, SpokenIsActingTogether, VoiceActsForGap};

// The gap is held exactly where crate model's is.
pub fn gap_is_held_where_the_models_is()
    ensures { GapIsHeld }
{}

// Together with p it acts for q, and whatever does so acts for it.
pub fn gap_is_the_weakest_that_with_p_acts_for_q()
    ensures { GapIsWeakest }
{}

// FLAM's Definitions 9 to 11: it is q - p.
pub fn gap_is_flams_subtraction()
    ensures { GapIsSubtraction }
{}

// Nothing is left where p acts for q, and only there.
pub fn no_gap_is_left_where_p_acts_for_q()
    ensures { NoGap }
{}

// A grant is spoken exactly if its label's integrity acts for the voice of the gap.
pub fn spoken_is_acting_for_the_voice_of_the_gap()
    ensures { SpokenIsActsForGap }
{}

// FLAM's Lemma 3 subtracts voices, a side at a time, and asks the same.
pub fn spoken_is_acting_for_the_gaps_of_the_voices()
    ensures { SpokenSideBySide }
{}

// So does asking that p acts for q together with the label's integrity, taken on both sides.
pub fn spoken_is_acting_for_q_together_with_p()
    ensures { SpokenIsActingTogether }
{}

// What the voice of q spoke, the gap speaks.
pub fn voice_acts_for_the_voice_of_the_gap()
    ensures { VoiceActsForGap }
{}
