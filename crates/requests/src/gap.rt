// Document 02, K6: only the missing part must be spoken.
ghost use Rattle.requests.specs.Gap.{SingleCoalitionsTell, VoiceStillSpeaks, YesStays, StaticGrants};
ghost use Rattle.requests.specs.Cases.{GapCases};

// The gap speaks of every coalition that contains one; what single coalitions hold tells the same.
pub fn single_coalitions_tell_whether_a_grant_is_spoken()
    ensures { SingleCoalitionsTell }
{}

// What the voice spoke the gap speaks, so that no grant stops counting.
pub fn what_the_voice_spoke_the_gap_speaks()
    ensures { VoiceStillSpeaks }
{}

// So each yes stays.
pub fn each_yes_stays()
    ensures { YesStays }
{}

// Where p statically acts for q any label speaks, and the grant changes nothing.
pub fn static_grants_are_spoken_and_change_nothing()
    ensures { StaticGrants }
{}

// The cases of the request, on their own bytes.
pub fn worked_cases()
    ensures { GapCases }
{}
