// Document 02, K4: quorums.
ghost use Rattle.requests.specs.Quorums.{HeldByPlaces, OneAndAll, MoreForFewer, MoreMembersHold, LeftToRight};
ghost use Rattle.requests.specs.Cases.{QuorumCases};

// A quorum is held on a side exactly where k of its places, all different, are held there.
pub fn a_quorum_is_held_where_k_of_its_places_are()
    ensures { HeldByPlaces }
{}

// One of some parts is held where at least one is, all of them where every one is; of two parts that is either, and both.
pub fn one_of_them_is_either_and_all_of_them_is_both()
    ensures { OneAndAll }
{}

// Of the same parts, a quorum of more acts statically for one of fewer.
pub fn a_quorum_of_more_acts_for_one_of_fewer()
    ensures { MoreForFewer }
{}

// What a coalition holds, a coalition with all its members holds.
pub fn a_coalition_with_more_members_holds_the_quorum_too()
    ensures { MoreMembersHold }
{}

// 3 where k or m is missing, 2 where they are out of range, then what refuses the first part that is no term; 4 after the last part.
pub fn a_quorum_is_refused_from_left_to_right()
    ensures { LeftToRight }
{}

// The cases of the request, on their own bytes, characters and numbers.
pub fn worked_cases()
    ensures { QuorumCases }
{}
