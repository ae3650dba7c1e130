// Document 02, K5: the live ledger.
ghost use Rattle.requests.specs.Live.{StoredAreAfresh, SoundIsNumber0, AnswersAreWritten, StayAsMade, AtMostTheGrants, RefusedChangesNothing, OrderKept, TwinsCountEach, AddingIsUndone, RefusedInOrder, RefusalNumbers};
ghost use Rattle.requests.specs.LiveCases.{LiveCases};

// After every list of calls the stored numbers are those worked out afresh from the written ledger with the same grants.
pub fn stored_numbers_are_those_worked_out_afresh()
    ensures { StoredAreAfresh }
{}

// A number is 0 exactly if the coalition is sound on the side.
pub fn sound_is_number_0()
    ensures { SoundIsNumber0 }
{}

// After every list of calls both questions have the answers of the written ledger, refusals included.
pub fn answers_are_those_of_the_written_ledger()
    ensures { AnswersAreWritten }
{}

// n, the label and the day are those that it was made with.
pub fn names_label_and_day_never_change()
    ensures { StayAsMade }
{}

// Every number is at most that of the grants held, and these are at most 64.
pub fn numbers_are_at_most_the_grants_held()
    ensures { AtMostTheGrants }
{}

// A refused call changes nothing, and neither does a question.
pub fn a_refused_call_changes_nothing()
    ensures { RefusedChangesNothing }
{}

// A grant is added last, and the later ones move down where one is withdrawn.
pub fn grants_keep_their_order()
    ensures { OrderKept }
{}

// Twins are counted each.
pub fn twins_are_counted_each()
    ensures { TwinsCountEach }
{}

// Withdrawing the grant that was added last gives back what was before.
pub fn withdrawing_undoes_adding()
    ensures { AddingIsUndone }
{}

// Each call is refused exactly under its conditions, the first that applies.
pub fn refusals_come_in_their_order()
    ensures { RefusedInOrder }
{}

// And by its own numbers only.
pub fn each_call_has_its_own_refusals()
    ensures { RefusalNumbers }
{}

// The cases of the request, on their own bytes and numbers.
pub fn worked_cases()
    ensures { LiveCases }
{}
