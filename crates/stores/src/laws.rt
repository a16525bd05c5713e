// The laws of what stores hold, each the contract of a function that a caller may cite. The functions answer nothing.
ghost use Rattle.stores.specs.Laws.{PutsChangeOneDot, StrikesRemoveOneDot, LookupsTellLists, PartCountsAddUp, CallsKeepOrder};

// What a put does to the look-up at every dot.
pub fn puts_change_one_dot()
    ensures { PutsChangeOneDot }
{}

// What a strike does to the look-up at every dot.
pub fn strikes_remove_one_dot()
    ensures { StrikesRemoveOneDot }
{}

// Two stores in order with equal look-ups hold one list.
pub fn lookups_tell_lists()
    ensures { LookupsTellLists }
{}

// The counts of the parts add up to all that is held.
pub fn part_counts_add_up()
    ensures { PartCountsAddUp }
{}

// Puts and strikes keep what is held in order, with no dot twice and no part over its capacity.
pub fn calls_keep_order()
    ensures { CallsKeepOrder }
{}
