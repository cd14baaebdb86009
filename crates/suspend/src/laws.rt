//! What holds of stores and their heaps. Each function does nothing: its contract is the law.

ghost use Rattle.suspend.specs.Looked.{FormShowsHeading};
ghost use Rattle.suspend.specs.Laws.{QuietSleeps, KeyedAfterJoining, KeyedAfterLeaving, KeyedAfterFiring, KeyedAfterRow, KeyedAfterWaiting, KeyedAfterDoubting, KeyedAfterLooking, KeyedAfterResting, KeyedAfterAssigning, KeyedAfterRenaming, KeyedAfterGrowth, KeyedAfterMaking, NothingIsAwake, GrowthGains, NumbersAscend, NumbersAreBelow, LaterIsReflexive, LaterIsTransitive, OldestIsEarlier, OldestTwice};

/// What a store knows of the keys of its constraints holds through each event of its log.
pub fn law_events<C>()
    ensures joining { KeyedAfterJoining C }
    ensures leaving { KeyedAfterLeaving C }
    ensures firing { KeyedAfterFiring C }
    ensures row { KeyedAfterRow C }
    ensures waiting { KeyedAfterWaiting C }
    ensures doubting { KeyedAfterDoubting C }
    ensures looking { KeyedAfterLooking C }
    ensures resting { KeyedAfterResting C }
{}

/// And through whatever a call may change in the heap, where the constraints of the variables that got values are to be
/// looked at, or those of a variable that became another one are that one's. Where none is to be looked at, none is awake.
pub fn law_keys<C>()
    ensures sleeps { QuietSleeps }
    ensures assigning { KeyedAfterAssigning C }
    ensures renaming { KeyedAfterRenaming C }
    ensures growth { KeyedAfterGrowth C }
    ensures making { KeyedAfterMaking C }
    ensures gains { GrowthGains }
    ensures none { NothingIsAwake C }
{}

/// The numbers of stored constraints rise in order of declaration, and none is past the count of additions.
pub fn law_numbers<C>()
    ensures ascend { NumbersAscend C }
    ensures below { NumbersAreBelow C }
{}

/// What is later than a log has it as its oldest events.
pub fn law_logs<C>()
    ensures reflexive { LaterIsReflexive C }
    ensures transitive { LaterIsTransitive C }
    ensures oldest { OldestIsEarlier C }
    ensures twice { OldestTwice C }
{}

/// What a term's form shows of its head: the variable that heads it, or that it isn't headed by one.
pub fn law_forms()
    ensures { FormShowsHeading }
{}
