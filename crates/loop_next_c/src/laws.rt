//! What holds of every loop that asks.
ghost use Rattle.loop_next_c.specs.Laws.{WaitsForLaterAlone, WakesAtTheFirst, LooksAnew, RoundsUp};

/// Stands for the law that a loop waits only where no event, no frame and no look is left to be done, and all that it waits for comes
/// later than now.
pub fn waits_for_later_alone()
    ensures { WaitsForLaterAlone }
{}

/// Stands for the law that no wait goes on past a moment that the loop waits for, and that it ends at one of these or never.
pub fn wakes_at_the_first()
    ensures { WakesAtTheFirst }
{}

/// Stands for the law that a look is acted on once: behind each action the loop neither handles a message nor runs idle handlers,
/// waits or stops before it has looked at the queue again.
pub fn looks_anew()
    ensures { LooksAnew }
{}

/// Stands for the law that a wait in whole milliseconds doesn't end before its moment, unless it is cut to the longest, and lasts
/// less than a millisecond more.
pub fn rounds_up()
    ensures { RoundsUp }
{}
