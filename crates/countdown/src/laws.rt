//! What holds of every countdown.
ghost use Rattle.countdown.specs.Laws.{EndsAreToldOnce};

/// Stands for the law that a countdown answers `Over` exactly at the times after the one at which it answered `Finished`, and
/// that there is only one such time.
pub fn ends_are_told_once()
    ensures { EndsAreToldOnce }
{}
