//! What holds of every animator.
ghost use Rattle.animator.specs.Laws.{EndsAreToldOnce};

/// Stands for the law that an animator answers `Over` exactly at the times after the one at which it answered `End`, and that
/// there is only one such time.
pub fn ends_are_told_once()
    ensures { EndsAreToldOnce }
{}
