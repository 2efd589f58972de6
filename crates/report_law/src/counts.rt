//! How many posts the queues of a report accepted.
ghost use Rattle.std.specs.Prelude.{◌≡◌, length, sum_by};
ghost use Rattle.std.specs.List.{list_all};
ghost use Rattle.loop_model.specs.Chain.{entries_of};
ghost use Rattle.loop_model.specs.Entries.{posts_in};
ghost use Rattle.loop_model.specs.Fates.{fates};
ghost use Rattle.report_law.specs.Laws.{is_countable};

use loop_model::{Entry, QueueRecord, Segment};

/// How many posts these entries add.
fn count_posts(entries: &[Entry]) -> u64
    ensures { result ≡ sum_by (λ e. posts_in e.call e.reply) entries.now }
{
    let mut count = 0;
    for entry in entries {
        count += entry.posts();
    }
    count
}

/// How many accepted posts a history in these parts has.
fn count_parts(segments: &[Segment]) -> u128
    ensures { result ≡ length (fates (entries_of segments.now)) }
{
    let mut count = 0;
    for segment in segments {
        count += u128::from(count_posts(segment.entries.as_slice()));
    }
    count
}

/// Whether 64 bits can count the posts that the queue accepted.
fn is_countable(queue: &QueueRecord) -> bool
    ensures { result ≡ is_countable queue.now }
{
    count_parts(queue.segments.as_slice()) < 1 << 64
}

/// Whether 64 bits can count the posts that each queue accepted.
pub(crate) fn are_countable(queues: &[QueueRecord]) -> bool
    ensures { result ≡ list_all is_countable queues.now }
{
    queues.iter().all(|queue| is_countable(queue))
}
