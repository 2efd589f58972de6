//! Scripts and their reports.
use super::{FIRST, ONE, SECOND, TWO};
use dashboard_cli::*;

/// Calls on queues, with the first and the last lines of the reports.
pub(super) const OF_QUEUES: [(&str, &str, &str, Status, &str, &str); 18] = [
    // A post without delay is dispatched before an earlier one that is delayed.
    (
        "run",
        ONE,
        "at 10\n0 post 0 7 5\n0 post 0 8 0\nend 20\n",
        Status::Ok,
        FIRST,
        "10 dispatch 1 0 8\n15 dispatch 0 0 7\nfates accepted 2 dispatched 2 removed 0 dropped 0 stranded 0 queued 0\nend\n",
    ),
    // Posts with time 0 are front posts.
    (
        "run",
        ONE,
        "at 0\n0 post 0 1 0\n0 post 0 2 0\nend 0\n",
        Status::Ok,
        FIRST,
        "0 dispatch 1 0 2\n0 dispatch 0 0 1\nfates accepted 2 dispatched 2 removed 0 dropped 0 stranded 0 queued 0\nend\n",
    ),
    // Nothing but the end.
    (
        "run",
        ONE,
        "end 0\n",
        Status::Ok,
        FIRST,
        "fates accepted 0 dispatched 0 removed 0 dropped 0 stranded 0 queued 0\nend\n",
    ),
    // A front post goes before what is due now.
    (
        "run",
        ONE,
        "at 10\n0 post 0 1 0\n0 front 0 2\n0 post 0 3 0\nend 10\n",
        Status::Ok,
        FIRST,
        "10 dispatch 1 0 2\n10 dispatch 0 0 1\n10 dispatch 2 0 3\nfates accepted 3 dispatched 3 removed 0 dropped 0 stranded 0 queued 0\nend\n",
    ),
    // Equal times keep the order of posting.
    (
        "run",
        ONE,
        "at 10\n0 post 0 1 5\n0 post 0 2 5\n0 post 0 3 5\nend 15\n",
        Status::Ok,
        FIRST,
        "15 dispatch 0 0 1\n15 dispatch 1 0 2\n15 dispatch 2 0 3\nfates accepted 3 dispatched 3 removed 0 dropped 0 stranded 0 queued 0\nend\n",
    ),
    // Behind a barrier only the asynchronous message goes.
    (
        "run",
        ONE,
        "at 10\n0 barrier 0 0\n0 post 0 1 0\n0 post-async 0 2 0\nat 12\n0 unbarrier 0\nend 12\n",
        Status::Ok,
        FIRST,
        "10 dispatch 1 0 2\n12 dispatch 0 0 1\nfates accepted 2 dispatched 2 removed 0 dropped 0 stranded 0 queued 0\nend\n",
    ),
    // A message before the barrier goes, one behind it stays.
    (
        "run",
        ONE,
        "at 10\n0 post 0 1 0\n0 barrier 0 0\n0 post 0 2 0\nend 10\n",
        Status::Ok,
        FIRST,
        "10 dispatch 0 0 1\nfates accepted 2 dispatched 1 removed 0 dropped 0 stranded 0 queued 1\nend\n",
    ),
    // Removing a barrier twice is refused the second time.
    (
        "run",
        ONE,
        "at 10\n0 barrier 0 0\n0 unbarrier 0\n0 unbarrier 0\nend 10\n",
        Status::Ok,
        FIRST,
        "not-posted 0\nfates accepted 0 dispatched 0 removed 0 dropped 0 stranded 0 queued 0\nend\n",
    ),
    // Removal of `what` 0 takes a posted callback too, that of the callback takes it alone, and that of all takes all.
    (
        "run",
        ONE,
        "at 10\n0 callback 0 9 0\n0 post 0 0 0\n0 post 0 1 0\n0 remove 0 0\nend 10\n",
        Status::Ok,
        FIRST,
        "10 dispatch 2 0 1\nfates accepted 3 dispatched 1 removed 2 dropped 0 stranded 0 queued 0\nend\n",
    ),
    (
        "run",
        ONE,
        "at 10\n0 callback 0 9 0\n0 post 0 0 0\n0 post 0 1 0\n0 remove-callback 0 9\nend 10\n",
        Status::Ok,
        FIRST,
        "10 dispatch 1 0 0\n10 dispatch 2 0 1\nfates accepted 3 dispatched 2 removed 1 dropped 0 stranded 0 queued 0\nend\n",
    ),
    (
        "run",
        ONE,
        "at 10\n0 callback 0 9 0\n0 post 0 0 0\n0 post 0 1 0\n0 remove-all 0\nend 10\n",
        Status::Ok,
        FIRST,
        "fates accepted 3 dispatched 0 removed 3 dropped 0 stranded 0 queued 0\nend\n",
    ),
    (
        "run",
        ONE,
        "at 10\n0 callback 0 9 0\n0 post 0 0 0\n0 post 0 1 0\nend 10\n",
        Status::Ok,
        FIRST,
        "10 dispatch 0 0 callback 9\n10 dispatch 1 0 0\n10 dispatch 2 0 1\nfates accepted 3 dispatched 3 removed 0 dropped 0 stranded 0 queued 0\nend\n",
    ),
    // A safe quit drops what is due later and keeps what is due now.
    (
        "run",
        TWO,
        "at 0\n0 post 1 1 9\n0 post 1 2 10\n0 post 1 3 11\nat 10\n0 quit-safely 1\nend 20\n",
        Status::Ok,
        SECOND,
        "9 dispatch 0 1 1\n10 dispatch 1 1 2\nfates accepted 3 dispatched 2 removed 0 dropped 1 stranded 0 queued 0\nend\n",
    ),
    // A message behind a barrier is stranded at the disposal, unless the barrier is removed before.
    (
        "run",
        TWO,
        "at 10\n0 barrier 1 0\n0 post 1 1 0\n0 quit-safely 1\nend 20\n",
        Status::Ok,
        SECOND,
        "fates accepted 1 dispatched 0 removed 0 dropped 0 stranded 1 queued 0\nend\n",
    ),
    (
        "run",
        TWO,
        "at 10\n0 barrier 1 0\n0 post 1 1 0\n0 quit-safely 1\n0 unbarrier 0\nend 20\n",
        Status::Ok,
        SECOND,
        "10 dispatch 0 1 1\nfates accepted 1 dispatched 1 removed 0 dropped 0 stranded 0 queued 0\nend\n",
    ),
    // After a quit a post is refused and names the quit's place, and a second quit does nothing.
    (
        "run",
        TWO,
        "at 10\n0 quit 1\n0 post 1 5 0\nend 10\n",
        Status::Ok,
        SECOND,
        "refused 1 5 quit 1\nfates accepted 0 dispatched 0 removed 0 dropped 0 stranded 0 queued 0\nend\n",
    ),
    (
        "run",
        TWO,
        "at 10\n0 quit 1\n0 quit 1\nend 10\n",
        Status::Ok,
        SECOND,
        "already-quit 1\nfates accepted 0 dispatched 0 removed 0 dropped 0 stranded 0 queued 0\nend\n",
    ),
    // The main looper may not quit.
    (
        "run",
        ONE,
        "at 10\n0 quit 0\n0 post 0 1 5\nend 12\n",
        Status::Ok,
        FIRST,
        "not-allowed\nfates accepted 1 dispatched 0 removed 0 dropped 0 stranded 0 queued 1\nend\n",
    ),
];

/// What loopers do: an asynchronous handler, reactions, idle handlers, descriptors and frames.
pub(super) const OF_LOOPERS: [(&str, &str, &str, Status, &str, &str); 11] = [
    // An asynchronous handler's plain post passes a barrier.
    (
        "run",
        "",
        "dashboard 1\nloopers 1\nthreads 1\nhandler 0 0 async\nvsync 16666667\nat 10\n0 barrier 0 0\n0 post 0 1 0\nend 10\n",
        Status::Ok,
        "",
        "report 1\nlooper 0\n10 dispatch 0 0 1\nfates accepted 1 dispatched 1 removed 0 dropped 0 stranded 0 queued 0\nend\n",
    ),
    // A rule posts to another looper, twice and no more.
    (
        "run",
        "",
        "dashboard 1\nloopers 2\nthreads 2\nhandler 0 0\nhandler 1 1\nvsync 16666667\non 0 1 times 2 post 1 2 3\nat 10\n0 post 0 1 0\n0 post 0 1 0\n0 post 0 1 0\nend 20\n",
        Status::Ok,
        "",
        "report 1\nlooper 0\n10 dispatch 0 0 1\n10 dispatch 1 0 1\n10 dispatch 2 0 1\nfates accepted 3 dispatched 3 removed 0 dropped 0 stranded 0 queued 0\nlooper 1\n13 dispatch 0 1 2\n13 dispatch 1 1 2\nfates accepted 2 dispatched 2 removed 0 dropped 0 stranded 0 queued 0\nend\n",
    ),
    // An idle handler runs where the head is due later, and goes when it answers false.
    (
        "run",
        "",
        "dashboard 1\nloopers 1\nthreads 1\nhandler 0 0\nvsync 16666667\nat 0\n0 idle 0 3 once\n0 post 0 1 5\nend 5\n",
        Status::Ok,
        "",
        "report 1\nlooper 0\n5 dispatch 0 0 1\nfates accepted 1 dispatched 1 removed 0 dropped 0 stranded 0 queued 0\nidle 3\nend\n",
    ),
    // A barrier at the head that is due leaves no idle time.
    (
        "run",
        "",
        "dashboard 1\nloopers 1\nthreads 1\nhandler 0 0\nvsync 16666667\nat 10\n0 idle 0 3 once\n0 barrier 0 0\nend 10\n",
        Status::Ok,
        "",
        "report 1\nlooper 0\nfates accepted 0 dispatched 0 removed 0 dropped 0 stranded 0 queued 0\nend\n",
    ),
    // A kept idle handler runs again after each dispatch.
    (
        "run",
        "",
        "dashboard 1\nloopers 1\nthreads 1\nhandler 0 0\nvsync 16666667\nat 0\n0 idle 0 3 keep\n0 idle 0 4 once\n0 post 0 1 5\nat 10\n0 post 0 2 0\nend 10\n",
        Status::Ok,
        "",
        "report 1\nlooper 0\n5 dispatch 0 0 1\n10 dispatch 1 0 2\nfates accepted 2 dispatched 2 removed 0 dropped 0 stranded 0 queued 0\nidle 3\nidle 4\nidle 3\nidle 3\nend\n",
    ),
    // An event is masked, and a listener that answers 0 ends the watch.
    (
        "run",
        "",
        "dashboard 1\nloopers 1\nthreads 1\nhandler 0 0\nvsync 16666667\nat 10\n0 watch 0 5 1 0\n0 event 0 5 3\n0 event 0 5 1\nend 10\n",
        Status::Ok,
        "",
        "report 1\nlooper 0\nfates accepted 0 dispatched 0 removed 0 dropped 0 stranded 0 queued 0\nevent 5 1\nend\n",
    ),
    // A delayed frame callback asks for its frame when it comes due.
    (
        "run",
        "",
        "dashboard 1\nloopers 1\nthreads 1\nhandler 0 0\nvsync 16666667\nat 10\n0 frame 0 3 8 20\nend 60\n",
        Status::Ok,
        "",
        "report 1\nlooper 0\n30 dispatch 0 64 2\n34 dispatch 1 64 0\nfates accepted 2 dispatched 2 removed 0 dropped 0 stranded 0 queued 0\nframe 33333334\nrun 3 8\nend\n",
    ),
    // A gauge is animated by frames and painted behind its barriers.
    (
        "run",
        "",
        "dashboard 1\nloopers 1\nthreads 1\nhandler 0 0\ngauge 0 0 3\nvsync 16666667\nat 0\n0 set 0 7\nend 70\n",
        Status::Ok,
        "",
        "report 1\nlooper 0\n0 dispatch 0 0 1\n17 dispatch 1 64 0\n34 dispatch 2 64 0\n51 dispatch 3 64 0\n67 dispatch 4 64 0\nfates accepted 5 dispatched 5 removed 0 dropped 0 stranded 0 queued 0\npaint 0 3\npaint 0 6\npaint 0 7\nframe 16666667\nrun 1 1000000\nrun 2 1000016\nframe 33333334\nrun 1 1000000\nrun 2 1000016\nframe 50000001\nrun 1 1000000\nrun 2 1000016\nframe 66666668\nend\n",
    ),
    // Five phases of edition 2 run in their order.
    (
        "run",
        "",
        "dashboard 2\nloopers 1\nthreads 1\nhandler 0 0\nvsync 16666667\nat 10\n0 frame 0 3 5 0\n0 frame 0 2 6 0\n0 frame 0 4 7 0\nend 20\n",
        Status::Ok,
        "",
        "report 2\nlooper 0\n17 dispatch 0 64 0\nfates accepted 1 dispatched 1 removed 0 dropped 0 stranded 0 queued 0\nframe 16666667\nrun 2 6\nrun 3 5\nrun 4 7\nend\n",
    ),
    // The traversal has another phase in edition 2.
    (
        "run",
        "",
        "dashboard 2\nloopers 1\nthreads 1\nhandler 0 0\ngauge 0 0 3\nvsync 16666667\nat 0\n0 set 0 7\nend 70\n",
        Status::Ok,
        "",
        "report 2\nlooper 0\n0 dispatch 0 0 1\n17 dispatch 1 64 0\n34 dispatch 2 64 0\n51 dispatch 3 64 0\n67 dispatch 4 64 0\nfates accepted 5 dispatched 5 removed 0 dropped 0 stranded 0 queued 0\npaint 0 3\npaint 0 6\npaint 0 7\nframe 16666667\nrun 1 1000000\nrun 3 1000016\nframe 33333334\nrun 1 1000000\nrun 3 1000016\nframe 50000001\nrun 1 1000000\nrun 3 1000016\nframe 66666668\nend\n",
    ),
    // A removed frame callback leaves its frame, which is empty.
    (
        "run",
        "",
        "dashboard 1\nloopers 1\nthreads 1\nhandler 0 0\nvsync 16666667\nat 10\n0 frame 0 0 8 0\n0 unframe 0 0 8\nend 20\n",
        Status::Ok,
        "",
        "report 1\nlooper 0\n17 dispatch 0 64 0\nfates accepted 1 dispatched 1 removed 0 dropped 0 stranded 0 queued 0\nframe 16666667\nend\n",
    ),
];
