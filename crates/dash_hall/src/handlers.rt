//! The handlers of a script, and the messages that they send.
ghost use Rattle.std.specs.Prelude.{◌≡◌, ◌<◌, ◌+◌, true};
ghost use Rattle.run_model.specs.Planned.{looper_of as the_looper_of, gauge_handler as the_gauge_handler, handler_line, sent_by};

use dash_script::Script;
use handler_post::Handler;
use loop_model::Post;

/// The number of a declared handler's looper, by the handler's number. 0 where none is declared.
pub fn looper_of(script: &Script, handler: u32) -> u32
    ensures { result ≡ the_looper_of script.now handler }
{
    match script.handlers.as_slice().get(handler as usize) {
        Some(line) => line.looper,
        None => 0,
    }
}

/// The number of a declared gauge's handler, by the gauge's number. 0 where none is declared.
pub fn gauge_handler(script: &Script, gauge: u32) -> u32
    ensures { result ≡ the_gauge_handler script.now gauge }
{
    match script.gauges.as_slice().get(gauge as usize) {
        Some(line) => line.handler,
        None => 0,
    }
}

/// The declared handler of this number. One that is not asynchronous where none is declared.
pub fn handler_of(script: &Script, handler: u32) -> Handler
    ensures { result ≡ record { id = handler; asynchronous = (handler_line script.now handler).asynchronous } }
{
    let asynchronous = match script.handlers.as_slice().get(handler as usize) {
        Some(line) => line.asynchronous,
        None => false,
    };
    Handler {
        id: handler,
        asynchronous,
    }
}

/// A message of a declared handler, without an argument or an object, which is due at `when`, in milliseconds.
pub fn message_of(script: &Script, handler: u32, what: u32, when: u64) -> Post
    ensures { result ≡ sent_by script.now handler what when }
{
    Post {
        when,
        ..handler_of(script, handler).obtain(what, 0)
    }
}

/// The handler by which a looper's choreographer sends, which is asynchronous: its number is 64 and the looper's. The looper's is
/// below 100.
pub fn frame_handler(looper: u32) -> Handler
    requires { looper < 100 }
    ensures { result ≡ record { id = 64 + looper; asynchronous = true } }
{
    Handler {
        id: 64 + looper,
        asynchronous: true,
    }
}
