use crate::shared::Guarded;
use input_log::LogSink;

// Wakes the worker whose call is the next to go outside in the order of the turns, if there is one.
pub fn wake_next_outside<S: LogSink, D: Drop>(held: &mut Guarded<S, D>) {
    for i in 0..held.machine.len() {
        if i < held.machine.len() && held.machine.may_go(i) {
            held.wakes.add(i);
        }
    }
}
