// When a call that moves bytes is tried again, how often, and after what wait.
ghost use Rattle.std.specs.Prelude.{◌≤◌, ◌-◌};

use std::io::ErrorKind;
use std::rt::Clock;
use std::thread;
use std::time::Duration;

// A proved loop has to end, and nothing says that what is waited for ever comes. So a loop counts its tries down, from a number that no run uses up: with the
// wait before each, these last a hundred and fifty years.
pub const TRIES: u64 = 1000000000000;

// Waits five milliseconds. There is no poll to wait by until bytes can be moved, so the call is repeated, at a pace that leaves the processor to others.
fn pause(rt: &impl Clock) {
    thread::sleep(rt, Duration::from_millis(5));
}

// How many tries are left to a call that has just moved nothing, by what it failed with: none after an error, and one fewer where a signal came first or,
// after a wait, where nothing can be moved yet.
pub fn tries_left(rt: &impl Clock, failed: ErrorKind, tries: u64) -> u64
    ensures { result ≤ tries - 1 }
{
    if tries == 0 {
        return 0;
    }
    match failed {
        ErrorKind::Interrupted => tries - 1,
        ErrorKind::WouldBlock | ErrorKind::WriteZero => {
            pause(rt);
            tries - 1
        }
        _ => 0,
    }
}
