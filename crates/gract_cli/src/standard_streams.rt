use std::fs::File;
use std::os::fd::{AsRawFd, IntoRawFd};
use std::rt::Files;

/// The device that holds nothing.
const NULL_DEVICE: &str = "/dev/null";

/// What stands in where there is no null device. Reading from it fails.
const ROOT_FOLDER: &str = "/";

/// How many standard streams there are. Their descriptors are the numbers below.
const STREAMS: i32 = 3;

/// Gives each standard stream that is closed the null device, so that no file that is opened later becomes one.
///
/// The device is opened for reading alone: standard input is then at its end, and writing to standard output or to
/// standard error fails, as it does where they are closed. A stream that is open stays as it is.
pub fn take_standard_streams<R: Files<File = File>>(rt: &R) {
    for _ in 0..STREAMS {
        // A system gives each file the least descriptor that is free.
        let Ok(file) = File::open(rt, NULL_DEVICE).or_else(|_| File::open(rt, ROOT_FOLDER)) else {
            return;
        };
        if file.as_raw_fd() >= STREAMS {
            return;
        }
        // The descriptor stays open until the program ends.
        let _ = file.into_raw_fd();
    }
}
