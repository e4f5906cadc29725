//! The clock of a machine.

use gu_engine::{Clock, ClockFault, SystemClock};
use gu_terms::Moment;
use std::io::{self, ErrorKind};
use std::rt;
use std::time::Duration;

/// A machine whose clock has gone on for so long since 1970, or fails.
#[derive(Drop)]
struct Machine {
    since: Option<Duration>,
}

impl rt::Clock for Machine {
    fn monotonic(&self) -> io::Result<Duration> {
        Err(io::Error::from(ErrorKind::Unsupported))
    }

    fn since_1970(&self) -> io::Result<Duration> {
        match self.since {
            Some(since) => Ok(since),
            None => Err(io::Error::from(ErrorKind::Unsupported)),
        }
    }
}

/// Returns what a machine's clock gives, in milliseconds.
fn told(since: Option<Duration>) -> Result<u64, ClockFault> {
    let machine = Machine { since };
    let now = SystemClock::new(&machine).now();
    now.map(|now| now.get())
}

#[test]
fn a_moment_has_its_milliseconds(rt: HostRuntime) {
    let since = Duration::new(1_767_603_600, 123_999_999);
    assert_eq!(rt; told(Some(since)), Ok(1_767_603_600_123));
    assert_eq!(rt; told(Some(Duration::new(0, 0))), Ok(0));
}

#[test]
fn a_time_after_9999_is_no_moment_and_a_clock_may_fail(rt: HostRuntime) {
    assert_eq!(&rt;
        told(Some(Duration::new(253_402_300_799, 999_000_000))),
        Ok(253_402_300_799_999)
    );
    assert_eq!(&rt;
        told(Some(Duration::new(253_402_300_800, 0))),
        Err(ClockFault)
    );
    assert_eq!(rt; told(None), Err(ClockFault));
    assert!(rt; Moment::new(253_402_300_800_000).is_none());
}
