//! A desk that follows the log of another one until it leads.

use crate::error::{JournalFault, RunError};
use crate::fault::{Fault, Place};
use crate::journal_file::fault_at;
use crate::journal_log::{
    Led, LogPlace, PATIENCE_MS, TcpExchange, candidate_for, gateway_to, passed_ms,
};
use gu_etcd::{Name, NodeError};
use gu_lead::{Candidate, Claim, Lead, Taking, draw_name, take_lead};
use gu_lease::Clocks;
use gu_standby::{Attendance, Challenge, FollowError, Followed, Follower, Succession, follow};
use gu_streams::StreamError;
use std::alloc::Global;
use std::net::Net;
use std::random::RandomSource;
use std::rt::Clock;
use std::sync::Wait;

/// A desk that asks for the lead over the log that a standby follows, and its name.
#[derive(Drop)]
struct Runner<'a, R: Net + Clock> {
    candidate: Candidate<TcpExchange<'a, R>>,
    desk: Name,
}

/// The lead that a standby has taken, and how.
#[derive(Drop)]
struct Won<'a, R: Net + Clock> {
    runner: Runner<'a, R>,
    lead: Lead,
    /// Whether another desk had it until then.
    is_claimed: bool,
}

/// A claim to the lead of another desk. Once made, its runner is gone.
#[derive(Drop)]
struct Claiming<'a, R: Net + Clock> {
    runner: Option<Runner<'a, R>>,
    claim: Claim,
}

/// A desk that tries to take the lead over the log that it follows.
#[derive(Drop)]
struct Heir<'a, R: Net + Clock> {
    rt: &'a R,
    log: LogPlace<'a>,
    clocks: Clocks<'a, R>,
    /// When an etcd last answered, in milliseconds since it began.
    heard_ms: u64,
}

impl<'a, R: Net + Clock + RandomSource + Alloc<A = Global>> Succession for Heir<'a, R> {
    type Lead = Won<'a, R>;

    type Claim = Claiming<'a, R>;

    fn try_lead(
        &mut self,
        alloc: Global,
    ) -> Result<Challenge<Won<'a, R>, Claiming<'a, R>>, NodeError> {
        let (mut candidate, desk) = match candidate_for(self.rt, self.log.address) {
            Ok(made) => made,
            Err(fault) => {
                drop(fault);
                return Err(NodeError::Memory);
            }
        };
        let taking = take_lead(alloc, &mut candidate, &self.clocks)?;
        let runner = Runner { candidate, desk };
        Ok(match taking {
            Taking::Leads(lead) => Challenge::Leads(Won {
                runner,
                lead,
                is_claimed: false,
            }),
            Taking::IsLed(claim) => Challenge::IsLed(Claiming {
                runner: Some(runner),
                claim,
            }),
        })
    }

    fn claim(
        &mut self,
        alloc: Global,
        claiming: &mut Claiming<'a, R>,
        number: u64,
    ) -> Result<Option<Won<'a, R>>, NodeError> {
        let Some(mut runner) = claiming.runner.take() else {
            return Ok(None);
        };
        match claiming.claim.make(alloc, &mut runner.candidate, number)? {
            Some(lead) => Ok(Some(Won {
                runner,
                lead,
                is_claimed: true,
            })),
            None => {
                claiming.runner = Some(runner);
                Ok(None)
            }
        }
    }

    /// It gives up once no etcd has answered for 30 s.
    fn goes_on(&mut self, is_answered: bool) -> bool {
        let now_ms = passed_ms(&self.clocks);
        if is_answered {
            self.heard_ms = now_ms;
        }
        now_ms.saturating_sub(self.heard_ms) < PATIENCE_MS
    }
}

/// Returns the fault of a log that can't be followed any more.
pub fn follow_fault(path: &str, error: FollowError) -> Fault<'_> {
    match error {
        FollowError::Memory => Fault::from(StreamError::Memory),
        FollowError::Unanswered => fault_at(path, JournalFault::Unreachable),
        FollowError::Foreign => fault_at(path, JournalFault::Damaged),
        FollowError::BadLine(line) => {
            Fault::at(
                Place::File(path),
                RunError::Journal(JournalFault::BadLine(line)),
            )
        }
    }
}

/// Follows a log until this desk leads it and has played all of it, while operators are attended to. Returns nothing if the log is that of an
/// ended day, or if an operator ends the desk.
pub fn stand_by<'a, R: Net + Clock + RandomSource + Wait + Alloc<A = Global>, A: Attendance>(
    rt: &'a R,
    log: LogPlace<'a>,
    follower: &mut Follower,
    attendance: &mut A,
) -> Result<Option<Led<'a, R>>, Fault<'a>> {
    let alloc = rt.alloc();
    let Some(clocks) = Clocks::new(rt) else {
        return Err(Fault::from(StreamError::Read));
    };
    let Some(reader) = draw_name(rt, alloc).map_err(StreamError::from)? else {
        return Err(Fault::from(StreamError::Read));
    };
    let mut gateway = gateway_to(rt, log, &reader)?;
    drop(reader);
    let mut heir = Heir {
        rt,
        log,
        clocks,
        heard_ms: 0,
    };
    match follow(rt, alloc, follower, &mut gateway, &mut heir, attendance) {
        Ok(Followed::Leads(won)) => {
            let Won {
                runner,
                lead,
                is_claimed,
            } = won;
            let Runner { candidate, desk } = runner;
            let Heir { clocks, .. } = heir;
            Ok(Some(Led {
                candidate,
                lead,
                clocks,
                desk,
                is_claimed,
            }))
        }
        Ok(Followed::Closed | Followed::Dismissed) => Ok(None),
        Err(error) => Err(follow_fault(log.journal.path, error)),
    }
}
