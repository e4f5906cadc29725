//! Work that is done while a thread renews the lead.

ghost use denote.Param.Send.{IsSend, IsSync};

use crate::Candidate;
use crate::lead::{Lead, Renewal};
use crossbeam_channel::{Receiver, RecvTimeoutError};
use gu_etcd::Exchange;
use gu_lease::{BothClocks, Gate};
use std::alloc::Global;
use std::rt::Clock;
use std::sync::Wait;
use std::thread;
use std::thread::{Scope, Threads};
use std::time::Duration;

/// How many milliseconds come between two renewals.
const RENEWAL_MS: u64 = 500;

/// The lead of a desk, with what renews it, and the gate at which its lease is published.
#[derive(Drop)]
pub struct HeldLead<'a, X: Exchange, C> {
    pub candidate: Candidate<X>,
    pub lead: Lead,
    pub gate: &'a Gate<C>,
}

/// What is said to the thread that renews a lead.
#[derive(Drop)]
enum Word {}

impl<X: Exchange, C: BothClocks> HeldLead<'_, X, C> {
    /// Renews the lead once, publishes its lease at the gate, and returns whether it goes on. If no answer comes, its lease is as long as it
    /// was.
    fn renew<R: Wait>(&mut self, rt: &R, alloc: Global) -> bool {
        let Some(now) = self.gate.now() else {
            return false;
        };
        match self.lead.renew(alloc, &mut self.candidate, now) {
            Ok(Renewal::GoesOn) => self.gate.renew(rt, self.lead.lease),
            Ok(Renewal::Ended) => false,
            Err(_) => self.gate.leads(rt),
        }
    }

    /// Renews the lead until it ends, or until nobody can say anything more to the thread: then the lead is given back. At the end nothing
    /// leaves the desk any more.
    fn renew_until<R: Wait + Clock>(mut self, rt: &R, alloc: Global, words: &Receiver<Word>) {
        for _renewal in rt.forever() {
            match words.recv_timeout(rt, Duration::from_millis(RENEWAL_MS)) {
                Err(RecvTimeoutError::Timeout) => {}
                _ => {
                    self.gate.end(rt);
                    // If this gets no answer, the lease ends by itself.
                    let number = self.lead.number;
                    let _ = self.candidate.revoke(alloc, number);
                    break;
                }
            }
            if !self.renew(rt, alloc) {
                break;
            }
        }
        self.gate.end(rt);
    }
}

/// Works, and renews the lead by a thread of its own meanwhile.
fn work_beside<
    's,
    S,
    R: Threads + Wait + Clock + Sync,
    X: Exchange + Send + 's,
    C: BothClocks + Send + Sync + 's,
    D,
    F: FnOnce() -> D,
>(scope: &Scope<'s, S>, rt: &'s R, alloc: Global, held: HeldLead<'s, X, C>, work: F) -> D
    requires { F.IsAlwaysCallable work }
    ensures { F.post work result }
{
    let Ok((to, from)) = crossbeam_channel::bounded::<Word, _>(alloc, 1) else {
        drop(held);
        return work();
    };
    let thread = scope.spawn(move || held.renew_until(rt, alloc, &from));
    let done = work();
    drop(to);
    if let Ok(thread) = thread {
        thread.join(rt);
    }
    done
}

/// Returns what this work returns. A thread renews the lead meanwhile, publishes each renewed lease at the gate, and ends with the work; if
/// none can be started, the lead ends with its lease.
pub fn lead_while<
    'a,
    R: Threads + Wait + Clock + Sync,
    X: Exchange + Send,
    C: BothClocks + Send + Sync,
    D,
    F: FnOnce() -> D,
>(rt: &'a R, alloc: Global, held: HeldLead<'a, X, C>, work: F) -> D
    requires { F.IsAlwaysCallable work }
    ensures { F.post work result }
{
    thread::scope(
        thread::scope_env(),
        rt,
        |scope| -> D
            requires { IsSync R.row × IsSend X.row × IsSend C.row × IsSync C.row × F.IsAlwaysCallable work }
            ensures { F.post work result }
        { work_beside(scope, rt, alloc, held, work) },
    )
}
