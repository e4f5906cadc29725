//! Walking over entries for a firm's notices.

ghost use Rattle.std.specs.Prelude.{◌≡◌, ◌-◌, ◌<◌, ◌≤◌, [], drop, max, IfOk, length};
ghost use Rattle.gu_rules.specs.Notices.{IsStretchOf, told_from, told_to};
ghost use Rattle.gu_notices.specs.Recipients.{AreRecipients};
ghost use Rattle.gu_notices.specs.Registers.{register_in};
ghost use Rattle.gu_notices.specs.Telling.{IsWalked};

use crate::firm_filter::FirmPlace;
use crate::log::Log;
use crate::mailbox::Mailbox;
use crate::register::Register;
use crate::span::Span;
use gu_terms::{FirmId, Notice, Notices, Stretch};
use std::alloc::{AllocError, Global};

impl Mailbox {
    /// Adds the notices of a span's entries, as far as it goes, and returns the index after the last one covered. It reads only entries
    /// that may notify the firm.
    fn tell_entries(
        &mut self,
        register: &Register<'_>,
        log: &Log<'_>,
        span: Span,
    ) -> Result<usize, AllocError>
        requires recipients { AreRecipients (register_in register.now) log.now.history.now log.now.recipients.now }
        requires empty { self.old.list.items ≡ [] }
        requires inside { span.end ≤ max span.start (length log.now.history.now) }
        requires few { length log.now.history.now ≤ 1000000 }
        ensures walked { IfOk result (IsWalked (register_in register.now) log.now.history.now self.old.firm span self.new.list.items) }
    {
        // Shows the prover: no match id has more than two reports.
        register.trades.rules();
        let own = FirmPlace::of(&self.firm);
        for place in span.start..span.end {
            if self.list.len() > span.most {
                return Ok(place);
            }
            if log.may_tell(place, own) {
                let entry = log.history.show(place);
                self.tell_entry(register, place as u64 + 1, &entry)?;
            }
        }
        Ok(span.end)
    }
}

/// Returns a firm's notices of a span's entries, as far as it goes, and the index after the last one covered.
fn walk(
    alloc: Global,
    register: &Register<'_>,
    log: &Log<'_>,
    firm: &FirmId,
    span: Span,
) -> Result<(Vec<Notice>, usize), AllocError>
    requires recipients { AreRecipients (register_in register.now) log.now.history.now log.now.recipients.now }
    requires inside { span.end ≤ max span.start (length log.now.history.now) }
    requires few { length log.now.history.now ≤ 1000000 }
    ensures { IfOk result (λ r. IsWalked (register_in register.now) log.now.history.now firm.now span r.0.items r.1) }
{
    let mut mailbox = Mailbox {
        firm: *firm,
        list: Vec::new(alloc),
    };
    let place = mailbox.tell_entries(register, log, span)?;
    let Mailbox { firm: _, list } = mailbox;
    Ok((list, place))
}

/// Returns a firm's notices of the entries from a number on.
pub fn notices_of(
    alloc: Global,
    register: &Register<'_>,
    log: &Log<'_>,
    firm: &FirmId,
    from: u64,
) -> Result<Vec<Notice>, AllocError>
    requires recipients { AreRecipients (register_in register.now) log.now.history.now log.now.recipients.now }
    requires few { length log.now.history.now ≤ 1000000 }
    ensures { IfOk result (λ list. list.items
        ≡ told_to firm.now (told_from (register_in register.now) (max 1 from) (drop (from - 1) log.now.history.now))) }
{
    let span = Span::rest(log.history.len(), from);
    let (list, _) = walk(alloc, register, log, firm, span)?;
    Ok(list)
}

/// Returns a batch of a firm's notices, starting at the entry with a number.
pub fn stretch_of(
    alloc: Global,
    register: &Register<'_>,
    log: &Log<'_>,
    firm: &FirmId,
    from: u64,
) -> Result<Stretch, AllocError>
    requires recipients { AreRecipients (register_in register.now) log.now.history.now log.now.recipients.now }
    requires few { length log.now.history.now ≤ 1000000 }
    ensures { IfOk result (IsStretchOf (register_in register.now) log.now.history.now firm.now from) }
{
    let span = Span::stretch(log.history.len(), from);
    let (list, place) = walk(alloc, register, log, firm, span)?;
    let next = place as u64 + 1;
    Ok(Stretch {
        notices: Notices { next, list },
        is_last: log.history.len() <= place,
    })
}
