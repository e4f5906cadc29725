//! Which firm a first message lets in.

ghost use Rattle.std.specs.Prelude.{◌≡◌, None, Some, IfOk, MatchOption};
ghost use Rattle.std.specs.Option.{option_map};
ghost use Rattle.gu_msgs.specs.Values.{first_value};
ghost use Rattle.gu_knocks.specs.Hearing.{AnswersFirst};
ghost use Rattle.gu_knocks.specs.Knocks.{IsLetIn, caller_in};
ghost use Rattle.gu_knocks.specs.declared.guard.TheConstants.{PASSWORD};

use crate::heard::Glance;
use crate::suspicion::suspect;
use gu_fix::{Fields, Frame, into_fields};
use gu_log::LogonFault;
use gu_msgs::header_in;
use gu_secrets::{Secrets, firm_named};
use gu_terms::FirmId;
use std::alloc::{AllocError, Global};

/// The tag of Password.
const PASSWORD: u32 = 554;

/// The firms that may be let in at a connection's way in, and their secrets, if they need one.
#[derive(Clone, Copy)]
pub struct Guard<'a> {
    /// The secrets, if there are any. Without them nobody is turned away.
    pub secrets: Option<&'a Secrets>,
    pub firms: &'a [FirmId],
}

/// What a first message leads to.
pub(crate) enum Judged {
    /// The connection is let in: with secrets as the firm that is shown, without them as any firm that may log on.
    LetsIn(Glance),
    /// The connection is turned away.
    Refuses(Glance),
}

/// Returns the first Password (554).
fn password(fields: &Fields) -> Option<&[u8]>
    ensures { MatchOption result (first_value PASSWORD fields.now ≡ None) (λ value. first_value PASSWORD fields.now ≡ Some value.now) }
{
    for field in fields {
        if field.tag == PASSWORD {
            return Some(field.value);
        }
    }
    None
}

/// Returns the sender of a message, if it is one of these firms.
fn caller(firms: &[FirmId], fields: &Fields) -> Option<FirmId>
    ensures { result ≡ caller_in firms.now fields.now }
{
    firm_named(firms, header_in(fields).sender_comp_id?)
}

/// Returns the sender of a message, if it is one of these firms and the message has its secret.
fn firm_in(secrets: &Secrets, firms: &[FirmId], fields: &Fields) -> Option<FirmId>
    ensures { IsLetIn secrets.now firms.now fields.now result }
{
    caller(firms, fields).filter(|firm| secrets.admits(*firm, password(fields)))
}

/// Returns the fault of a message that lets nobody in by secrets: it names none of these firms, or lacks the secret of the firm that it
/// names.
fn refused(named: Option<FirmId>) -> Glance {
    Glance {
        firm: named,
        fault: match named {
            Some(_) => LogonFault::Secret,
            None => LogonFault::Sender,
        },
    }
}

impl Guard<'_> {
    /// Returns what this first message leads to.
    pub(crate) fn judge(&self, alloc: Global, frame: Frame) -> Result<Judged, AllocError>
        ensures { IfOk result (AnswersFirst (option_map (λ secrets. secrets.now) self.now.secrets) self.now.firms.now frame) }
    {
        let (fields, malformed) = into_fields(alloc, frame)?;
        let named = caller(self.firms, &fields);
        let Some(secrets) = self.secrets else {
            let fault = suspect(alloc, named, &fields, malformed)?;
            return Ok(Judged::LetsIn(Glance { firm: None, fault }));
        };
        let firm = firm_in(secrets, self.firms, &fields);
        if firm.is_none() {
            return Ok(Judged::Refuses(refused(named)));
        }
        let fault = suspect(alloc, named, &fields, malformed)?;
        Ok(Judged::LetsIn(Glance { firm, fault }))
    }
}
