//! Comparison of an entry with a stored one, without copying either.

ghost use Rattle.std.specs.Prelude.{◌≡◌, ◌↔◌, IsTrue, List, ℕ};
ghost use Rattle.gu_terms.specs.Histories.{swept_by};
ghost use Rattle.gu_terms.specs.PackedEntries.{entry_of, entry_with, firm_by, AreSound, IsWithin};

use crate::command::{Claim, Command, OpenDay, Refuse, Reverse};
use crate::entry::{Entry, SweepEntry};
use crate::kept_texts::Texts;
use crate::lines::Line;
use crate::packed::{Body, Packed, firm, limit, line};
use crate::reply::Reply;

/// Returns whether a command is the give-up with these texts and lines.
fn is_give_up(command: &Command, texts: &Texts<'_>, lines: &[Line]) -> bool
    ensures { IsTrue result ↔ (Command.GiveUp (record { firm = firm_by texts.now; id = texts.now.own_id; report = texts.now.other_id; lines = lines.now }) ≡ command.now) }
{
    match command {
        Command::GiveUp(it) => {
            texts.firm == it.firm.get()
                && it.id.is_text(texts.own_id)
                && it.report.is_text(texts.other_id)
                && it.lines.are(lines)
        }
        _ => false,
    }
}

impl Packed {
    /// Returns whether the stored entry, with these texts, is this command with this reply.
    fn is_asked(&self, texts: &Texts<'_>, command: &Command, reply: &Reply) -> bool
        requires { AreSound texts.now self.now }
        ensures { IsTrue result ↔ (entry_with texts.now self.now ≡ Entry.Asked command.now reply.now) }
    {
        let is_reply = self.reply.reply(texts.reply).is_same(*reply);
        match &self.body {
            Body::OpenDay { day } => Command::OpenDay(OpenDay { day: *day }).is_same(command)
                && is_reply,
            Body::SetLimit { kind, lots } => limit(texts, *kind, *lots).is_same(command)
                && is_reply,
            Body::ReportSide { report, price } => report.command(texts, *price).is_same(command)
                && is_reply,
            Body::GiveUpOne { lots } => is_give_up(command, texts, &[line(texts, *lots)])
                && is_reply,
            Body::GiveUp(lines) => is_give_up(command, texts, lines.as_slice()) && is_reply,
            Body::Claim { offer } => {
                let own = Command::Claim(Claim {
                    firm: firm(texts),
                    offer: *offer,
                });
                own.is_same(command) && is_reply
            }
            Body::Refuse { why, offer } => {
                let own = Command::Refuse(Refuse {
                    firm: firm(texts),
                    offer: *offer,
                    why: *why,
                });
                own.is_same(command) && is_reply
            }
            Body::Reverse { offer } => {
                let own = Command::Reverse(Reverse {
                    firm: firm(texts),
                    offer: *offer,
                });
                own.is_same(command) && is_reply
            }
            Body::Swept(_) => false,
        }
    }

    /// Returns whether the stored entry is this sweep.
    fn is_sweep(&self, sweep: &SweepEntry) -> bool
        ensures { (all : List ℕ) → IsTrue result ↔ (entry_of all self.now ≡ Entry.Swept sweep.now) }
    {
        match &self.body {
            Body::Swept(own) => own.is_same(sweep),
            _ => false,
        }
    }

    /// Returns whether this is the stored form of an entry, with its texts in `all`.
    pub(crate) fn is_entry(&self, all: &[u8], entry: &Entry) -> bool
        requires { IsWithin all.now self.now }
        ensures { IsTrue result ↔ (entry_of all.now self.now ≡ entry.now) }
    {
        match entry {
            Entry::Asked { command, reply } => self.is_asked(&self.span.texts(all), command, reply),
            Entry::Swept(sweep) => self.is_sweep(sweep),
        }
    }

    /// Returns the lots swept by the stored entry.
    pub(crate) fn lots_swept(&self) -> u64
        ensures { (all : List ℕ) → result ≡ swept_by (entry_of all self.now) }
    {
        match &self.body {
            Body::Swept(sweep) => sweep.lots(),
            _ => 0,
        }
    }
}
