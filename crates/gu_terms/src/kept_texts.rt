//! The texts of an entry, its ids and names, as stored among those of all entries.

ghost use Rattle.std.specs.Prelude.{◌≡◌, ◌+◌, ◌++◌, ◌≤◌, length, vec_capacity, OnOk, OnErr};
ghost use Rattle.gu_terms.specs.Names.{IsId, IsName};
ghost use Rattle.gu_terms.specs.PackedEntries.{joined, size_of, span_of, text_at, texts_at, AreShort};

use crate::command::ReportSide;
use crate::firm::FirmId;
use crate::id::{Id, LONGEST_ID};
use crate::name::LONGEST_NAME;
use crate::padded::Padded;
use crate::text_store::TextStore;
use std::alloc::AllocError;
use std::marker::Model;

/// The most bytes in an entry's texts.
const LONGEST_TEXTS: usize = 2 * LONGEST_ID + 4 * LONGEST_NAME;

/// The place of an entry's texts: their first byte among all texts, and the length of each, in order.
#[derive(Clone, Copy)]
pub(crate) struct Span {
    at: u32,
    own_id: u8,
    other_id: u8,
    symbol_or_group: u8,
    account_or_key: u8,
    firm: u8,
    reply: u8,
}

/// The texts of an entry: those of its command, and the name in its reply. A text that it lacks is empty. To a contract it is the texts.
#[derive(Drop)]
pub(crate) struct Texts<'a> {
    /// The firm's own id for a report or a give-up.
    pub(crate) own_id: &'a [u8],
    /// A report's match id, or the id of the report that a give-up names.
    pub(crate) other_id: &'a [u8],
    /// A report's symbol, or a limit's group.
    pub(crate) symbol_or_group: &'a [u8],
    /// The account of a report or of a give-up's only line, or the name of a limit's key.
    pub(crate) account_or_key: &'a [u8],
    pub(crate) firm: &'a [u8],
    /// The name in the reply.
    pub(crate) reply: &'a [u8],
}

/// The same texts as held by a command and its reply, from which they are appended at fixed lengths. A text that it lacks is empty. To a
/// contract it is the texts.
#[derive(Drop)]
pub(crate) struct Given<'a> {
    pub(crate) own_id: &'a Padded<LONGEST_ID>,
    pub(crate) other_id: &'a Padded<LONGEST_ID>,
    pub(crate) symbol_or_group: &'a Padded<LONGEST_NAME>,
    pub(crate) account_or_key: &'a Padded<LONGEST_NAME>,
    pub(crate) firm: &'a Padded<LONGEST_NAME>,
    pub(crate) reply: &'a Padded<LONGEST_NAME>,
}

impl<'a> Model for Given<'a> {
    ghost use Rattle.gu_terms.specs.PackedEntries.{Texts as TextsOf};

    ghost Value = { TextsOf };

    ghost view = { λ t. record {
      own_id = t.own_id.now;
      other_id = t.other_id.now;
      symbol_or_group = t.symbol_or_group.now;
      account_or_key = t.account_or_key.now;
      firm = t.firm.now;
      reply = t.reply.now;
    } };
}

impl<'a> Model for Texts<'a> {
    ghost use Rattle.gu_terms.specs.PackedEntries.{AreShort, Texts as TextsOf};

    ghost Value = { TextsOf };

    ghost view = { λ t. record {
      own_id = t.own_id.now;
      other_id = t.other_id.now;
      symbol_or_group = t.symbol_or_group.now;
      account_or_key = t.account_or_key.now;
      firm = t.firm.now;
      reply = t.reply.now;
    } };

    ghost invariant = { λ t. AreShort (record {
      own_id = t.own_id.now;
      other_id = t.other_id.now;
      symbol_or_group = t.symbol_or_group.now;
      account_or_key = t.account_or_key.now;
      firm = t.firm.now;
      reply = t.reply.now;
    }) };
}

impl Span {
    /// Returns the position after the texts.
    pub(crate) fn end(self) -> usize
        ensures { result ≡ self.at + size_of self }
    {
        self.at as usize
            + usize::from(self.own_id)
            + usize::from(self.other_id)
            + usize::from(self.symbol_or_group)
            + usize::from(self.account_or_key)
            + usize::from(self.firm)
            + usize::from(self.reply)
    }

    /// Returns the texts at this place.
    pub(crate) fn texts(self, all: &[u8]) -> Texts<'_>
        requires { self.at + size_of self ≤ length all.now }
        ensures { result ≡ texts_at all.now self }
    {
        let other_id = self.at as usize + usize::from(self.own_id);
        let symbol_or_group = other_id + usize::from(self.other_id);
        let account_or_key = symbol_or_group + usize::from(self.symbol_or_group);
        let firm = account_or_key + usize::from(self.account_or_key);
        let reply = firm + usize::from(self.firm);
        Texts {
            own_id: text_at(all, self.at as usize, self.own_id),
            other_id: text_at(all, other_id, self.other_id),
            symbol_or_group: text_at(all, symbol_or_group, self.symbol_or_group),
            account_or_key: text_at(all, account_or_key, self.account_or_key),
            firm: text_at(all, firm, self.firm),
            reply: text_at(all, reply, self.reply),
        }
    }
}

/// Appends a text, for which there is room, unless it is empty.
#[inline(always)]
fn put<const N: usize>(all: &mut TextStore, text: &Padded<N>)
    requires { N ≤ all.old.spare }
    ensures bytes { all.new.bytes ≡ all.old.bytes ++ text.now }
    ensures spare { all.old.spare ≤ all.new.spare + N }
{
    if text.len() > 0 {
        all.put(text);
    }
}

/// Returns `len` bytes of all texts, starting at `at`.
fn text_at(all: &[u8], at: usize, len: u8) -> &[u8]
    requires { at + len ≤ length all.now }
    ensures { result.now ≡ text_at all.now at len }
{
    &all[at..at + usize::from(len)]
}

impl<'a> Given<'a> {
    /// Returns texts with this id in both places for ids, and this name in every place for names.
    pub(crate) fn of(id: &'a Padded<LONGEST_ID>, name: &'a Padded<LONGEST_NAME>) -> Self
        ensures { result ≡ record { own_id = id.now; other_id = id.now; symbol_or_group = name.now; account_or_key = name.now; firm = name.now; reply = name.now } }
    {
        Given {
            own_id: id,
            other_id: id,
            symbol_or_group: name,
            account_or_key: name,
            firm: name,
            reply: name,
        }
    }

    /// Returns these texts with the name of a firm.
    pub(crate) fn with_firm(self, firm: &'a FirmId) -> Self
        ensures texts { result ≡ record self.entry { firm = firm.now.name } }
        ensures sound { IsName firm.now.name }
    {
        let firm = firm.name.padded();
        Given { firm, ..self }
    }

    /// Returns these texts with two ids.
    pub(crate) fn with_ids(self, own_id: &'a Id, other_id: &'a Id) -> Self
        ensures texts { result ≡ record self.entry { own_id = own_id.now; other_id = other_id.now } }
        ensures sound { IsId own_id.now × IsId other_id.now }
    {
        Given {
            own_id: own_id.padded(),
            other_id: other_id.padded(),
            ..self
        }
    }

    /// Returns these texts with those of a report.
    pub(crate) fn with_report(self, report: &'a ReportSide) -> Self
        ensures texts { result ≡ record self.entry {
          own_id = report.now.id;
          other_id = report.now.match_id;
          symbol_or_group = report.now.symbol.name;
          account_or_key = report.now.account.name;
          firm = report.now.firm.name;
        } }
        ensures ids { IsId report.now.id × IsId report.now.match_id }
        ensures names { IsName report.now.symbol.name × IsName report.now.account.name × IsName report.now.firm.name }
    {
        Given {
            own_id: report.id.padded(),
            other_id: report.match_id.padded(),
            symbol_or_group: report.symbol.name.padded(),
            account_or_key: report.account.name.padded(),
            firm: report.firm.name.padded(),
            ..self
        }
    }

    /// Returns their place if they start at `at`.
    pub(crate) fn span(&self, at: u32) -> Span
        ensures span { result ≡ span_of at self.now }
        ensures short { AreShort self.now }
    {
        Span {
            at,
            own_id: self.own_id.size(),
            other_id: self.other_id.size(),
            symbol_or_group: self.symbol_or_group.size(),
            account_or_key: self.account_or_key.size(),
            firm: self.firm.size(),
            reply: self.reply.size(),
        }
    }

    /// Appends them all to the stored texts, or none.
    #[inline(always)]
    pub(crate) fn append(&self, all: &mut TextStore) -> Result<(), AllocError>
        ensures appended { OnOk result (all.new.bytes ≡ all.old.bytes ++ joined self.now) }
        ensures refused { OnErr result (all.new.bytes ≡ all.old.bytes) }
    {
        all.reserve(LONGEST_TEXTS)?;
        put(all, self.own_id);
        put(all, self.other_id);
        put(all, self.symbol_or_group);
        put(all, self.account_or_key);
        put(all, self.firm);
        put(all, self.reply);
        Ok(())
    }
}
