//! The book.

ghost use Rattle.std.specs.Prelude.{◌≡◌, ◌↔◌, ◌<◌, ◌≤◌, ◌+◌, ◌++◌, ◌∷◌, [], false, is_some, length, true, IfOk, IfErr, IfSome, MatchOption, OnOk, OnErr, IsErrOf};
ghost use Rattle.std.specs.Option.{option_and_then};
ghost use Rattle.gu_terms.specs.Commands.{MayBeAsked};
ghost use Rattle.gu_terms.specs.Histories.{lots_swept};
ghost use Rattle.gu_trades.specs.Reports.{report_by};
ghost use Rattle.gu_offers.specs.Rows.{left_in};
ghost use Rattle.gu_ref.specs.Reference.{is_group};
ghost use Rattle.gu_ref.specs.Rules.{IsSound};
ghost use Rattle.gu_rules.specs.Legal.{IsLegal, MayFollow, StandsLast};
ghost use Rattle.gu_rules.specs.Answer.{answer, group_of};
ghost use Rattle.gu_rules.specs.Limits.{limit_rows};
ghost use Rattle.gu_rules.specs.Notices.{IsStretch, notices_of};
ghost use Rattle.gu_rules.specs.Offers.{standing_of};
ghost use Rattle.gu_rules.specs.Orderly.{IsOrderly};
ghost use Rattle.gu_rules.specs.Positions.{LongIsShort, is_of_firm, long_of, open_interest_of, position_rows, short_of};
ghost use Rattle.gu_rules.specs.Reports.{open_day, reports_of};
ghost use Rattle.gu_rules.specs.Versions.{version_of};
ghost use Rattle.gu_rules.specs.Views.{group_view};
ghost use Rattle.gu_book.specs.Commits.{IsCurrent, Refuses, sweep_of};
ghost use Rattle.gu_book.specs.Informing.{HoldsInformed};
ghost use Rattle.gu_book.specs.Refusals.{commit_error_of};
ghost use Rattle.gu_view.specs.View.{IsNested};

use crate::answering::group_of;
use crate::current::shows_all;
use crate::deciding::Decide;
use crate::deed::Deed;
use crate::error::{AskError, CommitError, EnterError, SeenError};
use crate::limits::rows_in_order;
use crate::positions::{is_of_firm, rows_of_account};
use crate::sweeping::{
    asks_for_a_sweep, carry_out, kept_sweep, receipt_and_view, sum_swept, transfers_of,
};
use crate::telling::register_of;
use crate::totals::Totals;
use crate::touching::{know, touch};
use crate::versions::{Touched, Versions};
use crate::views::view_of;
use gu_flow::Proposal;
use gu_notices::{FirmFilter, Log, note_recipients, notices_of, recipients_of, stretch_of};
use gu_ref::Reference;
use gu_terms::{
    AccountId, Command, Day, Entry, FirmId, Group, History, Id, KeptSweep, LimitRow, MOST_ENTRIES,
    Notices, OfferNo, PositionRows, Receipt, Refusal, Reply, Seed, Stretch, Symbol,
};
use gu_view::View;
use std::alloc::{AllocError, Global};
use std::marker::Model;

/// A reference and a legal history of entries.
pub struct Book {
    reference: Reference,
    history: History,
    /// The totals that the history leads to.
    totals: Totals,
    /// The number of entries that touched each group.
    versions: Versions,
    /// For the first entries, the firms that each may notify.
    recipients: Vec<FirmFilter>,
    alloc: Global,
}

impl Drop for Book {
    fn drop(self) {
        let Book {
            reference,
            history,
            totals,
            versions,
            recipients,
            alloc: _,
        } = self;
        drop(reference);
        drop(history);
        drop(totals);
        drop(versions);
        drop(recipients);
    }
}

impl Model for Book {
    ghost use Rattle.gu_rules.specs.BookState.{BookState};

    ghost Value = { BookState };

    ghost use Rattle.gu_book.specs.Beside.{IsKeptWhole};

    ghost view = { λ b. record { reference = b.reference; history = b.history } };

    ghost invariant = { λ b. IsKeptWhole b.reference b.history b.totals b.versions b.recipients.items };
}

impl Book {
    /// Returns an empty book for runs that serve no peers: its tables have a fixed seed.
    pub fn new(alloc: Global, reference: Reference) -> Self
        ensures { result ≡ record { reference = reference; history = [] } }
    {
        Book::seeded(alloc, reference, Seed::new(0))
    }

    /// Returns an empty book whose tables of firm-chosen ids use `seed`. The seed affects no answer.
    pub fn seeded(alloc: Global, reference: Reference, seed: Seed) -> Self
        ensures { result ≡ record { reference = reference; history = [] } }
    {
        Book {
            reference,
            history: History::new(alloc),
            totals: Totals::seeded(alloc, seed),
            versions: Versions::new(alloc),
            recipients: Vec::new(alloc),
            alloc,
        }
    }

    /// Adds a command that is refused.
    fn append_denied(&mut self, command: &Command, why: &Refusal) -> Result<Reply, AllocError>
        requires room { length self.old.history < 1000000 }
        requires asked { MayBeAsked command.now }
        requires answered { Reply.Denied why.now ≡ answer self.old.reference self.old.history command.now }
        ensures entered { IfOk result (λ reply. self.new.history ≡ self.old.history ++ Entry.Asked command.now reply ∷ []) }
        ensures reply { IfOk result (λ reply. reply ≡ answer self.old.reference self.old.history command.now) }
        ensures stands { IfOk result (λ reply. StandsLast self.old.reference (length self.old.history + 1) (Entry.Asked command.now reply)) }
        ensures reference { self.new.reference ≡ self.old.reference }
        ensures refused { OnErr result (self.new.history ≡ self.old.history) }
    {
        self.history.push_asked(command, Reply::Denied(*why))?;
        // Shows the prover: no match id has more than two reports.
        self.totals.trades.rules();
        Ok(Reply::Denied(*why))
    }

    /// Adds a command of one kind with its answer, and returns the answer.
    fn append_asked<'a, C: Decide<'a>>(
        &mut self,
        command: &Command,
        asked: &'a C,
    ) -> Result<Reply, AllocError>
        requires room { length self.old.history < 1000000 }
        requires same { command.now ≡ C.command asked.now }
        ensures entered { IfOk result (λ reply. self.new.history ≡ self.old.history ++ Entry.Asked command.now reply ∷ []) }
        ensures reply { IfOk result (λ reply. reply ≡ answer self.old.reference self.old.history command.now) }
        ensures stands { IfOk result (λ reply. StandsLast self.old.reference (length self.old.history + 1) (Entry.Asked command.now reply)) }
        ensures reference { self.new.reference ≡ self.old.reference }
        ensures refused { OnErr result (self.new.history ≡ self.old.history) }
    {
        // Shows the prover: the invariant of a give-up's lines.
        command.rules();
        let deed = match asked.decide(&self.reference, &self.totals) {
            Ok(deed) => deed,
            Err(why) => return self.append_denied(command, &why),
        };
        let touched = deed.touched();
        let place = know(&mut self.versions, &touched)?;
        let count = self.history.len();
        self.history.push_asked(command, deed.reply())?;
        if let Err(refused) = deed.take_in(&mut self.totals) {
            self.history.truncate(count);
            return Err(refused);
        }
        touch(&mut self.versions, &touched, place);
        // Shows the prover: no match id has more than two reports.
        self.totals.trades.rules();
        Ok(deed.reply())
    }

    /// Adds a command with its answer, and returns the answer.
    fn append(&mut self, command: &Command) -> Result<Reply, AllocError>
        requires room { length self.old.history < 1000000 }
        ensures entered { IfOk result (λ reply. self.new.history ≡ self.old.history ++ Entry.Asked command.now reply ∷ []) }
        ensures reply { IfOk result (λ reply. reply ≡ answer self.old.reference self.old.history command.now) }
        ensures stands { IfOk result (λ reply. StandsLast self.old.reference (length self.old.history + 1) (Entry.Asked command.now reply)) }
        ensures reference { self.new.reference ≡ self.old.reference }
        ensures refused { OnErr result (self.new.history ≡ self.old.history) }
    {
        match command {
            Command::OpenDay(opening) => self.append_asked(command, opening),
            Command::SetLimit(limit) => self.append_asked(command, limit),
            Command::ReportSide(report) => self.append_asked(command, report),
            Command::GiveUp(give_up) => self.append_asked(command, give_up),
            Command::Claim(claim) => self.append_asked(command, claim),
            Command::Refuse(refusal) => self.append_asked(command, refusal),
            Command::Reverse(reversal) => self.append_asked(command, reversal),
        }
    }

    /// Enters a command with its answer, even a refusal, and returns only the answer.
    pub fn reply_to(&mut self, command: &Command) -> Result<Reply, EnterError>
        ensures entered { IfOk result (λ reply. self.new.history ≡ self.old.history ++ Entry.Asked command.now reply ∷ []) }
        ensures reply { IfOk result (λ reply. reply ≡ answer self.old.reference self.old.history command.now) }
        ensures stands { IfOk result (λ reply. StandsLast self.old.reference (length self.old.history + 1) (Entry.Asked command.now reply)) }

        // Nothing is entered if the book is full or an allocation fails.
        ensures full { IsErrOf result EnterError.Full ↔ (1000000 ≤ length self.old.history) }
        ensures reference { self.new.reference ≡ self.old.reference }
        ensures refused { OnErr result (self.new.history ≡ self.old.history) }
    {
        if self.history.len() >= MOST_ENTRIES {
            return Err(EnterError::Full);
        }
        Ok(self.append(command)?)
    }

    /// Enters a command with its answer, even a refusal, and returns the receipt.
    pub fn enter(&mut self, command: Command) -> Result<Receipt, EnterError>
        ensures entered { IfOk result (λ r. self.new.history ≡ self.old.history ++ r.entry ∷ []) }
        ensures number { IfOk result (λ r. r.number ≡ length self.old.history + 1) }
        ensures entry { IfOk result (λ r. r.entry ≡ Entry.Asked command (answer self.old.reference self.old.history command)) }
        ensures stands { IfOk result (λ r. StandsLast self.old.reference r.number r.entry) }

        // Nothing is entered if the book is full or an allocation fails.
        ensures full { IsErrOf result EnterError.Full ↔ (1000000 ≤ length self.old.history) }
        ensures reference { self.new.reference ≡ self.old.reference }
        ensures refused { OnErr result (self.new.history ≡ self.old.history) }
    {
        let reply = self.reply_to(&command)?;
        Ok(Receipt {
            number: self.history.len() as u64,
            entry: Entry::Asked { command, reply },
        })
    }

    /// Returns the lots that an account holds in an instrument, long and short.
    pub fn position(&self, account: AccountId, symbol: Symbol) -> (u64, u64)
        ensures long { result.0 ≡ long_of self.now.history account symbol }
        ensures short { result.1 ≡ short_of self.now.history account symbol }
    {
        self.totals.positions.of(account, symbol)
    }

    /// Returns the open interest of an instrument: the sum, over all accounts, of the excess of long lots over short ones.
    pub fn open_interest(&self, symbol: Symbol) -> u64
        ensures { result ≡ open_interest_of self.now symbol }
    {
        // Shows the prover: the rules of the reference and the positions.
        self.reference.rules();
        self.totals.positions.rules();
        self.totals.positions.open_interest(symbol)
    }

    /// Returns the positions of a firm's account: a row for each instrument in which it has lots, in the reference's order, with the open
    /// day. None if the account is unknown or another firm's.
    pub fn positions(
        &self,
        firm: FirmId,
        account: AccountId,
    ) -> Result<Option<PositionRows>, AllocError>
        ensures own { IfOk result (λ answer. is_some answer ≡ is_of_firm self.now.reference firm account) }
        ensures day { IfOk result (λ answer. IfSome answer (λ p. p.day ≡ open_day self.now.history)) }
        ensures rows { IfOk result (λ answer. IfSome answer (λ p. p.rows.items ≡ position_rows self.now account)) }
    {
        if !is_of_firm(&self.reference, firm, account) {
            return Ok(None);
        }
        let rows = rows_of_account(
            self.alloc,
            &self.reference,
            &self.totals.positions,
            &account,
        )?;
        Ok(Some(PositionRows {
            day: self.totals.today,
            rows,
        }))
    }

    /// Returns the limits set in a group, as they are now: executing firms, agreements, accounts, carrying firms and guarantors, each in
    /// the order of the reference, with guarantors in the order of the firms.
    pub fn limits(&self, group: &Group) -> Result<Vec<LimitRow>, AllocError>
        ensures rows { IfOk result (λ rows. rows.items ≡ limit_rows self.now group.now) }
        ensures unknown { is_group self.now.reference group.now ≡ false → IfOk result (λ rows. rows.items ≡ []) }
    {
        rows_in_order(self.alloc, &self.reference, &self.totals.limits, group)
    }

    /// Returns a firm's notices of the entries from a number on, and the number after the last entry, from which to ask next.
    pub fn notices(&self, firm: FirmId, from: u64) -> Result<Notices, AllocError>
        ensures next { IfOk result (λ notices. notices.next ≡ length self.now.history + 1) }
        ensures list { IfOk result (λ notices. notices.list.items ≡ notices_of self.now firm from) }
    {
        let next = self.history.len() as u64 + 1;
        let register = register_of(&self.reference, &self.totals);
        let log = Log {
            history: &self.history,
            recipients: &self.recipients,
        };
        let list = notices_of(self.alloc, &register, &log, &firm, from)?;
        Ok(Notices { next, list })
    }

    /// Records, for each entry, the firms that it may notify, so that a batch skips the others. No answer changes; if an allocation fails,
    /// the later entries are read as before.
    pub fn note_recipients(&mut self) -> Result<(), AllocError>
        ensures { self.new ≡ self.old }
    {
        let register = register_of(&self.reference, &self.totals);
        note_recipients(&register, &self.history, &mut self.recipients)
    }

    /// Returns a batch of a firm's notices, starting at an entry's number. It covers at most 1,024 entries, and no further entry once it
    /// has 1,024 notices.
    pub fn stretch(&self, firm: FirmId, from: u64) -> Result<Stretch, AllocError>
        ensures { IfOk result (IsStretch self.now firm from) }
    {
        let register = register_of(&self.reference, &self.totals);
        let log = Log {
            history: &self.history,
            recipients: &self.recipients,
        };
        stretch_of(self.alloc, &register, &log, &firm, from)
    }

    /// Returns a set that may hold each firm notified of the entry at an index, for which no set is recorded.
    fn recipients_at(&self, place: usize) -> FirmFilter
        requires { place < length self.now.history }
        ensures { HoldsInformed self.now (place + 1) result }
    {
        // Shows the prover: no match id has more than two reports.
        self.totals.trades.rules();
        let register = register_of(&self.reference, &self.totals);
        recipients_of(&register, &self.history.show(place))
    }

    /// Returns a set that may hold each firm notified of the entry with a number; no firm, if no entry has the number. It allocates
    /// nothing. A recorded set is read; any other is computed from this entry alone.
    pub fn informs(&self, number: u64) -> FirmFilter
        ensures { HoldsInformed self.now number result }
    {
        if number == 0 || number > self.history.len() as u64 {
            return FirmFilter::NONE;
        }
        let place = number as usize - 1;
        match self.recipients.get(place) {
            Some(firms) => {
                // Shows the prover: no match id has more than two reports.
                self.totals.trades.rules();
                *firms
            }
            None => self.recipients_at(place),
        }
    }

    /// Returns the view of a group as the book is now: its open offers, and the room of each key that applies to them.
    pub fn view(&self, group: &Group) -> Result<View, AskError>
        ensures view { IfOk result (λ view. view ≡ group_view self.now.reference self.now.history group.now) }
        ensures nested { IfOk result (λ view. IsNested view) }
        ensures known { OnOk result (is_group self.now.reference group.now ≡ true) }
        ensures unknown { IsErrOf result AskError.UnknownGroup ↔ (is_group self.now.reference group.now ≡ false) }
    {
        if !self.reference.group(*group) {
            return Err(AskError::UnknownGroup);
        }
        Ok(view_of(
            self.alloc,
            &self.reference,
            &self.totals,
            &self.versions,
            group,
        )?)
    }

    /// Returns the reason that no sweep of a view may be entered, if the book is full or the view is stale.
    fn outdated(&self, view: &View) -> Option<SeenError>
        ensures { MatchOption result
            ((length self.now.history < 1000000) × (view.now.version ≡ version_of self.now.history view.now.group))
            (λ why. Refuses self.now view.now (commit_error_of why)) }
    {
        if MOST_ENTRIES <= self.history.len() {
            return Some(SeenError::Full);
        }
        let seen = view.version();
        let now = self.versions.of(&view.group());
        if seen != now {
            return Some(SeenError::Stale { seen, now });
        }
        None
    }

    /// Returns the reason that a proposal for a view may not be committed, if there is one. It allocates nothing.
    fn refusal(&self, view: &View) -> Option<CommitError>
        ensures { MatchOption result (IsCurrent self.now view.now) (λ why. Refuses self.now view.now why) }
    {
        if let Some(why) = self.outdated(view) {
            return Some(CommitError::from(why));
        }
        if !self.reference.group(view.group()) {
            return Some(CommitError::Foreign);
        }
        if !shows_all(&self.reference, &self.totals, view) {
            return Some(CommitError::Foreign);
        }
        None
    }

    /// Adds the sweep of a proposal, in its stored form, and moves its lots.
    fn append_sweep(&mut self, proposal: &Proposal, kept: KeptSweep) -> Result<(), AllocError>
        requires current { IsCurrent self.old proposal.now.view }
        requires kept { kept ≡ sweep_of proposal.now }
        ensures entered { OnOk result (self.new.history ≡ self.old.history ++ Entry.Swept (sweep_of proposal.now) ∷ []) }
        ensures stands { OnOk result (StandsLast self.old.reference (length self.old.history + 1) (Entry.Swept (sweep_of proposal.now))) }
        ensures reference { self.new.reference ≡ self.old.reference }
        ensures refused { OnErr result (self.new.history ≡ self.old.history) }
    {
        // Shows the prover: a proposal's sweep is a sweep of its view.
        asks_for_a_sweep(proposal);
        let group = proposal.view().group();
        let touched = Touched::Only(group);
        let place = know(&mut self.versions, &touched)?;
        let transfers = transfers_of(
            self.alloc,
            &mut self.totals,
            proposal.view(),
            proposal.takes().as_slice(),
        )?;
        self.history.push_swept(kept)?;
        carry_out(&mut self.totals, &transfers);
        touch(&mut self.versions, &touched, place);
        // Shows the prover: no match id has more than two reports.
        self.totals.trades.rules();
        Ok(())
    }

    /// Enters the sweep of a borrowed proposal in its stored form and claims its takes, if the group is still as the proposal's view shows
    /// it. Returns the number of the entry. The view, like that of a look, is known to be its group's as long as their versions are equal,
    /// so it isn't compared with the book. It copies no sweep and drops no part of the proposal.
    pub fn enter_seen(&mut self, proposal: &Proposal, kept: KeptSweep) -> Result<u64, SeenError>
        requires kept { kept ≡ sweep_of proposal.now }
        requires known { is_group self.old.reference proposal.now.view.group ≡ true }
        requires honest { proposal.now.view.version ≡ version_of self.old.history proposal.now.view.group
            → proposal.now.view ≡ group_view self.old.reference self.old.history proposal.now.view.group }
        ensures entered { OnOk result (self.new.history ≡ self.old.history ++ Entry.Swept (sweep_of proposal.now) ∷ []) }
        ensures number { IfOk result (λ number. number ≡ length self.old.history + 1) }
        ensures stands { IfOk result (λ number. StandsLast self.old.reference number (Entry.Swept (sweep_of proposal.now))) }
        ensures current { OnOk result (IsCurrent self.old proposal.now.view) }

        // What each refusal means. The book is unchanged.
        ensures why { IfErr result (λ why. Refuses self.old proposal.now.view (commit_error_of why)) }
        ensures reference { self.new.reference ≡ self.old.reference }
        ensures refused { OnErr result (self.new.history ≡ self.old.history) }
    {
        if let Some(why) = self.outdated(proposal.view()) {
            return Err(why);
        }
        self.append_sweep(proposal, kept)?;
        Ok(self.history.len() as u64)
    }

    /// Enters the sweep of a proposal whose view is current, and returns the view.
    fn enter_current(
        &mut self,
        proposal: Proposal,
    ) -> Result<(Receipt, View), (CommitError, Proposal)>
        requires current { IsCurrent self.old proposal.view }
        ensures entered { IfOk result (λ r. self.new.history ≡ self.old.history ++ r.0.entry ∷ []) }
        ensures number { IfOk result (λ r. r.0.number ≡ length self.old.history + 1) }
        ensures entry { IfOk result (λ r. r.0.entry ≡ Entry.Swept (sweep_of proposal)) }
        ensures stands { IfOk result (λ r. StandsLast self.old.reference r.0.number r.0.entry) }
        ensures view { IfOk result (λ r. r.1 ≡ proposal.view) }
        ensures memory { IfErr result (λ e. (e.0 ≡ CommitError.Memory) × (e.1 ≡ proposal)) }
        ensures reference { self.new.reference ≡ self.old.reference }
        ensures refused { OnErr result (self.new.history ≡ self.old.history) }
    {
        let Ok(kept) = kept_sweep(self.alloc, &proposal) else {
            return Err((CommitError::Memory, proposal));
        };
        if let Err(AllocError) = self.append_sweep(&proposal, kept) {
            return Err((CommitError::Memory, proposal));
        }
        Ok(receipt_and_view(self.history.len() as u64, proposal))
    }

    /// Commits a proposal: enters its sweep and claims its takes, if the group is still as its view shows it. Returns the receipt.
    pub fn commit(&mut self, proposal: Proposal) -> Result<Receipt, (CommitError, Proposal)>
        ensures entered { IfOk result (λ r. self.new.history ≡ self.old.history ++ r.entry ∷ []) }
        ensures number { IfOk result (λ r. r.number ≡ length self.old.history + 1) }
        ensures entry { IfOk result (λ r. r.entry ≡ Entry.Swept (sweep_of proposal)) }
        ensures stands { IfOk result (λ r. StandsLast self.old.reference r.number r.entry) }
        ensures current { OnOk result (IsCurrent self.old proposal.view) }

        // What each refusal means. The proposal is returned, and the book is unchanged.
        ensures why { IfErr result (λ e. Refuses self.old proposal.view e.0) }
        ensures handed_back { IfErr result (λ e. e.1 ≡ proposal) }
        ensures reference { self.new.reference ≡ self.old.reference }
        ensures refused { OnErr result (self.new.history ≡ self.old.history) }
    {
        if let Some(why) = self.refusal(proposal.view()) {
            return Err((why, proposal));
        }
        match self.enter_current(proposal) {
            Ok((receipt, view)) => {
                drop(view);
                Ok(receipt)
            }
            Err(refused) => Err(refused),
        }
    }

    /// Commits a proposal whose view, like that of a look, is known to be its group's as long as their versions are equal: the view isn't
    /// compared with the book. Returns it beside the receipt.
    pub fn commit_seen(
        &mut self,
        proposal: Proposal,
    ) -> Result<(Receipt, View), (CommitError, Proposal)>
        requires known { is_group self.old.reference proposal.view.group ≡ true }
        requires honest { proposal.view.version ≡ version_of self.old.history proposal.view.group
            → proposal.view ≡ group_view self.old.reference self.old.history proposal.view.group }
        ensures entered { IfOk result (λ r. self.new.history ≡ self.old.history ++ r.0.entry ∷ []) }
        ensures number { IfOk result (λ r. r.0.number ≡ length self.old.history + 1) }
        ensures entry { IfOk result (λ r. r.0.entry ≡ Entry.Swept (sweep_of proposal)) }
        ensures stands { IfOk result (λ r. StandsLast self.old.reference r.0.number r.0.entry) }
        ensures view { IfOk result (λ r. r.1 ≡ proposal.view) }
        ensures current { OnOk result (IsCurrent self.old proposal.view) }

        // What each refusal means. The proposal is returned, and the book is unchanged.
        ensures why { IfErr result (λ e. Refuses self.old proposal.view e.0) }
        ensures handed_back { IfErr result (λ e. e.1 ≡ proposal) }
        ensures reference { self.new.reference ≡ self.old.reference }
        ensures refused { OnErr result (self.new.history ≡ self.old.history) }
    {
        if let Some(why) = self.outdated(proposal.view()) {
            return Err((CommitError::from(why), proposal));
        }
        self.enter_current(proposal)
    }

    /// Returns the total lots of all sweeps in the history. It allocates nothing, and reads every entry.
    pub fn lots_swept(&self) -> u64
        ensures { result ≡ lots_swept self.now.history }
    {
        // Shows the prover: no offer has more than 1,000,000 lots.
        self.totals.offers.rules();
        sum_swept(&self.history)
    }

    /// Returns the product group in which lots of a firm's report are given up, that of its instrument, if there is such a report.
    pub fn group_of_report(&self, firm: &FirmId, report: &Id) -> Option<Group>
        ensures { result ≡ option_and_then (group_of self.now.reference) (report_by (reports_of self.now.history) firm.now report.now) }
    {
        let terms = self.totals.trades.terms(firm, report)?;
        group_of(&self.reference, &terms)
    }

    /// Returns the lots left of an offer; 0 if there is none with this number.
    pub fn left(&self, number: OfferNo) -> u64
        ensures { result ≡ left_in (standing_of self.now.history) number }
    {
        self.totals.offers.left(number)
    }

    /// Returns the open day.
    pub fn day(&self) -> Option<Day>
        ensures { result ≡ open_day self.now.history }
    {
        self.totals.today
    }

    /// Returns the history.
    pub fn history(&self) -> &History
        ensures history { result.now ≡ self.now.history }
        ensures legal { IsLegal self.now.reference self.now.history }
        ensures sound { IsSound self.now.reference }
        ensures orderly { IsOrderly self.now.history }

        // Over all accounts, as many lots of each instrument are held long as short.
        ensures even { LongIsShort self.now }
    {
        // Shows the prover: the rules of the reference.
        self.reference.rules();
        &self.history
    }

    /// Returns the reference that it was made with.
    pub fn reference(&self) -> &Reference
        ensures { result.now ≡ self.now.reference }
    {
        &self.reference
    }
}
