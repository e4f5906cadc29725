//! Acceptance of a row after the rows so far, and of the reference with it.

ghost use Rattle.std.specs.Prelude.{◌≡◌, ◌+◌, ◌⊎◌, None, Some, OnOk, IfErr};
ghost use Rattle.csv.specs.Records.{fields_of};
ghost use Rattle.gu_ref.specs.Accepted.{is_known, is_own, is_twice, is_full, row_fault, record_fault};
ghost use Rattle.gu_ref.specs.Growth.{outcome_of, with_record, row_count};

use crate::error::RefFault;
use crate::reference::Reference;
use crate::row::{Row, row_of};
use csv::ByteRecord;

/// The most firms in a reference.
const FIRMS: usize = 1_000;
/// The most product groups.
const GROUPS: usize = 100;
/// The most instruments, the most accounts and the most agreements.
const ROWS: usize = 10_000;

impl Reference {
    /// Returns whether everything that the row names has been declared.
    fn is_known(&self, row: &Row) -> bool
        ensures { result ≡ is_known self.now row.now }
    {
        match row {
            Row::Firm(_) | Row::Group(_) => true,
            Row::Instrument(instrument) => self.group(instrument.group),
            Row::Account(account) => self.firm(account.firm),
            Row::Agreement(agreement) => {
                self.firm(agreement.executing) && self.account(agreement.account).is_some()
            }
            Row::Guarantor(row) => self.firm(row.guarantor) && self.firm(row.firm),
        }
    }

    /// Returns whether the row is an agreement for the executing firm's own account, or makes a firm its own guarantor.
    fn is_own(&self, row: &Row) -> bool
        ensures { result ≡ is_own self.now row.now }
    {
        match row {
            Row::Agreement(agreement) => self
                .account(agreement.account)
                .map_or(false, |account| account.firm == agreement.executing),
            Row::Guarantor(row) => row.guarantor == row.firm,
            Row::Firm(_) | Row::Group(_) | Row::Instrument(_) | Row::Account(_) => false,
        }
    }

    /// Returns whether the row repeats an earlier declaration.
    fn is_twice(&self, row: &Row) -> bool
        ensures { result ≡ is_twice self.now row.now }
    {
        match row {
            Row::Firm(firm) => self.firm(*firm),
            Row::Group(group) => self.group(*group),
            Row::Instrument(instrument) => self.is_instrument(instrument.symbol),
            Row::Account(account) => self.account(account.account).is_some(),
            Row::Agreement(agreement) => {
                self.agreement(agreement.id).is_some()
                    || self
                        .between(agreement.executing, agreement.account)
                        .is_some()
            }
            Row::Guarantor(row) => self.guarantor(row.firm).is_some(),
        }
    }

    /// Returns whether the table for this kind of row is full. A firm has at most one guarantor, so guarantors need no limit.
    fn is_full(&self, row: &Row) -> bool
        ensures { result ≡ is_full self.now row.now }
    {
        match row {
            Row::Firm(_) => self.firms().len() >= FIRMS,
            Row::Group(_) => self.groups().len() >= GROUPS,
            Row::Instrument(_) => self.instruments().len() >= ROWS,
            Row::Account(_) => self.accounts().len() >= ROWS,
            Row::Agreement(_) => self.agreements().len() >= ROWS,
            Row::Guarantor(_) => false,
        }
    }

    /// Returns the row's first fault as an error, if it has one.
    fn check(&self, line: u64, row: &Row) -> Result<(), RefFault>
        ensures { outcome_of result ≡ row_fault self.now line row.now }
    {
        if !self.is_known(row) {
            return Err(RefFault::Unknown(line));
        }
        if self.is_own(row) {
            return Err(RefFault::BadRow(line));
        }
        if self.is_twice(row) {
            return Err(RefFault::Twice(line));
        }
        if self.is_full(row) {
            return Err(RefFault::TooMany);
        }
        Ok(())
    }

    /// Adds the row of one more record, or refuses it for its first fault.
    pub(crate) fn accept(&mut self, fields: &ByteRecord) -> Result<(), RefFault>
        ensures ok { OnOk result ((record_fault self.old (row_count self.old + 1) (fields_of fields.now) ≡ None)
            × (self.new ≡ with_record self.old (fields_of fields.now))
            × (row_count self.new ≡ row_count self.old + 1)) }
        ensures err { IfErr result (λ fault. (fault ≡ RefFault.Memory)
            ⊎ (record_fault self.old (row_count self.old + 1) (fields_of fields.now) ≡ Some fault)) }
    {
        let line = self.row_count() + 1;
        let Some(row) = row_of(fields) else {
            return Err(RefFault::BadRow(line));
        };
        self.check(line, &row)?;
        self.enter(row)?;
        Ok(())
    }
}
