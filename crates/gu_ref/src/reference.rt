//! The reference data of a run: look-ups, and lists in the order of the file.

ghost use Rattle.std.specs.Prelude.{◌≡◌, ◌≤◌, [], Some, Contains, is_some, if◌then◌else◌};
ghost use Rattle.std.specs.Result.{is_ok};

use crate::accounts::Account;
use crate::agreements::{Agreement, Agreements};
use crate::guarantors::{Guarantor, Guarantors};
use crate::instruments::Instrument;
use crate::names::Names;
use crate::partner::Partner;
use crate::row::Row;
use crate::table::Table;
use gu_terms::{AccountId, AgreementId, FirmId, Group, Symbol};
use std::alloc::{AllocError, Global};
use std::marker::Model;

/// The reference data of one run, each kind in the order of declaration. To a contract it is these six lists.
pub struct Reference {
    firms: Names<FirmId>,
    groups: Names<Group>,
    instruments: Table<Instrument>,
    accounts: Table<Account>,
    agreements: Agreements,
    guarantors: Guarantors,
}

impl Drop for Reference {
    fn drop(self) {
        let Reference {
            firms,
            groups,
            instruments,
            accounts,
            agreements,
            guarantors,
        } = self;
        drop(firms);
        drop(groups);
        drop(instruments);
        drop(accounts);
        drop(agreements);
        drop(guarantors);
    }
}

impl Model for Reference {
    ghost use Rattle.gu_ref.specs.Tables.{Tables};

    ghost Value = { Tables };

    ghost view = { λ r. record {
      firms = r.firms;
      groups = r.groups;
      instruments = r.instruments;
      accounts = r.accounts;
      agreements = r.agreements;
      guarantors = r.guarantors;
    } };

    ghost use Rattle.gu_ref.specs.Rules.{IsSound};

    ghost invariant = { λ r. IsSound (record {
      firms = r.firms;
      groups = r.groups;
      instruments = r.instruments;
      accounts = r.accounts;
      agreements = r.agreements;
      guarantors = r.guarantors;
    }) };
}

impl Reference {
    ghost use Rattle.gu_ref.specs.declared.accounts.Account.{Account};
    ghost use Rattle.gu_ref.specs.declared.agreements.Agreement.{Agreement};
    ghost use Rattle.gu_ref.specs.declared.guarantors.Guarantor.{Guarantor};
    ghost use Rattle.gu_ref.specs.Growth.{Passes, with_row, row_count};
    ghost use Rattle.gu_ref.specs.Rules.{IsSound};
    ghost use Rattle.gu_ref.specs.Reference.{is_firm, is_group, is_instrument, instrument_row, account_row, agreement_row, agreement_between};
    ghost use Rattle.gu_ref.specs.Reference.{guarantor_of, is_guarantor, partner_between};

    /// Shows the prover the rules of every reference: one firm carries an account, one agreement is between a firm and an account, and a
    /// firm has at most one guarantor.
    pub fn rules(&self)
        ensures sound { IsSound self.now }
        ensures carrier { (row : Account) → Contains self.now.accounts row → account_row self.now row.account ≡ Some row }
        ensures partner { (row : Agreement) → Contains self.now.agreements row
            → agreement_between self.now row.executing row.account ≡ Some row.id }
        ensures guarantor { (row : Guarantor) → Contains self.now.guarantors row
            → guarantor_of self.now row.firm ≡ Some row.guarantor }
    {
        // Reading a field shows the prover the invariant of its type.
        let _ = &self.firms;
    }

    /// Returns the firms, in order.
    pub fn firms(&self) -> &[FirmId]
        ensures { result.now ≡ self.now.firms }
    {
        self.firms.as_slice()
    }

    /// Returns the product groups, in order.
    pub fn groups(&self) -> &[Group]
        ensures { result.now ≡ self.now.groups }
    {
        self.groups.as_slice()
    }

    /// Returns the instruments, in order.
    pub fn instruments(&self) -> &[Instrument]
        ensures { result.now ≡ self.now.instruments }
    {
        self.instruments.as_slice()
    }

    /// Returns the accounts, in order.
    pub fn accounts(&self) -> &[Account]
        ensures { result.now ≡ self.now.accounts }
    {
        self.accounts.as_slice()
    }

    /// Returns the agreements, in order.
    pub fn agreements(&self) -> &[Agreement]
        ensures { result.now ≡ self.now.agreements }
    {
        self.agreements.as_slice()
    }

    /// Returns the guarantors, each with the firm that it guarantees, in order.
    pub fn guarantors(&self) -> &[Guarantor]
        ensures { result.now ≡ self.now.guarantors }
    {
        self.guarantors.as_slice()
    }

    /// Returns whether there is such a firm.
    pub fn firm(&self, firm: FirmId) -> bool
        ensures { result ≡ is_firm self.now firm }
    {
        self.firms.contains(firm)
    }

    /// Returns whether there is such a product group.
    pub fn group(&self, group: Group) -> bool
        ensures { result ≡ is_group self.now group }
    {
        self.groups.contains(group)
    }

    /// Returns whether there is such an instrument.
    pub fn is_instrument(&self, symbol: Symbol) -> bool
        ensures { result ≡ is_instrument self.now symbol }
    {
        self.instruments.contains(symbol)
    }

    /// Returns the instrument with this symbol and its group.
    pub fn instrument(&self, symbol: Symbol) -> Option<Instrument>
        ensures { result ≡ instrument_row self.now symbol }
    {
        self.instruments.get(symbol)
    }

    /// Returns the account with this name and the firm that carries it.
    pub fn account(&self, account: AccountId) -> Option<Account>
        ensures { result ≡ account_row self.now account }
    {
        self.accounts.get(account)
    }

    /// Returns whether there is such an account.
    pub fn is_account(&self, account: AccountId) -> bool
        ensures { result ≡ is_some (account_row self.now account) }
    {
        self.accounts.contains(account)
    }

    /// Returns whether there is such an agreement.
    pub fn is_agreement(&self, id: AgreementId) -> bool
        ensures { result ≡ is_some (agreement_row self.now id) }
    {
        self.agreements.contains(id)
    }

    /// Returns the agreement with this name.
    pub fn agreement(&self, id: AgreementId) -> Option<Agreement>
        ensures { result ≡ agreement_row self.now id }
    {
        self.agreements.get(id)
    }

    /// Returns the agreement by which the executing firm gives trades up to the account.
    pub fn between(&self, executing: FirmId, account: AccountId) -> Option<AgreementId>
        ensures { result ≡ agreement_between self.now executing account }
    {
        self.agreements
            .between(executing, account)
            .map(|row| row.id)
    }

    /// Returns the agreement by which the firm gives trades up to the account, and the firm that carries the account.
    pub fn partner(&self, firm: FirmId, account: AccountId) -> Option<Partner>
        ensures { result ≡ partner_between self.now firm account }
    {
        let agreement = self.between(firm, account)?;
        let carrying = self.account(account)?.firm;
        Some(Partner {
            agreement,
            carrying,
        })
    }

    /// Returns the guarantor of a firm, if it has one.
    pub fn guarantor(&self, firm: FirmId) -> Option<FirmId>
        ensures { result ≡ guarantor_of self.now firm }
    {
        self.guarantors.get(firm).map(|row| row.guarantor)
    }

    /// Returns whether the firm guarantees another.
    pub fn guards(&self, firm: FirmId) -> bool
        ensures { result ≡ is_guarantor self.now firm }
    {
        self.guarantors.guards(firm)
    }

    /// Returns a reference with no rows.
    pub(crate) fn empty(alloc: Global) -> Self
        ensures { result ≡ record { firms = []; groups = []; instruments = []; accounts = []; agreements = []; guarantors = [] } }
    {
        Reference {
            firms: Names::new(alloc),
            groups: Names::new(alloc),
            instruments: Table::new(alloc),
            accounts: Table::new(alloc),
            agreements: Agreements::new(alloc),
            guarantors: Guarantors::new(alloc),
        }
    }

    /// Returns the number of rows.
    pub(crate) fn row_count(&self) -> u64
        ensures count { result ≡ row_count self.now }
        ensures few { result ≤ 32100 }
    {
        let firms = self.firms.as_slice().len();
        let groups = self.groups.as_slice().len();
        let instruments = self.instruments.as_slice().len();
        let accounts = self.accounts.as_slice().len();
        let agreements = self.agreements.as_slice().len();
        let guarantors = self.guarantors.as_slice().len();
        (firms + groups + instruments + accounts + agreements + guarantors) as u64
    }

    /// Adds a row that has no fault.
    pub(crate) fn enter(&mut self, row: Row) -> Result<(), AllocError>
        requires { Passes self.old row }
        ensures { self.new ≡ (if is_ok result then with_row self.old row else self.old) }
    {
        match row {
            Row::Firm(firm) => self.firms.push(firm),
            Row::Group(group) => self.groups.push(group),
            Row::Instrument(instrument) => self.instruments.push(instrument),
            Row::Account(account) => self.accounts.push(account),
            Row::Agreement(agreement) => self.agreements.push(agreement),
            Row::Guarantor(guarantor) => self.guarantors.push(guarantor),
        }
    }
}
