//! The secrets of firms, as a file has them.

ghost use Rattle.std.specs.Prelude.{◌≡◌, ◌↔◌, ◌++◌, ℕ, None, Some, IfOk, IsErrOf, IsTrue, OnOk};
ghost use Rattle.std.specs.Option.{option_copied, option_to_list};

use crate::error::SecretsFault;
use crate::row::{SecretRow, row_of};
use crate::splitting::first_line;
use gu_terms::FirmId;
use std::alloc::{AllocError, Global};
use std::marker::Model;

/// The secrets of firms. To a contract they are the rows of their file, in order.
#[derive(Drop)]
pub struct Secrets {
    rows: Vec<SecretRow>,
}

impl Model for Secrets {
    ghost use Rattle.std.specs.Prelude.{List};
    ghost use Rattle.gu_secrets.specs.declared.row.SecretRow.{SecretRow as Row};

    ghost Value = { List Row };

    ghost view = { λ secrets. secrets.rows.items };
}

impl Secrets {
    ghost use Rattle.gu_secrets.specs.Secrets.{Admits, first_bad, is_good, row_of, rows_in};

    /// Adds the row that a line says, and returns whether the line is good: empty, or a row of one of these firms.
    fn take_in(&mut self, line: &[u8], firms: &[FirmId]) -> Result<bool, AllocError>
        ensures good { IfOk result (λ good. good ≡ is_good firms.now line.now) }
        ensures rows { OnOk result (self.new ≡ self.old ++ option_to_list (row_of firms.now line.now)) }
    {
        if line.is_empty() {
            return Ok(true);
        }
        match row_of(line, firms) {
            Some(row) => {
                self.rows.push(row)?;
                Ok(true)
            }
            None => Ok(false),
        }
    }

    /// Returns the secrets in a file, in which each row is of one of these firms. A file without rows is accepted, and admits no firm.
    pub fn read(alloc: Global, text: &[u8], firms: &[FirmId]) -> Result<Self, SecretsFault>
        ensures good { OnOk result (first_bad firms.now text.now ≡ None) }
        ensures rows { IfOk result (λ secrets. secrets ≡ rows_in firms.now text.now) }
        ensures bad { (n : ℕ) → IsErrOf result (SecretsFault.BadRow n) → first_bad firms.now text.now ≡ Some n }
    {
        let mut secrets = Secrets {
            rows: Vec::new(alloc),
        };
        let mut rest = text;
        let mut number: u64 = 0;
        while let Some((line, others)) = first_line(rest) {
            number += 1;
            if !secrets.take_in(line, firms)? {
                return Err(SecretsFault::BadRow(number));
            }
            rest = others;
        }
        Ok(secrets)
    }

    /// Returns whether a secret fits a row of the firm.
    fn has_fitting_row(&self, firm: FirmId, secret: &[u8]) -> bool
        ensures { IsTrue result ↔ Admits self.now firm (Some secret.now) }
    {
        self.rows.iter().any(|row| row.admits(firm, secret))
    }

    /// Returns whether a firm may log on with a secret, or without one. It allocates nothing.
    pub fn admits(&self, firm: FirmId, secret: Option<&[u8]>) -> bool
        ensures { IsTrue result ↔ Admits self.now firm (option_copied secret.entry) }
    {
        match secret {
            Some(secret) => self.has_fitting_row(firm, secret),
            None => false,
        }
    }
}
