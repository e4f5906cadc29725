//! The instruments of a reference.

use crate::table::Named;
use gu_terms::{Group, Symbol};

/// An instrument and its product group.
#[derive(Clone, Copy, Debug, PartialEq, Eq)]
pub struct Instrument {
    pub symbol: Symbol,
    pub group: Group,
}

impl Named for Instrument {
    type Name = Symbol;

    ghost name = { λ row. row.symbol };

    fn name(&self) -> Symbol {
        self.symbol
    }
}
