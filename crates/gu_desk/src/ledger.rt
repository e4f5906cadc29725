//! The history and ledgers that a desk's type names.

use std::marker::Brand;
use std::sync::ledger::{Book, Ledger, Share};

/// The ledger of the entries made from a desk's seats. It also names the desk's reference, its one history, and the entries that this
/// history has when the desk is opened.
pub trait EntryLedger: Ledger {
    ghost use Rattle.std.specs.Prelude.{List};
    ghost use Rattle.atomic_table.specs.Seated.{TableId};
    ghost use Rattle.gu_terms.specs.declared.entry.Entry.{Entry};
    ghost use Rattle.gu_ref.specs.Tables.{Tables};

    ghost reference: { Tables };

    ghost opening: { List Entry };

    // The name of the desk's one history.
    ghost history: { TableId };
}

impl EntryLedger for Brand {
    ghost use Rattle.std.specs.Prelude.{[]};
    ghost use Rattle.gu_desk.specs.Annals.{no_history};
    ghost use Rattle.gu_desk.specs.Seating.{no_tables};

    ghost reference = { no_tables };

    ghost opening = { [] };

    ghost history = { no_history };
}

/// The ledger of the lots swept from a desk's seats. It names the number of lots that the book has swept when the desk is opened.
pub trait LotLedger: Ledger {
    ghost use Rattle.std.specs.Prelude.{ℕ};

    ghost opening: { ℕ };
}

impl LotLedger for Brand {
    ghost opening = { 0 };
}

/// A ledger of a desk. One part of it stays with the desk, so that the seats never have all parts before the desk is closed.
#[derive(Drop)]
pub(crate) struct DeskLedger<L: Ledger> {
    pub(crate) book: Book<L>,
    pub(crate) own: Share<L>,
}
