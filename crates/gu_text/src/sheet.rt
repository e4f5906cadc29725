//! Sweep sheets.

ghost use Rattle.std.specs.Prelude.{IfOk, IfErr};
ghost use Rattle.gu_text.specs.Sheets.{IsSheet, Refuses};

use crate::error::TextError;
use crate::sheet_reading::SheetReading;
use gu_terms::{Cut, Seed, Takes};
use gu_view::View;
use std::alloc::Global;

/// A sweep sheet: a view, takes of its offers, and a cut.
pub struct Sheet {
    pub view: View,
    pub takes: Takes,
    pub cut: Cut,
}

// By hand, so that a sheet's owner drops it with one call.
impl Drop for Sheet {
    fn drop(self) {
        let Sheet { view, takes, cut } = self;
        drop(view);
        drop(takes);
        drop(cut);
    }
}

impl Sheet {
    /// Returns the sheet in a text.
    pub fn read(alloc: Global, text: &[u8]) -> Result<Sheet, TextError>
        ensures sheet { IfOk result (IsSheet text.now) }
        ensures refused { IfErr result (Refuses text.now) }
    {
        let mut reading = SheetReading::seeded(alloc, Seed::new(0));
        reading.take(text)?;
        reading.end()
    }
}
