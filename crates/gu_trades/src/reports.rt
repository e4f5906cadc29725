//! Reports as stored.

ghost use Rattle.std.specs.Prelude.{◌≡◌, ◌++◌, ◌∷◌, [], ◌<◌, All, length, map, slice_get, OnErr, OnOk, Some};
ghost use Rattle.gu_terms.specs.declared.day.Day.{Day as DayOf};
ghost use Rattle.gu_trades.specs.PackedReports.{report_of_kept, texts_of, IsWithin};
ghost use Rattle.gu_trades.specs.Reports.{made_on};

use crate::packed::{KeptRef, Packed};
use gu_terms::{Day, ReportSide, TextStore};
use std::alloc::{AllocError, Global};
use std::marker::Model;

/// The most bytes of texts, or a few more. A further report gets AllocError.
const MOST_TEXTS: usize = 4_000_000_000;

/// The most bytes in a report's texts: two ids and three names.
const LONGEST_TEXTS: usize = 2 * 64 + 3 * 12;

/// A list of reports in the order of arrival. To a contract it is their list.
#[derive(Drop)]
pub(crate) struct Reports {
    rows: Vec<Packed>,
    /// The ids and names of all reports, in order.
    texts: TextStore,
}

impl Model for Reports {
    ghost use Rattle.std.specs.Prelude.{All, List, map};
    ghost use Rattle.gu_terms.specs.declared.report.Report.{Report as Row};
    ghost use Rattle.gu_trades.specs.PackedReports.{report_of_kept, IsWithin};

    ghost Value = { List Row };

    ghost view = { λ r. map (report_of_kept r.texts.bytes) r.rows.items };

    ghost invariant = { λ r. All (IsWithin r.texts.bytes) r.rows.items };
}

/// Appends all texts of a report, or none.
fn append_texts(texts: &mut TextStore, report: &ReportSide) -> Result<(), AllocError>
    ensures appended { OnOk result ((today : DayOf) → texts.new.bytes ≡ texts.old.bytes ++ texts_of (made_on today report.now)) }
    ensures refused { OnErr result (texts.new.bytes ≡ texts.old.bytes) }
{
    texts.reserve(LONGEST_TEXTS)?;
    texts.put(report.id.padded());
    texts.put(report.match_id.padded());
    texts.put(report.firm.name.padded());
    texts.put(report.symbol.name.padded());
    texts.put(report.account.name.padded());
    Ok(())
}

/// Adds the stored form of a report made on this day, and its texts. All allocations come first.
fn add(
    rows: &mut Vec<Packed>,
    texts: &mut TextStore,
    report: &ReportSide,
    today: Day,
) -> Result<(), AllocError>
    requires kept { All (IsWithin texts.old.bytes) rows.old.items }
    ensures kept { All (IsWithin texts.new.bytes) rows.new.items }
    ensures added { OnOk result (map (report_of_kept texts.new.bytes) rows.new.items
        ≡ map (report_of_kept texts.old.bytes) rows.old.items ++ made_on today report.now ∷ []) }
    ensures refused { OnErr result ((texts.new.bytes ≡ texts.old.bytes) × (rows.new.items ≡ rows.old.items)) }
{
    if texts.len() > MOST_TEXTS {
        return Err(AllocError);
    }
    let kept = Packed::of(report, today, texts.len() as u32);
    rows.reserve(1)?;
    append_texts(texts, report)?;
    rows.push_reserved(kept);
    Ok(())
}

impl Reports {
    /// Returns an empty list.
    pub(crate) fn new(alloc: Global) -> Self
        ensures { result ≡ [] }
    {
        Reports {
            rows: Vec::new(alloc),
            texts: TextStore::new(alloc),
        }
    }

    /// Returns a reference to the report at an index.
    pub(crate) fn kept(&self, place: usize) -> KeptRef<'_>
        requires { place < length self.now }
        ensures { slice_get self.now place ≡ Some result }
    {
        KeptRef::new(&self.rows[place], self.texts.get())
    }

    /// Adds a report made on this day after the others.
    pub(crate) fn push(&mut self, report: &ReportSide, today: Day) -> Result<(), AllocError>
        ensures added { OnOk result (self.new ≡ self.old ++ made_on today report.now ∷ []) }
        ensures refused { OnErr result (self.new ≡ self.old) }
    {
        add(&mut self.rows, &mut self.texts, report, today)
    }
}
