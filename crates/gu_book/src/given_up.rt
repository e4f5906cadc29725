//! What was given up of each report.

ghost use Rattle.std.specs.Prelude.{◌≡◌, ℕ, ◌+◌, ◌-◌, ◌<◌, ◌≤◌, ◌^◌, ◌==◌, ◌++◌, [], length, replicate, slice_get, slice_index, vec_capacity, vec_len, Some, OnOk, if◌then◌else◌};

use gu_terms::OfferNo;
use gu_trades::ReportNo;
use std::alloc::{AllocError, Global};

/// What was given up of each report.
#[derive(Drop)]
pub struct GivenUp {
    /// The report of each offer, in the order of the offers' numbers.
    pub report_of: Vec<ReportNo>,
    /// By report number, the lots of the report that its offers hold. It ends with the last report of which any were given up.
    pub lots: Vec<u64>,
}

/// Appends an item `count` times. There is room.
fn push_copies<T: Copy>(list: &mut Vec<T>, item: T, count: usize)
    requires { vec_len list.old + count ≤ vec_capacity list.old }
    ensures { list.new.items ≡ list.old.items ++ replicate count item }
{
    for _copy in 0..count {
        list.push_reserved(item);
    }
}

/// Makes a list of lots at least this long. New lots are 0.
fn lengthen(lots: &mut Vec<u64>, len: usize) -> Result<(), AllocError>
    ensures same { (number : ℕ) → slice_index lots.new.items number ≡ slice_index lots.old.items number }
    ensures long { OnOk result (len ≤ length lots.new.items) }
{
    let more = len.saturating_sub(lots.len());
    lots.reserve(more)?;
    push_copies(lots, 0, more);
    Ok(())
}

impl GivenUp {
    /// Returns what was given up if nothing was.
    pub fn new(alloc: Global) -> Self
        ensures report_of { result.report_of.items ≡ [] }
        ensures lots { result.lots.items ≡ [] }
    {
        GivenUp {
            report_of: Vec::new(alloc),
            lots: Vec::new(alloc),
        }
    }

    /// Returns the report of an offer.
    pub fn report(&self, number: OfferNo) -> ReportNo
        requires { number ≤ length self.now.report_of.items }
        ensures { slice_get self.now.report_of.items (number - 1) ≡ Some result }
    {
        self.report_of[number.get() as usize - 1]
    }

    /// Returns the lots of a report that its offers hold.
    pub fn lots_of(&self, report: ReportNo) -> u64
        ensures { result ≡ slice_index self.now.lots.items report }
    {
        self.lots.get(report.get()).copied().unwrap_or(0)
    }

    /// Makes room for more offers of a report.
    pub fn reserve(&mut self, report: ReportNo, count: usize) -> Result<(), AllocError>
        ensures report_of { self.new.report_of.items ≡ self.old.report_of.items }
        ensures lots { (number : ℕ) → slice_index self.new.lots.items number ≡ slice_index self.old.lots.items number }
        ensures room { OnOk result (vec_len self.new.report_of + count ≤ vec_capacity self.new.report_of) }
        ensures long { OnOk result (report < length self.new.lots.items) }
    {
        self.report_of.reserve(count)?;
        lengthen(&mut self.lots, report.get() + 1)
    }

    /// Adds offers of a report, with these lots in all. There is room.
    pub fn add(&mut self, report: ReportNo, count: usize, lots: u64)
        requires room { vec_len self.old.report_of + count ≤ vec_capacity self.old.report_of }
        requires long { report < length self.old.lots.items }
        requires fits { slice_index self.old.lots.items report + lots < 2 ^ 64 }
        ensures report_of { self.new.report_of.items ≡ self.old.report_of.items ++ replicate count report }
        ensures lots { (number : ℕ) → slice_index self.new.lots.items number ≡ slice_index self.old.lots.items number + (if number == report then lots else 0) }
    {
        push_copies(&mut self.report_of, report, count);
        self.lots[report.get()] += lots;
    }

    /// Lowers the lots of a report that its offers hold.
    pub fn take(&mut self, report: ReportNo, lots: u64)
        requires { lots ≤ slice_index self.old.lots.items report }
        ensures report_of { self.new.report_of.items ≡ self.old.report_of.items }
        ensures lots { (number : ℕ) → slice_index self.new.lots.items number ≡ slice_index self.old.lots.items number - (if number == report then lots else 0) }
    {
        if let Some(held) = self.lots.get_mut(report.get()) {
            *held -= lots;
        }
    }
}
