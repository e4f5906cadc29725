//! The shape of a message: repeated tags, missing tags, and groups.

ghost use Rattle.std.specs.Prelude.{◌≡◌, ◌<◌, ◌^◌, ◌==◌, length, IfSome, IsTrue, MatchOption, None, Some, ⊤};
ghost use Rattle.std.specs.Option.{option_or, option_map};
ghost use Rattle.std.specs.Str.Parse.{digits_value};
ghost use Rattle.gu_msgs.specs.Groups.{entries_begun, entries_by};
ghost use Rattle.gu_msgs.specs.Shape.{count_fault, counted_fault, entries_fault, fault_at, group_fault, groups_fault, missing, repeated, shape_fault, tags_fault};
ghost use Rattle.gu_msgs.specs.Standings.{AreStandings, IsStanding, IsTable};
ghost use Rattle.gu_msgs.specs.Tables.{body_rows, entry_rows, outer_rows};
ghost use Rattle.gu_msgs.specs.Values.{is_numeral};

use crate::allocation_instruction::{NO_ALLOCS_ROW, NO_EXECS_ROW};
use crate::fault::Fault;
use crate::groups::{group_after, has_entries, next_entry};
use crate::msg_type::MsgType;
use crate::reject_reason::SessionRejectReason;
use crate::row::Row;
use crate::run::Run;
use crate::standings::{NONE_STANDS, Standings, missing, standings, value_numbered};
use crate::tables::{entry_rows, outer_rows};
use crate::tags::{ACCOUNT, NO_ALLOCS, NO_EXECS, NO_SIDES, SIDE};
use crate::trade_capture_report::NO_SIDES_ROW;
use crate::whole_number::{is_numeral, number_of};

/// Returns a fault of this tag.
pub fn fault_at(reason: SessionRejectReason, tag: u32) -> Fault
    ensures { result ≡ fault_at reason tag }
{
    Fault { tag, reason }
}

/// Finds the first fields with the tags of these rows, or their first fault: a repeated tag, or else a missing one. If a type is given, the
/// rows are those of the outer level of its messages.
#[inline(always)]
fn table_fault(
    fields: &Run<'_>,
    rows: &[Row],
    outer: Option<MsgType>,
    numbers: &mut Standings,
) -> Option<Fault>
    requires table { IsTable rows.now }
    requires outer { IfSome outer (λ msg_type. rows.now ≡ outer_rows msg_type) }
    ensures fault { MatchOption result (tags_fault rows.now fields.now ≡ None) (λ fault. tags_fault rows.now fields.now ≡ Some fault) }
    ensures first { MatchOption result (AreStandings rows.now fields.now numbers.new) (λ fault. ⊤) }
{
    if let Some(tag) = standings(fields, rows, outer, numbers) {
        return Some(fault_at(SessionRejectReason::TagAppearsMoreThanOnce, tag));
    }
    match missing(rows, numbers) {
        Some(tag) => Some(fault_at(SessionRejectReason::RequiredTagMissing, tag)),
        None => None,
    }
}

/// Returns the first fault of the rows of an entry.
fn tags_fault(fields: &Run<'_>, rows: &[Row]) -> Option<Fault>
    requires { IsTable rows.now }
    ensures { result ≡ tags_fault rows.now fields.now }
{
    let mut numbers = NONE_STANDS;
    table_fault(fields, rows, None, &mut numbers)
}

/// Returns whether a counter's number is the number of the group's entries.
fn is_counted(text: &[u8], group: &Run<'_>, first: u32) -> bool
    requires numeral { IsTrue (is_numeral text.now) }
    requires short { length group.now < 2 ^ 64 }
    ensures { result ≡ (digits_value 10 text.now == length (entries_by first group.now)) }
{
    match number_of(text) {
        Some(number) => has_entries(group, first, number),
        None => false,
    }
}

/// Returns a counter's fault: its text isn't a number, or isn't the number of the group's entries.
fn count_fault(counter: u32, text: &[u8], group: &Run<'_>, first: u32) -> Option<Fault>
    requires { length group.now < 2 ^ 64 }
    ensures { result ≡ count_fault counter text.now (length (entries_by first group.now)) }
{
    if !is_numeral(text) {
        return Some(fault_at(SessionRejectReason::IncorrectDataFormat, counter));
    }
    if is_counted(text, group, first) {
        None
    } else {
        Some(fault_at(SessionRejectReason::IncorrectNumInGroupCount, counter))
    }
}

/// Returns the first fault of a group's entries, testing each in full before the next.
fn entries_fault(group: &Run<'_>, first: u32, rows: &[Row]) -> Option<Fault>
    requires { IsTable rows.now }
    ensures { result ≡ entries_fault rows.now (entries_by first group.now) }
{
    let mut rest = group.copy();
    while let Some(entry) = next_entry(&mut rest, first) {
        if let Some(fault) = tags_fault(&entry, rows) {
            return Some(fault);
        }
    }
    None
}

/// Returns the first fault of a group: its counter's, or else its entries'.
#[inline(never)]
fn counted_fault(counter: u32, text: &[u8], group: &Run<'_>, rows: &[Row]) -> Option<Fault>
    requires short { length group.now < 2 ^ 64 }
    requires table { IsTable rows.now }
    ensures { result ≡ counted_fault rows.now counter (Some text.now) (entries_begun rows.now group.now) }
{
    let row = rows.first()?;
    match count_fault(counter, text, group, row.tag()) {
        Some(fault) => Some(fault),
        None => entries_fault(group, row.tag(), rows),
    }
}

/// Returns whether a group is a side and its account, and is counted as one, as in nearly every report.
#[inline(always)]
fn is_one_side(text: &[u8], group: &Run<'_>) -> bool
    ensures { IsTrue result → counted_fault (entry_rows NO_SIDES) NO_SIDES (Some text.now) (entries_begun (entry_rows NO_SIDES) group.now) ≡ None }
{
    if text.len() != 1 {
        return false;
    }
    if text[0] != b'1' {
        return false;
    }
    if group.len() != 2 {
        return false;
    }
    let side = group.get(0);
    let account = group.get(1);
    if side.tag != SIDE {
        return false;
    }
    account.tag == ACCOUNT
}

/// Returns the first fault of the group with this counter, given the number of the counter's first field.
#[inline(always)]
fn group_fault(fields: &Run<'_>, msg_type: MsgType, counter: u32, number: usize) -> Option<Fault>
    requires { IsStanding fields.now counter number }
    ensures { result ≡ group_fault msg_type fields.now counter }
{
    let rows = entry_rows(counter);
    if rows.is_empty() {
        return None;
    }
    match value_numbered(fields, number) {
        Some(text) => {
            let group = group_after(fields, msg_type, number);
            if counter == NO_SIDES && is_one_side(text, &group) {
                return None;
            }
            counted_fault(counter, text, &group, rows)
        }
        None => None,
    }
}

/// Returns the first fault of a message's groups, in order, given the numbers of the first fields with its outer tags.
#[inline(always)]
fn groups_fault(fields: &Run<'_>, msg_type: MsgType, numbers: &Standings) -> Option<Fault>
    requires { AreStandings (outer_rows msg_type) fields.now numbers.now }
    ensures { result ≡ groups_fault msg_type fields.now (body_rows msg_type) }
{
    match msg_type {
        MsgType::TradeCaptureReport => {
            group_fault(fields, msg_type, NO_SIDES, numbers[NO_SIDES_ROW])
        }
        MsgType::AllocationInstruction => {
            match group_fault(fields, msg_type, NO_EXECS, numbers[NO_EXECS_ROW]) {
                Some(fault) => Some(fault),
                None => group_fault(fields, msg_type, NO_ALLOCS, numbers[NO_ALLOCS_ROW]),
            }
        }
        _ => None,
    }
}

/// Finds the first fields with the outer tags of a message, or the first fault of its shape.
#[inline(always)]
fn typed_fault(fields: &Run<'_>, msg_type: MsgType, numbers: &mut Standings) -> Option<Fault>
    ensures fault { MatchOption result (shape_fault msg_type fields.now ≡ None) (λ fault. shape_fault msg_type fields.now ≡ Some fault) }
    ensures first { MatchOption result (AreStandings (outer_rows msg_type) fields.now numbers.new) (λ fault. ⊤) }
{
    match table_fault(fields, outer_rows(msg_type), Some(msg_type), numbers) {
        Some(fault) => Some(fault),
        None => groups_fault(fields, msg_type, numbers),
    }
}

/// Returns the same. Reports, which are more frequent than all other messages, have a pass of their own in which their table is known.
#[inline(always)]
pub fn shape_fault(fields: &Run<'_>, msg_type: MsgType, numbers: &mut Standings) -> Option<Fault>
    ensures fault { MatchOption result (shape_fault msg_type fields.now ≡ None) (λ fault. shape_fault msg_type fields.now ≡ Some fault) }
    ensures first { MatchOption result (AreStandings (outer_rows msg_type) fields.now numbers.new) (λ fault. ⊤) }
{
    match msg_type {
        MsgType::TradeCaptureReport => { typed_fault(fields, MsgType::TradeCaptureReport, numbers) }
        other => typed_fault(fields, other, numbers),
    }
}
