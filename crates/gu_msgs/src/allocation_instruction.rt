//! Give-ups (FIX: AllocationInstruction).

ghost use Rattle.std.specs.Prelude.{◌≡◌, ◌<◌, ◌≤◌, ◌^◌, length, None, Some, MatchResult};
ghost use Rattle.gu_msgs.specs.Groups.{entries_by, entries_of};
ghost use Rattle.gu_msgs.specs.Messages.{AreAllocs, IsAlloc, Says};
ghost use Rattle.gu_msgs.specs.Outlines.{AreJudged, HasExec, IsShaped, IsTypedRefusal, ReadsEntriesOrMemory, ReadsEntry, ReadsTo, ReadsToOrMemory};
ghost use Rattle.gu_msgs.specs.Shape.{entries_fault, tags_fault};
ghost use Rattle.gu_msgs.specs.Tables.{entry_rows};
ghost use Rattle.gu_msgs.specs.Values.{first_value};
ghost use Rattle.gu_msgs.specs.declared.msg_type.MsgType.TheVariants as kind;

use crate::boxed::Boxed;
use crate::fault::{Fault, MsgFault};
use crate::groups::{next_entry, text_at, value_at};
use crate::inbound::{AllocationInstruction, Inbound};
use crate::kinds;
use crate::outline::Outline;
use crate::reject_reason::SessionRejectReason;
use crate::run::Run;
use crate::shape::fault_at;
use crate::tags::{ALLOC_ACCOUNT, ALLOC_QTY, EXEC_ID, NO_ALLOCS, NO_EXECS, QUANTITY};
use gu_terms::{Id, Line, Lines, MOST_LINES};
use std::alloc::Global;

/// The indexes of the rows in its table.
const ALLOC_ID_ROW: usize = 10;

const ALLOC_TRANS_TYPE_ROW: usize = 11;

const QUANTITY_ROW: usize = 12;

pub const NO_EXECS_ROW: usize = 13;

pub const NO_ALLOCS_ROW: usize = 14;

/// Returns the id of the report in an entry.
fn entry_exec(entry: &Run<'_>) -> Result<Id, Fault>
    requires { tags_fault (entry_rows NO_EXECS) entry.now ≡ None }
    ensures { ReadsEntry (entry_rows NO_EXECS) entry.now (λ id. first_value EXEC_ID entry.now ≡ Some id) result }
{
    let id = value_at(EXEC_ID, kinds::id(text_at(entry, EXEC_ID)))?;
    Ok(id)
}

/// Returns the id of a give-up's one report.
#[tactic(auto, unfolding(crate::specs::Tables::header_rows, crate::specs::Tables::body_rows, crate::specs::Tables::entry_rows))]
fn exec_id(outline: &Outline<'_, '_>) -> Result<Id, Fault>
    requires kind { outline.now.kind ≡ kind.AllocationInstruction }
    requires judged { AreJudged outline.now 13 }
    ensures { ReadsTo outline.now 14 (HasExec outline.now.fields) result }
{
    entry_exec(&outline.only_entry(NO_EXECS_ROW, EXEC_ID)?)
}

/// Returns the line in an entry.
fn entry_line(entry: &Run<'_>) -> Result<Line, Fault>
    requires { tags_fault (entry_rows NO_ALLOCS) entry.now ≡ None }
    ensures { ReadsEntry (entry_rows NO_ALLOCS) entry.now (IsAlloc entry.now) result }
{
    let account = value_at(ALLOC_ACCOUNT, kinds::account(text_at(entry, ALLOC_ACCOUNT)))?;
    let lots = value_at(ALLOC_QTY, kinds::lots(text_at(entry, ALLOC_QTY)))?;
    Ok(Line { account, lots })
}

/// Returns the lines in the entries of a group.
fn lines_of(alloc: Global, group: &Run<'_>) -> Result<Vec<Line>, MsgFault>
    requires few { length (entries_by ALLOC_ACCOUNT group.now) ≤ 16 }
    requires tags { entries_fault (entry_rows NO_ALLOCS) (entries_by ALLOC_ACCOUNT group.now) ≡ None }
    ensures { ReadsEntriesOrMemory (entry_rows NO_ALLOCS) (entries_by ALLOC_ACCOUNT group.now)
        (λ lines. AreAllocs (entries_by ALLOC_ACCOUNT group.now) lines.items) result }
{
    let mut lines = Vec::with_capacity(alloc, MOST_LINES)?;
    let mut rest = group.copy();
    while let Some(entry) = next_entry(&mut rest, ALLOC_ACCOUNT) {
        lines.push_reserved(entry_line(&entry)?);
    }
    Ok(lines)
}

/// Returns the lines of a give-up.
#[tactic(auto, unfolding(crate::specs::Tables::header_rows, crate::specs::Tables::body_rows, crate::specs::Tables::entry_rows))]
fn lines(alloc: Global, outline: &Outline<'_, '_>) -> Result<Lines, MsgFault>
    requires kind { outline.now.kind ≡ kind.AllocationInstruction }
    requires judged { AreJudged outline.now 14 }
    ensures { ReadsToOrMemory outline.now 15 (AreAllocs (entries_of kind.AllocationInstruction NO_ALLOCS outline.now.fields)) result }
{
    outline.count(NO_ALLOCS_ROW, 1, 16)?;
    let list = lines_of(alloc, &outline.group(NO_ALLOCS_ROW))?;
    Ok(Lines::known(list))
}

/// Returns the give-up in a message.
#[tactic(auto, unfolding(crate::specs::Tables::header_rows, crate::specs::Tables::body_rows, crate::specs::Tables::entry_rows))]
pub fn read_allocation_instruction(
    alloc: Global,
    outline: &Outline<'_, '_>,
) -> Result<Inbound, MsgFault>
    requires shaped { IsShaped kind.AllocationInstruction outline.now }
    requires judged { AreJudged outline.now 10 }
    ensures { MatchResult result (Says outline.now.fields) (IsTypedRefusal kind.AllocationInstruction outline.now.fields) }
{
    let alloc_id = outline.id(ALLOC_ID_ROW)?;
    outline.may_number(ALLOC_TRANS_TYPE_ROW, 0, 0)?;
    let quantity = outline.lots(QUANTITY_ROW)?;
    let exec_id = exec_id(outline)?;
    let lines = lines(alloc, outline)?;
    if quantity.get() != lines.lots() {
        return Err(MsgFault::Rejected(fault_at(SessionRejectReason::ValueIsIncorrect, QUANTITY)));
    }
    let give_up = AllocationInstruction {
        alloc_id,
        exec_id,
        lines,
    };
    Ok(Inbound::AllocationInstruction(Boxed::new(alloc, give_up)?))
}
