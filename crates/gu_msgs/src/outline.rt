//! A message of sound shape, and the values of its rows.

ghost use Rattle.std.specs.Prelude.{◌≡◌, ◌<◌, ◌+◌, ◌^◌, [], length, true, List, IfOk, MatchOption, MatchResult, None, Some, Ok, Err, ⊤};
ghost use Rattle.gu_terms.specs.Days.{WritesDay};
ghost use Rattle.gu_terms.specs.Names.{IsId};
ghost use Rattle.gu_terms.specs.NumberText.{MeansLots, MeansPrice};
ghost use Rattle.gu_msgs.specs.AllocStatuses.{status_number};
ghost use Rattle.gu_fix.specs.TagValue.{TagValue};
ghost use Rattle.gu_msgs.specs.Groups.{entries_begun, entries_by, group_of};
ghost use Rattle.gu_msgs.specs.Items.{IsFirstAtFault, message_items};
ghost use Rattle.gu_msgs.specs.Kinds.{IsJudged, IsNumber, SaysYes};
ghost use Rattle.gu_msgs.specs.Messages.{IsFlag};
ghost use Rattle.gu_msgs.specs.Outlines.{AreJudged, CountsEntries, HasOneEntry, IsCounter, IsPlain, MayMean, Means, ReadsTo, ReadsToOrMemory, entry_rows_at, row, tag_at, value_at};
ghost use Rattle.gu_msgs.specs.Rows.{is_required, kind_of};
ghost use Rattle.gu_msgs.specs.Shape.{fault_at, shape_fault};
ghost use Rattle.gu_msgs.specs.StandardHeader.{IsHeaderIn};
ghost use Rattle.gu_msgs.specs.Standings.{AreStandings};
ghost use Rattle.gu_msgs.specs.Tables.{entry_rows, outer_rows};
ghost use Rattle.gu_msgs.specs.declared.row.Kind.TheVariants as kind;
ghost use Rattle.gu_msgs.specs.declared.row.Row.TheVariants.{Optional, Required};

use crate::alloc_status::AllocStatus;
use crate::fault::{Fault, MsgFault};
use crate::groups::{group_after, next_entry};
use crate::kinds;
use crate::msg_type::MsgType;
use crate::reject_reason::SessionRejectReason;
use crate::run::Run;
use crate::shape::fault_at;
use crate::standard_header::HeaderRef;
use crate::standings::{Standings, value_numbered};
use crate::tables::{GREATEST, outer_rows};
use crate::test_req_id::TestReqId;
use gu_terms::{AccountId, Day, Id, Lots, OfferNo, Price, Symbol};
use std::alloc::Global;
use std::marker::Model;

/// The indexes of the header's tags in each table.
const MSG_TYPE_PLACE: usize = 2;

const SENDER_COMP_ID_PLACE: usize = 3;

const TARGET_COMP_ID_PLACE: usize = 4;

const MSG_SEQ_NUM_PLACE: usize = 5;

const POSS_DUP_FLAG_PLACE: usize = 7;

/// A message of sound shape, with the positions of its tags. Its values are read in the order of its type's table, so that the first that
/// isn't allowed is found first. To a contract it is its type and its fields.
#[derive(Drop)]
pub struct Outline<'n, 'a> {
    fields: Run<'a>,
    msg_type: MsgType,
    numbers: &'n Standings,
}

impl<'n, 'a> Model for Outline<'n, 'a> {
    ghost use Rattle.gu_msgs.specs.Outlines.{IsOutline, Outlined};

    ghost Value = { Outlined };

    ghost view = { λ o. record { kind = o.msg_type; fields = o.fields } };

    ghost invariant = { λ o. IsOutline o.msg_type o.fields o.numbers.now };
}

impl<'n, 'a> Outline<'n, 'a> {
    /// Returns the message with these fields, given the number of the first field for each tag.
    pub fn new(fields: Run<'a>, msg_type: MsgType, numbers: &'n Standings) -> Self
        requires shape { shape_fault msg_type fields ≡ None }
        requires standings { AreStandings (outer_rows msg_type) fields numbers.now }
        ensures { result ≡ record { kind = msg_type; fields = fields.entry } }
    {
        Outline {
            fields,
            msg_type,
            numbers,
        }
    }

    /// Returns the text of a row's tag, if the tag is present.
    #[inline(always)]
    fn text(&self, place: usize) -> Option<&'a [u8]>
        requires { place < length (outer_rows self.now.kind) }
        ensures { MatchOption result (value_at self.now place ≡ None) (λ text. value_at self.now place ≡ Some text.now) }
    {
        value_numbered(&self.fields, self.numbers[place])
    }

    /// Returns the text of a required tag.
    #[inline(always)]
    fn required(&self, place: usize) -> &'a [u8]
        requires within { place < length (outer_rows self.now.kind) }
        requires required { is_required (row self.now place) ≡ true }
        ensures { value_at self.now place ≡ Some result.now }
    {
        self.fields.get(self.numbers[place] - 1).value
    }

    /// Returns the fault of a row's value.
    #[cold]
    fn fault(&self, place: usize, reason: SessionRejectReason) -> Fault
        requires { place < length (outer_rows self.now.kind) }
        ensures { result ≡ fault_at reason (tag_at self.now place) }
    {
        fault_at(reason, outer_rows(self.msg_type)[place].tag())
    }

    /// Returns the value read from the text of a row that counts no group, or its fault.
    #[inline(always)]
    fn judged<T: Drop>(
        &self,
        place: usize,
        text: &[u8],
        read: Result<T, SessionRejectReason>,
    ) -> Result<T, Fault>
        requires within { place < length (outer_rows self.now.kind) }
        requires plain { entry_rows (tag_at self.now place) ≡ [] }
        requires judged { AreJudged self.now place }
        requires text { value_at self.now place ≡ Some text.now }
        requires read { IsJudged (kind_of (row self.now place)) text.now read }
        ensures { ReadsTo self.now (place + 1) (λ value. read ≡ Ok value) result }
    {
        match read {
            Ok(value) => Ok(value),
            Err(reason) => Err(self.fault(place, reason)),
        }
    }

    /// Returns the id in a row.
    #[inline(always)]
    pub fn id(&self, place: usize) -> Result<Id, Fault>
        requires row { IsPlain self.now place (Required (tag_at self.now place) kind.Id) }
        requires judged { AreJudged self.now place }
        ensures { ReadsTo self.now (place + 1) (Means self.now place (λ text id. text ≡ id)) result }
    {
        Ok(Id::known(self.id_text(place)?))
    }

    /// Returns the text of the id in a row.
    #[inline(always)]
    pub fn id_text(&self, place: usize) -> Result<&'a [u8], Fault>
        requires row { IsPlain self.now place (Required (tag_at self.now place) kind.Id) }
        requires judged { AreJudged self.now place }
        ensures read { ReadsTo self.now (place + 1) (Means self.now place (λ text id. text ≡ id.now)) result }
        ensures sound { IfOk result (λ text. IsId text.now) }
    {
        let text = self.required(place);
        match kinds::id(text) {
            Ok(_) => Ok(text),
            Err(reason) => Err(self.fault(place, reason)),
        }
    }

    /// Returns the account in a row.
    #[inline(always)]
    pub fn account(&self, place: usize) -> Result<AccountId, Fault>
        requires row { IsPlain self.now place (Required (tag_at self.now place) kind.Name) }
        requires judged { AreJudged self.now place }
        ensures { ReadsTo self.now (place + 1) (Means self.now place (λ text account. text ≡ account.name)) result }
    {
        let text = self.required(place);
        self.judged(place, text, kinds::account(text))
    }

    /// Returns the instrument in a row.
    #[inline(always)]
    pub fn symbol(&self, place: usize) -> Result<Symbol, Fault>
        requires row { IsPlain self.now place (Required (tag_at self.now place) kind.Name) }
        requires judged { AreJudged self.now place }
        ensures { ReadsTo self.now (place + 1) (Means self.now place (λ text symbol. text ≡ symbol.name)) result }
    {
        let text = self.required(place);
        self.judged(place, text, kinds::symbol(text))
    }

    /// Returns the lots in a row.
    #[inline(always)]
    pub fn lots(&self, place: usize) -> Result<Lots, Fault>
        requires row { IsPlain self.now place (Required (tag_at self.now place) kind.Lots) }
        requires judged { AreJudged self.now place }
        ensures { ReadsTo self.now (place + 1) (Means self.now place (λ text lots. MeansLots text lots)) result }
    {
        let text = self.required(place);
        self.judged(place, text, kinds::lots(text))
    }

    /// Returns the price in a row.
    #[inline(always)]
    pub fn price(&self, place: usize) -> Result<Price, Fault>
        requires row { IsPlain self.now place (Required (tag_at self.now place) kind.Price) }
        requires judged { AreJudged self.now place }
        ensures { ReadsTo self.now (place + 1) (Means self.now place (λ text price. MeansPrice text price)) result }
    {
        let text = self.required(place);
        self.judged(place, text, kinds::price(text))
    }

    /// Returns the day in a row that may be absent.
    #[inline(always)]
    pub fn day(&self, place: usize) -> Result<Option<Day>, Fault>
        requires row { IsPlain self.now place (Optional (tag_at self.now place) kind.Date) }
        requires judged { AreJudged self.now place }
        ensures { ReadsTo self.now (place + 1) (MayMean self.now place (λ text d. WritesDay text d.year d.month d.day)) result }
    {
        let Some(text) = self.text(place) else {
            return Ok(None);
        };
        Ok(Some(self.judged(place, text, kinds::day(text))?))
    }

    /// Returns the whole number in a row.
    #[inline(always)]
    pub fn number(&self, place: usize, least: u64, most: u64) -> Result<u64, Fault>
        requires row { IsPlain self.now place (Required (tag_at self.now place) (kind.Number least most)) }
        requires judged { AreJudged self.now place }
        ensures { ReadsTo self.now (place + 1) (Means self.now place (λ text n. IsNumber text n)) result }
    {
        let text = self.required(place);
        self.judged(place, text, kinds::number(text, least, most))
    }

    /// Returns the whole number in a row that may be absent.
    #[inline(always)]
    pub fn may_number(&self, place: usize, least: u64, most: u64) -> Result<Option<u64>, Fault>
        requires row { IsPlain self.now place (Optional (tag_at self.now place) (kind.Number least most)) }
        requires judged { AreJudged self.now place }
        ensures { ReadsTo self.now (place + 1) (MayMean self.now place (λ text n. IsNumber text n)) result }
    {
        let Some(text) = self.text(place) else {
            return Ok(None);
        };
        Ok(Some(self.judged(place, text, kinds::number(text, least, most))?))
    }

    /// Returns whether a row's value is `Y`; false if it is absent.
    #[inline(always)]
    pub fn flag(&self, place: usize) -> Result<bool, Fault>
        requires row { IsPlain self.now place (Optional (tag_at self.now place) kind.YesOrNo) }
        requires judged { AreJudged self.now place }
        ensures { ReadsTo self.now (place + 1) (IsFlag (tag_at self.now place) self.now.fields) result }
    {
        let Some(text) = self.text(place) else {
            return Ok(false);
        };
        self.judged(place, text, kinds::yes_or_no(text))
    }

    /// Returns the offer in a row.
    pub fn offer(&self, place: usize) -> Result<OfferNo, Fault>
        requires row { IsPlain self.now place (Required (tag_at self.now place) (kind.Number 1 16000000)) }
        requires judged { AreJudged self.now place }
        ensures { ReadsTo self.now (place + 1) (Means self.now place (λ text offer. IsNumber text offer)) result }
    {
        let text = self.required(place);
        self.judged(place, text, kinds::offer(text))
    }

    /// Returns the status in a row.
    pub fn status(&self, place: usize) -> Result<AllocStatus, Fault>
        requires row { IsPlain self.now place (Required (tag_at self.now place) kind.Status) }
        requires judged { AreJudged self.now place }
        ensures { ReadsTo self.now (place + 1) (Means self.now place (λ text status. IsNumber text (status_number status))) result }
    {
        let text = self.required(place);
        self.judged(place, text, kinds::status(text))
    }

    /// Returns the id of a TestRequest in a row.
    pub fn test_req_id(&self, alloc: Global, place: usize) -> Result<TestReqId, MsgFault>
        requires row { IsPlain self.now place (Required (tag_at self.now place) kind.TestReqId) }
        requires judged { AreJudged self.now place }
        ensures { ReadsToOrMemory self.now (place + 1) (Means self.now place (λ text id. text ≡ id)) result }
    {
        let text = self.required(place);
        let read = kinds::test_req_id(alloc, text)?;
        Ok(self.judged(place, text, read)?)
    }

    /// Reads the values of the header.
    #[inline(always)]
    pub fn header(&self) -> Result<(), Fault>
        ensures { ReadsTo self.now 10 (λ done. ⊤) result }
    {
        self.number(MSG_SEQ_NUM_PLACE, 0, GREATEST)?;
        self.flag(POSS_DUP_FLAG_PLACE)?;
        Ok(())
    }

    /// Returns the header as references: none of its tags is repeated.
    #[inline(always)]
    pub fn header_in(&self) -> HeaderRef<'a>
        ensures { IsHeaderIn self.now.fields result }
    {
        // Shows the prover: the shape is sound.
        let _ = &self.fields;
        HeaderRef {
            msg_type: Some(self.required(MSG_TYPE_PLACE)),
            sender_comp_id: Some(self.required(SENDER_COMP_ID_PLACE)),
            target_comp_id: Some(self.required(TARGET_COMP_ID_PLACE)),
            msg_seq_num: Some(self.required(MSG_SEQ_NUM_PLACE)),
            poss_dup_flag: self.text(POSS_DUP_FLAG_PLACE),
        }
    }

    /// Returns the number of entries in the group that a row counts.
    #[inline(always)]
    pub fn count(&self, place: usize, least: u64, most: u64) -> Result<u64, Fault>
        requires row { IsCounter self.now place (Required (tag_at self.now place) (kind.Number least most)) }
        requires judged { AreJudged self.now place }
        ensures { MatchResult result (λ n. CountsEntries self.now place least most n)
            (λ fault. IsFirstAtFault (message_items self.now.kind self.now.fields) fault) }
    {
        let _ = &self.fields;
        match kinds::number(self.required(place), least, most) {
            Ok(number) => Ok(number),
            Err(reason) => Err(self.fault(place, reason)),
        }
    }

    /// Returns the only entry of the group that a row counts, given the tag that it begins with.
    #[inline(always)]
    pub fn only_entry(&self, place: usize, first: u32) -> Result<Run<'a>, Fault>
        requires row { IsCounter self.now place (Required (tag_at self.now place) (kind.Number 1 1)) }
        requires first { (fields : List TagValue) → entries_begun (entry_rows_at self.now place) fields ≡ entries_by first fields }
        requires judged { AreJudged self.now place }
        ensures { MatchResult result (λ entry. HasOneEntry self.now place entry)
            (λ fault. IsFirstAtFault (message_items self.now.kind self.now.fields) fault) }
    {
        self.count(place, 1, 1)?;
        let mut group = self.group(place);
        let Some(entry) = next_entry(&mut group, first) else {
            unreachable!();
        };
        Ok(entry)
    }

    /// Returns the group that a row counts.
    #[inline(always)]
    pub fn group(&self, place: usize) -> Run<'a>
        requires { place < length (outer_rows self.now.kind) }
        ensures fields { result ≡ group_of self.now.kind (tag_at self.now place) self.now.fields }
        ensures short { length result < 2 ^ 64 }
    {
        group_after(&self.fields, self.msg_type, self.numbers[place])
    }
}
