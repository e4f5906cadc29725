//! Reading a field's text as a value of its kind, or the reason that it isn't allowed.

ghost use Rattle.std.specs.Prelude.{◌≡◌, IfOk, MatchResult};
ghost use Rattle.gu_terms.specs.Days.{WritesDay};
ghost use Rattle.gu_terms.specs.NumberText.{MeansLots, MeansPrice};
ghost use Rattle.gu_msgs.specs.AllocStatuses.{status_number};
ghost use Rattle.gu_msgs.specs.Kinds.{IsJudged, IsNoNumber, IsNumber, SaysYes, allowed};
ghost use Rattle.gu_msgs.specs.Messages.{side_number};
ghost use Rattle.gu_msgs.specs.declared.row.Kind.TheVariants as kind;

use crate::alloc_status::AllocStatus;
use crate::reject_reason::SessionRejectReason;
use crate::test_req_id::TestReqId;
use crate::whole_number::{is_numeral, number_of, short_number};
use gu_terms::{
    AccountId, Day, Id, Lots, NumberError, OfferNo, Price, Side, Symbol, read_lots, read_price,
};
use std::alloc::{AllocError, Global};

/// Returns the value read, or an error if there is none.
fn allowed<T: Drop>(value: Option<T>) -> Result<T, SessionRejectReason>
    ensures { result ≡ allowed value }
{
    match value {
        Some(value) => Ok(value),
        None => Err(SessionRejectReason::ValueIsIncorrect),
    }
}

/// Returns the id in a text.
pub fn id(text: &[u8]) -> Result<Id, SessionRejectReason>
    ensures judged { IsJudged kind.Id text.now result }
    ensures means { IfOk result (λ id. text.now ≡ id) }
{
    allowed(Id::new(text))
}

/// Returns the account in a text.
#[inline(always)]
pub fn account(text: &[u8]) -> Result<AccountId, SessionRejectReason>
    ensures judged { IsJudged kind.Name text.now result }
    ensures means { IfOk result (λ account. text.now ≡ account.name) }
{
    allowed(AccountId::new(text))
}

/// Returns the instrument in a text.
#[inline(always)]
pub fn symbol(text: &[u8]) -> Result<Symbol, SessionRejectReason>
    ensures judged { IsJudged kind.Name text.now result }
    ensures means { IfOk result (λ symbol. text.now ≡ symbol.name) }
{
    allowed(Symbol::new(text))
}

/// Returns the id of a TestRequest in a text.
pub fn test_req_id(
    alloc: Global,
    text: &[u8],
) -> Result<Result<TestReqId, SessionRejectReason>, AllocError>
    ensures judged { IfOk result (IsJudged kind.TestReqId text.now) }
    ensures means { IfOk result (λ read. IfOk read (λ id. text.now ≡ id)) }
{
    Ok(allowed(TestReqId::new(alloc, text)?))
}

/// Returns the lots in a text.
#[inline(always)]
pub fn lots(text: &[u8]) -> Result<Lots, SessionRejectReason>
    ensures judged { IsJudged kind.Lots text.now result }
    ensures means { IfOk result (MeansLots text.now) }
{
    match read_lots(text) {
        Ok(lots) => Ok(lots),
        Err(NumberError::BadNumber) => Err(SessionRejectReason::IncorrectDataFormat),
        Err(NumberError::OutOfRange) => Err(SessionRejectReason::ValueIsIncorrect),
    }
}

/// Returns the price in a text.
#[inline(always)]
pub fn price(text: &[u8]) -> Result<Price, SessionRejectReason>
    ensures judged { IsJudged kind.Price text.now result }
    ensures means { IfOk result (MeansPrice text.now) }
{
    match read_price(text) {
        Ok(price) => Ok(price),
        Err(NumberError::BadNumber) => Err(SessionRejectReason::IncorrectDataFormat),
        Err(NumberError::OutOfRange) => Err(SessionRejectReason::ValueIsIncorrect),
    }
}

/// Returns the day in a text.
#[inline(always)]
pub fn day(text: &[u8]) -> Result<Day, SessionRejectReason>
    ensures judged { IsJudged kind.Date text.now result }
    ensures means { IfOk result (λ d. WritesDay text.now d.year d.month d.day) }
{
    match Day::read(text) {
        Ok(day) => Ok(day),
        Err(NumberError::BadNumber) => Err(SessionRejectReason::IncorrectDataFormat),
        Err(NumberError::OutOfRange) => Err(SessionRejectReason::ValueIsIncorrect),
    }
}

/// Returns whether the text is `Y`; it must be `Y` or `N`.
pub fn yes_or_no(text: &[u8]) -> Result<bool, SessionRejectReason>
    ensures judged { IsJudged kind.YesOrNo text.now result }
    ensures means { IfOk result (SaysYes text.now) }
{
    match text {
        [b'Y'] => Ok(true),
        [b'N'] => Ok(false),
        _ => Err(SessionRejectReason::ValueIsIncorrect),
    }
}

/// Returns the whole number of 64 bits in a text.
#[inline(never)]
fn any_number(text: &[u8]) -> Result<u64, SessionRejectReason>
    ensures { MatchResult result (IsNumber text.now) (IsNoNumber text.now) }
{
    if !is_numeral(text) {
        return Err(SessionRejectReason::IncorrectDataFormat);
    }
    allowed(number_of(text))
}

/// Returns the same. Most are short.
fn whole_number(text: &[u8]) -> Result<u64, SessionRejectReason>
    ensures { MatchResult result (IsNumber text.now) (IsNoNumber text.now) }
{
    match short_number(text) {
        Some(number) => Ok(number),
        None => any_number(text),
    }
}

/// Returns the whole number in a text, from `least` to `most`.
pub fn number(text: &[u8], least: u64, most: u64) -> Result<u64, SessionRejectReason>
    ensures judged { IsJudged (kind.Number least most) text.now result }
    ensures means { IfOk result (IsNumber text.now) }
{
    match whole_number(text)? {
        number if least <= number && number <= most => Ok(number),
        _ => Err(SessionRejectReason::ValueIsIncorrect),
    }
}

/// Returns the offer number in a text.
pub fn offer(text: &[u8]) -> Result<OfferNo, SessionRejectReason>
    ensures judged { IsJudged (kind.Number 1 16000000) text.now result }
    ensures means { IfOk result (IsNumber text.now) }
{
    allowed(OfferNo::new(whole_number(text)?))
}

/// Returns the side in a text.
#[inline(always)]
pub fn side(text: &[u8]) -> Result<Side, SessionRejectReason>
    ensures judged { IsJudged (kind.Number 1 2) text.now result }
    ensures means { IfOk result (λ side. IsNumber text.now (side_number side)) }
{
    match whole_number(text)? {
        1 => Ok(Side::Buy),
        2 => Ok(Side::Sell),
        _ => Err(SessionRejectReason::ValueIsIncorrect),
    }
}

/// Returns the status of an allocation in a text.
pub fn status(text: &[u8]) -> Result<AllocStatus, SessionRejectReason>
    ensures judged { IsJudged kind.Status text.now result }
    ensures means { IfOk result (λ status. IsNumber text.now (status_number status)) }
{
    allowed(AllocStatus::of_number(whole_number(text)?))
}
