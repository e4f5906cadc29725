//! The content of a sheet line.

ghost use Rattle.std.specs.Prelude.{◌≡◌};
ghost use Rattle.std.specs.Option.{option_map};
ghost use Rattle.gu_text.specs.SheetLines.{sheet_said, guarantor_said, path_said, offer_said, room_said, take_said, cut_said, end_said, words_say, said_by, spoken};
ghost use Rattle.gu_text.specs.SheetParts.{part_of, rank_of};
ghost use Rattle.gu_text.specs.Words.{words_of};

use crate::lines::LONGEST_LINE;
use crate::values::{key_said, name_of, number_of, offer_no_of};
use crate::words::{first_three_words, first_word, is_ragged, three_words, two_words};
use gu_terms::{AccountId, AgreementId, FirmId, Group, LimitKey, Name, OfferNo, Path, Take};
use gu_view::{Room, ViewOffer};

const SHEET: &[u8] = b"SHEET";

const OFFER: &[u8] = b"OFFER";

const ROOM: &[u8] = b"ROOM";

const TAKE: &[u8] = b"TAKE";

const CUT: &[u8] = b"CUT";

const END: &[u8] = b"END";

/// The group of a sheet, and the group's version.
#[derive(Clone, Copy)]
pub(crate) struct Header {
    pub(crate) group: Group,
    pub(crate) version: u64,
}

/// The content of a sheet line.
#[derive(Clone, Copy)]
pub(crate) enum SheetLine {
    Sheet(Header),
    Offer(ViewOffer),
    Room(Room),
    Take(Take),
    /// A key of the cut.
    CutKey(LimitKey),
    /// An offer of the cut.
    CutOffer(OfferNo),
    End,
}

/// The parts of a sheet, in order.
#[derive(Clone, Copy)]
pub(crate) enum Part {
    Head,
    Offers,
    Rooms,
    Takes,
    Cut,
    End,
}

impl Part {
    /// Returns its place among the parts.
    pub(crate) fn rank(self) -> u8
        ensures { result ≡ rank_of self }
    {
        match self {
            Part::Head => 0,
            Part::Offers => 1,
            Part::Rooms => 2,
            Part::Takes => 3,
            Part::Cut => 4,
            Part::End => 5,
        }
    }
}

impl SheetLine {
    /// Returns the part that the line belongs to.
    pub(crate) fn part(self) -> Part
        ensures { result ≡ part_of self }
    {
        match self {
            SheetLine::Sheet(_) => Part::Head,
            SheetLine::Offer(_) => Part::Offers,
            SheetLine::Room(_) => Part::Rooms,
            SheetLine::Take(_) => Part::Takes,
            SheetLine::CutKey(_) | SheetLine::CutOffer(_) => Part::Cut,
            SheetLine::End => Part::End,
        }
    }
}

/// Returns the head: the group and its version.
fn sheet_said(words: &[u8]) -> Option<SheetLine>
    ensures { result ≡ sheet_said (words_of words.now) }
{
    let (group, version) = two_words(words)?;
    let name = name_of(group)?;
    let version = number_of(version)?;
    let group = Group { name };
    Some(SheetLine::Sheet(Header { group, version }))
}

/// Returns the guarantor of an offer's carrying firm, or Some(None) if no word is left.
fn guarantor_said(words: &[u8]) -> Option<Option<FirmId>>
    ensures { result ≡ guarantor_said (words_of words.now) }
{
    let Some((word, rest)) = first_word(words) else {
        return Some(None);
    };
    let name = name_of(word)?;
    match first_word(rest) {
        None => Some(Some(FirmId { name })),
        Some(_) => None,
    }
}

/// Returns the path of an offer under an agreement.
fn path_said(agreement: Name, words: &[u8]) -> Option<Path>
    ensures { result ≡ path_said agreement (words_of words.now) }
{
    let (executing, account, carrying, rest) = first_three_words(words)?;
    let executing = name_of(executing)?;
    let account = name_of(account)?;
    let carrying = name_of(carrying)?;
    let guarantor = guarantor_said(rest)?;
    Some(Path::new(
        FirmId { name: executing },
        AgreementId { name: agreement },
        AccountId { name: account },
        FirmId { name: carrying },
        guarantor,
    ))
}

/// Returns an offer: its number, its lots, its agreement and its path.
fn offer_said(words: &[u8]) -> Option<SheetLine>
    ensures { result ≡ offer_said (words_of words.now) }
{
    let (number, lots, agreement, rest) = first_three_words(words)?;
    let number = offer_no_of(number)?;
    let lots = number_of(lots)?;
    let name = name_of(agreement)?;
    let path = path_said(name, rest)?;
    let agreement = AgreementId { name };
    Some(SheetLine::Offer(ViewOffer {
        number,
        lots,
        agreement,
        path,
    }))
}

/// Returns the room of a key.
fn room_said(words: &[u8]) -> Option<SheetLine>
    ensures { result ≡ room_said (words_of words.now) }
{
    let (kind, name, lots) = three_words(words)?;
    let key = key_said(kind, name)?;
    let lots = number_of(lots)?;
    Some(SheetLine::Room(Room { key, lots }))
}

/// Returns the lots taken from an offer.
fn take_said(words: &[u8]) -> Option<SheetLine>
    ensures { result ≡ take_said (words_of words.now) }
{
    let (number, lots) = two_words(words)?;
    let offer = offer_no_of(number)?;
    let lots = number_of(lots)?;
    Some(SheetLine::Take(Take { offer, lots }))
}

/// Returns a key or an offer of the cut.
fn cut_said(words: &[u8]) -> Option<SheetLine>
    ensures { result ≡ cut_said (words_of words.now) }
{
    let (kind, member) = two_words(words)?;
    if kind == OFFER {
        let number = offer_no_of(member)?;
        return Some(SheetLine::CutOffer(number));
    }
    let key = key_said(kind, member)?;
    Some(SheetLine::CutKey(key))
}

/// Returns the end, if no word follows it.
fn end_said(words: &[u8]) -> Option<SheetLine>
    ensures { result ≡ end_said (words_of words.now) }
{
    match first_word(words) {
        None => Some(SheetLine::End),
        Some(_) => None,
    }
}

/// Returns the content of a line with this first word and these words after it.
fn words_say(kind: &[u8], words: &[u8]) -> Option<SheetLine>
    ensures { result ≡ words_say kind.now (words_of words.now) }
{
    if kind == SHEET {
        return sheet_said(words);
    }
    if kind == OFFER {
        return offer_said(words);
    }
    if kind == ROOM {
        return room_said(words);
    }
    if kind == TAKE {
        return take_said(words);
    }
    if kind == CUT {
        return cut_said(words);
    }
    if kind == END {
        return end_said(words);
    }
    None
}

/// Returns the content of a line of words.
pub(crate) fn spoken(line: &[u8]) -> Option<SheetLine>
    ensures { result ≡ spoken line.now }
{
    if line.len() > LONGEST_LINE || is_ragged(line) {
        return None;
    }
    let (kind, words) = first_word(line)?;
    words_say(kind, words)
}
