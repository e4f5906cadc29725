//! Writing sweep sheets.

ghost use Rattle.std.specs.Prelude.{◌≡◌, ◌<◌, ◌≤◌, ◌++◌, ◌∷◌, [], ◌+◌, codes, length, vec_capacity, vec_len, AllPairs, IfOk, OnOk};
ghost use Rattle.std.specs.Fmt.{decimal};
ghost use Rattle.std.specs.List.{flat_map};
ghost use Rattle.gu_terms.specs.Takes.{IsAscending};
ghost use Rattle.gu_text.specs.SheetText.{cut_key_line, cut_offer_line, head_line, offer_line, path_words, room_line, sheet_text, take_line};
ghost use Rattle.gu_text.specs.Texts.{line_of};

use crate::replies::{kind_word, put_key};
use crate::reserved::{LINE_ROOM, put_last_number, put_last_word, put_number, put_word};
use crate::takes_in_order::{from_offer, lots_in_front};
use crate::texts::append_last_word;
use gu_terms::{Cut, OfferNo, Path, Take, Takes};
use gu_view::{Room, View, ViewOffer};
use std::alloc::{AllocError, Global};

/// Appends the head of a sheet: the group and its version.
fn append_head(output: &mut Vec<u8>, view: &View) -> Result<(), AllocError>
    ensures { OnOk result (output.new.items ≡ output.old.items ++ head_line view.now) }
{
    let group = view.group();
    output.reserve(LINE_ROOM)?;
    put_word(output, b"SHEET");
    put_word(output, group.get());
    put_last_number(output, view.version());
    Ok(())
}

/// Appends the names on a path except its agreement's, which end the line. There is room for them.
fn put_path(output: &mut Vec<u8>, path: &Path)
    requires { vec_len output.old + 84 ≤ vec_capacity output.old }
    ensures path { output.new.items ≡ output.old.items ++ line_of (path_words path.now) }
    ensures some { 4 ≤ length path.now }
{
    match path.keys() {
        [executing, _, account, carrying] => {
            put_word(output, executing.name());
            put_word(output, account.name());
            put_last_word(output, carrying.name());
        }
        [executing, _, account, carrying, guarantor] => {
            put_word(output, executing.name());
            put_word(output, account.name());
            put_word(output, carrying.name());
            put_last_word(output, guarantor.name());
        }
        _ => unreachable!(),
    }
}

#[tactic(auto, using(crate::proofs::JoinedWords::path_line))]
/// Appends an offer: its number, its lots, its agreement and its path.
fn append_offer(output: &mut Vec<u8>, offer: &ViewOffer) -> Result<(), AllocError>
    ensures { OnOk result (output.new.items ≡ output.old.items ++ offer_line offer.now) }
{
    output.reserve(LINE_ROOM)?;
    put_word(output, b"OFFER");
    put_number(output, offer.number.get());
    put_number(output, offer.lots);
    put_word(output, offer.agreement.get());
    put_path(output, &offer.path);
    Ok(())
}

/// Appends offers.
fn append_offers(output: &mut Vec<u8>, offers: &[ViewOffer]) -> Result<(), AllocError>
    ensures { OnOk result (output.new.items ≡ output.old.items ++ flat_map offer_line offers.now) }
{
    for offer in offers {
        append_offer(output, offer)?;
    }
    Ok(())
}

/// Appends the room of a key.
fn append_room(output: &mut Vec<u8>, room: &Room) -> Result<(), AllocError>
    ensures { OnOk result (output.new.items ≡ output.old.items ++ room_line room.now) }
{
    output.reserve(LINE_ROOM)?;
    put_word(output, b"ROOM");
    put_word(output, kind_word(&room.key));
    put_word(output, room.key.name());
    put_last_number(output, room.lots);
    Ok(())
}

/// Appends rooms.
fn append_rooms(output: &mut Vec<u8>, rooms: &[Room]) -> Result<(), AllocError>
    ensures { OnOk result (output.new.items ≡ output.old.items ++ flat_map room_line rooms.now) }
{
    for room in rooms {
        append_room(output, room)?;
    }
    Ok(())
}

/// Appends the lots taken from an offer.
fn append_take(output: &mut Vec<u8>, offer: OfferNo, lots: u64) -> Result<(), AllocError>
    ensures { OnOk result (output.new.items ≡ output.old.items ++ line_of (codes "TAKE" ∷ decimal offer ∷ decimal lots ∷ [])) }
{
    output.reserve(LINE_ROOM)?;
    put_word(output, b"TAKE");
    put_number(output, offer.get());
    put_last_number(output, lots);
    Ok(())
}

/// Appends a take for each offer, going through both lists side by side.
fn append_takes(
    output: &mut Vec<u8>,
    takes: &[Take],
    offers: &[ViewOffer],
) -> Result<(), AllocError>
    requires takes { IsAscending takes.now }
    requires offers { AllPairs (λ a b. a.number < b.number) offers.now }
    ensures { OnOk result (output.new.items ≡ output.old.items ++ flat_map (take_line takes.now) offers.now) }
{
    let mut rest = takes;
    for offer in offers {
        rest = from_offer(rest, offer.number);
        append_take(output, offer.number, lots_in_front(rest, offer.number))?;
    }
    Ok(())
}

/// Appends the key of a room if it is in the cut.
fn append_cut_key(output: &mut Vec<u8>, cut: &Cut, room: &Room) -> Result<(), AllocError>
    ensures { OnOk result (output.new.items ≡ output.old.items ++ cut_key_line cut.now room.now) }
{
    if !cut.has_key(room.key) {
        return Ok(());
    }
    output.reserve(LINE_ROOM)?;
    put_word(output, b"CUT");
    put_key(output, &room.key);
    Ok(())
}

/// Appends the keys of the cut, in the order of the rooms.
fn append_cut_keys(output: &mut Vec<u8>, cut: &Cut, rooms: &[Room]) -> Result<(), AllocError>
    ensures { OnOk result (output.new.items ≡ output.old.items ++ flat_map (cut_key_line cut.now) rooms.now) }
{
    for room in rooms {
        append_cut_key(output, cut, room)?;
    }
    Ok(())
}

/// Appends the number of an offer if it is in the cut.
fn append_cut_offer(output: &mut Vec<u8>, cut: &Cut, offer: &ViewOffer) -> Result<(), AllocError>
    ensures { OnOk result (output.new.items ≡ output.old.items ++ cut_offer_line cut.now offer.now) }
{
    if !cut.has_offer(offer.number) {
        return Ok(());
    }
    output.reserve(LINE_ROOM)?;
    put_word(output, b"CUT");
    put_word(output, b"OFFER");
    put_last_number(output, offer.number.get());
    Ok(())
}

/// Appends the offers of the cut, in the order of the offers.
fn append_cut_offers(
    output: &mut Vec<u8>,
    cut: &Cut,
    offers: &[ViewOffer],
) -> Result<(), AllocError>
    ensures { OnOk result (output.new.items ≡ output.old.items ++ flat_map (cut_offer_line cut.now) offers.now) }
{
    for offer in offers {
        append_cut_offer(output, cut, offer)?;
    }
    Ok(())
}

/// Appends the sheet of takes and a cut of a view. It omits what they name and the view lacks.
pub fn append_sheet(
    output: &mut Vec<u8>,
    view: &View,
    takes: &Takes,
    cut: &Cut,
) -> Result<(), AllocError>
    ensures text { OnOk result (output.new.items ≡ output.old.items ++ sheet_text view.now takes.now cut.now) }
{
    append_head(output, view)?;
    append_offers(output, view.offers())?;
    append_rooms(output, view.rooms())?;
    append_takes(output, takes.as_slice(), view.offers())?;
    append_cut_keys(output, cut, view.rooms())?;
    append_cut_offers(output, cut, view.offers())?;
    append_last_word(output, b"END")
}

/// Returns the sheet of takes and a cut of a view.
pub fn sheet_text(
    alloc: Global,
    view: &View,
    takes: &Takes,
    cut: &Cut,
) -> Result<Vec<u8>, AllocError>
    ensures text { IfOk result (λ text. text.items ≡ sheet_text view.now takes.now cut.now) }
{
    let mut output = Vec::new(alloc);
    append_sheet(&mut output, view, takes, cut)?;
    Ok(output)
}
