//! Which entries touch a group.

ghost use Rattle.std.specs.Prelude.{◌≡◌, ◌++◌, ◌∷◌, [], List, OnOk};
ghost use Rattle.gu_terms.specs.declared.entry.Entry.{Entry as EntryOf};
ghost use Rattle.gu_terms.specs.declared.entry.Entry.TheVariants.{Asked};
ghost use Rattle.gu_terms.specs.declared.reply.Reply.TheVariants.{Accepted};
ghost use Rattle.gu_rules.specs.Versions.{is_of_group, touches};
ghost use Rattle.gu_world.specs.Blame.{own_of};

use gu_terms::{Command, Done, Entry, Group, OfferNo, Reply};
use std::alloc::AllocError;

/// Returns whether an offer is in the group, given this for each offer so far, by number.
fn is_own(own: &[bool], offer: OfferNo, group: &Group) -> bool
    ensures { (before : List EntryOf) → own.now ≡ own_of before group.now → result ≡ is_of_group before group.now offer }
{
    let place = offer.get() as usize - 1;
    match own.get(place) {
        Some(own) => *own,
        None => false,
    }
}

/// Returns whether an accepted command touches the group.
fn is_touched_by(own: &[bool], group: &Group, command: &Command, done: Done) -> bool
    ensures { (before : List EntryOf) → own.now ≡ own_of before group.now → result ≡ touches before group.now (Asked command.now (Accepted done)) }
{
    match (command, done) {
        (Command::OpenDay(_), Done::Opened) => true,
        (Command::SetLimit(limit), Done::LimitSet) => limit.group == *group,
        (Command::GiveUp(_), Done::Offered { group: at, .. }) => at == *group,
        (Command::Claim(claim), Done::Claimed { .. }) => is_own(own, claim.offer, group),
        (Command::Refuse(refusal), Done::Refused { .. }) => is_own(own, refusal.offer, group),
        (Command::Reverse(reversal), Done::Reversed { .. }) => is_own(own, reversal.offer, group),
        _ => false,
    }
}

/// Returns whether an entry touches the group.
pub fn is_touching(own: &[bool], group: &Group, entry: &Entry) -> bool
    ensures { (before : List EntryOf) → own.now ≡ own_of before group.now → result ≡ touches before group.now entry.now }
{
    match entry {
        Entry::Swept(sweep) => sweep.group == *group,
        Entry::Asked { command, reply } => match *reply {
            Reply::Accepted(done) => is_touched_by(own, group, command, done),
            Reply::Denied(_) => false,
        },
    }
}
