//! The book: a reference and the history of all entries.
#![tactic(auto)]

mod answering;
mod asking;
mod book;
mod current;
mod deciding;
mod deed;
mod error;
mod given_up;
mod holding;
mod limits;
mod positions;
mod showing;
mod sweeping;
mod telling;
mod totals;
mod touching;
mod versions;
mod views;

pub use asking::Answer;
pub use book::Book;
pub use error::{AskError, CommitError, EnterError, SeenError};
pub use gu_notices::{FirmFilter, FirmPlace, LONGEST_STRETCH};
pub use gu_rules::{
    a_group_has_few_open_offers, an_entry_elsewhere_leaves_the_view, an_entry_makes_few_offers,
    as_many_lots_are_held_long_as_short, each_offer_gives_up_a_trade_by_an_agreement,
    entries_elsewhere_leave_the_view, equal_versions_are_untouched, later_touches_come_after,
    no_more_is_given_back_than_was_taken, no_more_is_given_up_than_was_traded,
    no_more_is_moved_than_an_offer_has, no_more_leaves_an_account_than_it_traded,
    stretches_join_to_the_whole, the_least_refusal_is_given,
};
pub use sweeping::{kept_sweep, swept_receipt};
