//! The rule book: the state that a history of commands and sweeps leads to, which histories are legal, and the laws that hold for those.
#![tactic(auto)]

mod laws;
mod laws_of_accounts;
mod laws_of_offers;

pub use laws::{
    an_entry_elsewhere_leaves_the_view, equal_versions_are_untouched, later_touches_come_after,
    stretches_join_to_the_whole, the_least_refusal_is_given,
};
pub use laws_of_accounts::{
    as_many_lots_are_held_long_as_short, entries_elsewhere_leave_the_view,
    no_more_is_charged_than_a_limit_allows, no_more_leaves_an_account_than_it_traded,
};
pub use laws_of_offers::{
    a_group_has_few_open_offers, an_entry_makes_few_offers,
    each_offer_gives_up_a_trade_by_an_agreement, no_more_is_given_back_than_was_taken,
    no_more_is_given_up_than_was_traded, no_more_is_moved_than_an_offer_has,
};
