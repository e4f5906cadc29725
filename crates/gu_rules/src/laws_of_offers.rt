//! Laws of offers in every legal history.

ghost use Rattle.std.specs.Prelude.{◌≡◌, ◌≤◌, ◌*◌, true, is_some, length, List, Some};
ghost use Rattle.gu_terms.specs.declared.account.AccountId.{AccountId as AccountOf};
ghost use Rattle.gu_terms.specs.declared.agreement.AgreementId.{AgreementId as AgreementOf};
ghost use Rattle.gu_terms.specs.declared.entry.Entry.{Entry as EntryOf};
ghost use Rattle.gu_terms.specs.declared.firm.FirmId.{FirmId as FirmOf};
ghost use Rattle.gu_terms.specs.declared.group.Group.{Group as GroupOf};
ghost use Rattle.gu_limits.specs.Paths.{path_of};
ghost use Rattle.gu_ref.specs.Reference.{agreement_between};
ghost use Rattle.gu_ref.specs.Rules.{IsSound};
ghost use Rattle.gu_ref.specs.Tables.{Tables};
ghost use Rattle.gu_offers.specs.Rows.{open_count};
ghost use Rattle.gu_rules.specs.Laws.{AllGiveUpTrades};
ghost use Rattle.gu_rules.specs.Legal.{IsLegal};
ghost use Rattle.gu_rules.specs.Offers.{offers_of, standing_of};
ghost use Rattle.gu_rules.specs.Orderly.{AreWithin, IsBalanced, IsCovered};
ghost use Rattle.gu_rules.specs.Reports.{reports_of};

/// No more lots are moved from an offer than it has.
pub fn no_more_is_moved_than_an_offer_has()
    ensures { (reference : Tables) (history : List EntryOf) → IsLegal reference history → AreWithin (standing_of history) }
{}

/// No more is given back to an offer than was taken from it, over all entries and over those since the day was opened: so the subtraction
/// that gives the lots moved never truncates.
pub fn no_more_is_given_back_than_was_taken()
    ensures { (reference : Tables) (history : List EntryOf) → IsLegal reference history → IsBalanced history }
{}

/// The offers of a report hold no more lots than it has, and none until it is a side of a trade.
pub fn no_more_is_given_up_than_was_traded()
    ensures { (reference : Tables) (history : List EntryOf) → IsLegal reference history
        → IsCovered (reports_of history) (standing_of history) }
{}

/// Each offer gives up a report that is a side of a trade, in the group of the report's instrument, under an agreement; and each agreement
/// has its path.
pub fn each_offer_gives_up_a_trade_by_an_agreement()
    ensures given { (reference : Tables) (history : List EntryOf) → IsLegal reference history → AllGiveUpTrades reference history }
    ensures paths { (reference : Tables) (firm : FirmOf) (account : AccountOf) (agreement : AgreementOf)
        → IsSound reference
        → agreement_between reference firm account ≡ Some agreement
        → is_some (path_of reference agreement) ≡ true }
{}

/// No product group has more than 4,096 open offers.
pub fn a_group_has_few_open_offers()
    ensures { (reference : Tables) (history : List EntryOf) (group : GroupOf) → IsLegal reference history
        → open_count (standing_of history) group ≤ 4096 }
{}

/// An entry of a legal history makes at most sixteen offers.
pub fn an_entry_makes_few_offers()
    ensures { (reference : Tables) (history : List EntryOf) → IsLegal reference history → length (offers_of history) ≤ 16 * length history }
{}
