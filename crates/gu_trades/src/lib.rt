//! Trades: the accepted reports of the house, by their firms' ids and by match id.
#![tactic(auto)]

mod counterpart;
mod hash_index;
mod matching;
mod packed;
mod report_no;
mod reports;
mod short_texts;
mod sides;
mod standing;
mod terms;
mod trades;

pub use counterpart::Counterpart;
pub use matching::Matching;
pub use report_no::ReportNo;
pub use sides::Sides;
pub use standing::Standing;
pub use terms::Terms;
pub use trades::Trades;
