//! Outcomes of consecutive steps, as stored.

ghost use Rattle.std.specs.Prelude.{◌≡◌, ◌++◌, ◌∷◌, [], ◌<◌, ◌≤◌, length, slice_get, IfSome, Some};
ghost use Rattle.gu_world.specs.Series.{outcomes_of, IsShort};
ghost use Rattle.gu_world.specs.declared.series.Series.TheVariants.{Asked};

use crate::outcomes::KeptOutcome;

/// Commands entered one after the other, stored as the number of the first and how many follow it; or one other step.
#[derive(Clone, Copy)]
pub(crate) enum Series {
    Asked { first: u32, more: u32 },
    Full,
    Seen(u32),
    NoGroup,
    Proposed(u64),
    Swept(u32),
    Stale { seen: u32, now: u32 },
    Foreign,
    Nothing,
}

#[tactic(auto, using(crate::proofs::SeriesLemmas::asked_more))]
/// Returns a run of commands extended by one outcome, if that is of the command entered next.
fn one_more(first: u32, more: u32, kept: KeptOutcome) -> Option<Series>
    ensures { IfSome result (λ longer. outcomes_of longer ≡ outcomes_of (Asked first more) ++ kept ∷ []) }
{
    match kept {
        KeptOutcome::Asked(number)
            if more < u32::MAX && number == u64::from(first) + u64::from(more) + 1 => {
            let more = more + 1;
            Some(Series::Asked { first, more })
        }
        _ => None,
    }
}

impl Series {
    /// Returns a series of one outcome.
    pub(crate) fn of(kept: KeptOutcome) -> Self
        requires { IsShort kept }
        ensures { outcomes_of result ≡ kept ∷ [] }
    {
        match kept {
            KeptOutcome::Asked(number) => Series::Asked {
                first: number as u32,
                more: 0,
            },
            KeptOutcome::Full => Series::Full,
            KeptOutcome::Seen(version) => Series::Seen(version as u32),
            KeptOutcome::NoGroup => Series::NoGroup,
            KeptOutcome::Proposed(lots) => Series::Proposed(lots),
            KeptOutcome::Swept(number) => Series::Swept(number as u32),
            KeptOutcome::Stale { seen, now } => Series::Stale {
                seen: seen as u32,
                now: now as u32,
            },
            KeptOutcome::Foreign => Series::Foreign,
            KeptOutcome::Nothing => Series::Nothing,
        }
    }

    #[tactic(auto, using(crate::proofs::SeriesLemmas::asked_len))]
    /// Returns the number of outcomes that it stands for.
    pub(crate) fn len(&self) -> usize
        ensures len { result ≡ length (outcomes_of self.now) }
        ensures some { 1 ≤ result }
    {
        match self {
            Series::Asked { more, .. } => *more as usize + 1,
            _ => 1,
        }
    }

    #[tactic(auto, using(crate::proofs::SeriesLemmas::asked_len, crate::proofs::SeriesLemmas::asked_at))]
    /// Returns its outcome at an index, counted from 0.
    pub(crate) fn at(&self, place: usize) -> KeptOutcome
        requires { place < length (outcomes_of self.now) }
        ensures { slice_get (outcomes_of self.now) place ≡ Some result }
    {
        match self {
            Series::Asked { first, more } => {
                // Shows the prover: the number that follow fits in 32 bits.
                let _more = *more;
                KeptOutcome::Asked(u64::from(*first) + place as u64)
            }
            Series::Full => KeptOutcome::Full,
            Series::Seen(version) => KeptOutcome::Seen(u64::from(*version)),
            Series::NoGroup => KeptOutcome::NoGroup,
            Series::Proposed(lots) => KeptOutcome::Proposed(*lots),
            Series::Swept(number) => KeptOutcome::Swept(u64::from(*number)),
            Series::Stale { seen, now } => KeptOutcome::Stale {
                seen: u64::from(*seen),
                now: u64::from(*now),
            },
            Series::Foreign => KeptOutcome::Foreign,
            Series::Nothing => KeptOutcome::Nothing,
        }
    }

    /// Returns the series extended by one outcome, if that is of the command entered next.
    pub(crate) fn extended(&self, kept: KeptOutcome) -> Option<Self>
        ensures { IfSome result (λ longer. outcomes_of longer ≡ outcomes_of self.now ++ kept ∷ []) }
    {
        match self {
            Series::Asked { first, more } => one_more(*first, *more, kept),
            _ => None,
        }
    }
}
