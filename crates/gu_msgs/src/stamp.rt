//! Moments and their texts.

ghost use Rattle.std.specs.Prelude.{◌≡◌};
ghost use Rattle.gu_msgs.specs.MomentTexts.{WritesMoment};

use crate::moment_texts::moment_text;
use gu_terms::Moment;
use std::marker::Model;

/// A moment and its text, made once for all messages at that moment. To a contract it is the moment.
#[derive(Drop)]
pub struct Stamp {
    moment: Moment,
    text: [u8; 21],
}

impl Model for Stamp {
    ghost use Rattle.std.specs.Prelude.{ℕ};

    ghost Value = { ℕ };

    ghost use Rattle.gu_msgs.specs.MomentTexts.{WritesMoment};

    ghost view = { λ s. s.moment };

    ghost invariant = { λ s. WritesMoment s.moment s.text };
}

impl Stamp {
    /// Returns a moment with its text.
    pub fn new(moment: Moment) -> Self
        ensures { result ≡ moment }
    {
        Stamp {
            moment,
            text: moment_text(moment),
        }
    }

    /// Returns the moment.
    pub fn moment(&self) -> Moment
        ensures { result ≡ self.now }
    {
        self.moment
    }

    /// Returns its text.
    pub(crate) fn text(&self) -> [u8; 21]
        ensures { WritesMoment self.now result }
    {
        self.text
    }
}
