//! Decisions on each kind of command.

ghost use Rattle.std.specs.Prelude.{◌≡◌, ◌<◌, length, IfOk};
ghost use Rattle.gu_terms.specs.declared.command.Command.{Command as CommandOf};
ghost use Rattle.gu_rules.specs.Answer.{answer_in};
ghost use Rattle.gu_book.specs.Beside.{state_in};
ghost use Rattle.gu_book.specs.Deeds.{IsDeedOf, reply_by};

use crate::deed::Deed;
use crate::totals::Totals;
use gu_ref::Reference;
use gu_terms::Refusal;

/// A command of one kind.
pub trait Decide<'a> {
    /// Its effect, if it is accepted.
    type Does: Deed;

    /// The command.
    ghost command: { Self → CommandOf };

    /// Returns its effect, given the state that a history leads to, or why it is refused.
    fn decide(&'a self, reference: &Reference, totals: &Totals) -> Result<Self::Does, Refusal>
        requires numbers { length totals.now.offers < 16000000 }
        ensures reply { reply_by Self.Does.does result ≡ answer_in reference.now (state_in totals.now) (command self.now) }
        ensures deed { IfOk result (λ deed. IsDeedOf reference.now totals.now (command self.now) (Self.Does.does deed)) };
}
