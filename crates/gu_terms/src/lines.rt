//! The lines of a give-up.

ghost use Rattle.std.specs.Prelude.{◌≡◌, ◌↔◌, ◌≤◌, ◌∷◌, [], All, length, sum_by, IsTrue, IsSome, IfSome, IfOk};
ghost use Rattle.gu_terms.specs.Lines.{AreFewLines, AreLines, lots_in_all};
ghost use Rattle.gu_terms.specs.Numbers.{IsLots};

use crate::account::AccountId;
use crate::bounds::MOST_LINES;
use crate::lots::Lots;
use std::alloc::{AllocError, Global};
use std::marker::Model;

/// A line of a give-up: an account, and the lots that it is to take up.
#[derive(Clone, Copy, Debug, PartialEq, Eq)]
pub struct Line {
    pub account: AccountId,
    pub lots: Lots,
}

/// The lines of a give-up, 1 to 16. An account may have several lines. To a contract it is their list.
#[derive(Debug, Drop)]
pub struct Lines {
    list: Vec<Line>,
}

impl Model for Lines {
    ghost use Rattle.std.specs.Prelude.{List};
    ghost use Rattle.gu_terms.specs.Lines.{AreLines};
    ghost use Rattle.gu_terms.specs.declared.lines.Line.{Line};

    ghost Value = { List Line };

    ghost view = { λ l. l.list.items };

    ghost invariant = { λ l. AreLines l.list.items };
}

/// Shows the prover that each line has 1 to 1,000,000 lots. Does nothing at run time.
fn line_rules(lines: &[Line])
    ensures { All (λ l. IsLots l.lots) lines.now }
{
    for line in lines {
        let _ = line.lots.get();
    }
}

impl Lines {
    /// Returns these lines, if there are 1 to 16.
    pub fn new(list: Vec<Line>) -> Option<Self>
        ensures sound { IsSome result ↔ AreLines list.items }
        ensures same { IfSome result (λ lines. lines ≡ list.items) }
    {
        if list.is_empty() || list.len() > MOST_LINES {
            return None;
        }
        line_rules(&list);
        Some(Lines::known(list))
    }

    /// Returns these lines, of which there are known to be 1 to 16.
    pub fn known(list: Vec<Line>) -> Self
        requires { AreFewLines list.items }
        ensures { result ≡ list.items }
    {
        line_rules(&list);
        Lines { list }
    }

    /// Returns a give-up's only line.
    pub(crate) fn one(alloc: Global, line: Line) -> Result<Self, AllocError>
        ensures { IfOk result (λ lines. lines ≡ line ∷ []) }
    {
        Ok(Lines::known(vec![in alloc; line]?))
    }

    /// Returns the lines, in order.
    pub fn as_slice(&self) -> &[Line]
        ensures lines { result.now ≡ self.now }
        ensures sound { AreLines self.now }
    {
        self.list.as_slice()
    }

    /// Returns the number of lines.
    pub fn count(&self) -> u8
        ensures { result ≡ length self.now }
    {
        self.as_slice().len() as u8
    }

    /// Returns the total lots of the lines.
    pub fn lots(&self) -> u64
        ensures lots { result ≡ lots_in_all self.now }
        ensures most { result ≤ 16000000 }
    {
        let mut total = 0;
        for line in &self.list {
            total += line.lots.get();
        }
        total
    }

    /// Returns whether these are its lines.
    pub(crate) fn are(&self, lines: &[Line]) -> bool
        ensures { IsTrue result ↔ (self.now ≡ lines.now) }
    {
        self.as_slice() == lines
    }

    /// Returns whether two lists of lines are the same.
    pub fn is_same(&self, other: &Lines) -> bool
        ensures { IsTrue result ↔ (self.now ≡ other.now) }
    {
        self.are(other.as_slice())
    }

    /// Returns a copy.
    pub fn copy(&self) -> Result<Lines, AllocError>
        ensures { IfOk result (λ lines. lines ≡ self.now) }
    {
        let list = self.list.clone()?;
        Ok(Lines { list })
    }
}
