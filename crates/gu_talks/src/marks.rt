//! How many entries must be kept before bytes that are held may go.

ghost use Rattle.std.specs.Prelude.{◌≡◌, ◌≤◌, ◌<◌, [], drop, length, take};
ghost use Rattle.std.specs.List.{All};
ghost use Rattle.gu_talks.specs.Marks.{MarksAll};

use std::marker::Model;

/// The marks of held bytes: how many entries must be kept before each byte may go. Two numbers are enough, however many bytes are held. The
/// first part keeps its number until it is gone, so it goes whatever is added after it.
#[derive(Drop)]
pub struct Marks {
    /// How many bytes the first part has.
    first: usize,
    /// The mark of each byte of the first part.
    number: u64,
    /// How many bytes have a mark: those of the first part, and the rest.
    marked: usize,
    /// The mark of each byte of the rest.
    last: u64,
}

impl Model for Marks {
    ghost use Rattle.std.specs.Prelude.{List, ℕ};
    ghost use Rattle.gu_talks.specs.TwoParts.{IsInParts, marks_of};

    ghost Value = { List ℕ };

    ghost view = { marks_of };

    ghost invariant = { IsInParts };
}

impl Marks {
    /// Creates the marks of no bytes.
    pub fn new() -> Self
        ensures { result ≡ [] }
    {
        Marks {
            first: 0,
            number: 0,
            marked: 0,
            last: 0,
        }
    }

    /// Marks those of the held bytes that have no mark yet with this number. This many bytes are held. Bytes after the first part get the
    /// same mark.
    pub fn mark(&mut self, held: usize, number: u64)
        requires { length self.old ≤ held }
        ensures { MarksAll held number self.old self.new }
    {
        if held == self.marked {
            return;
        }
        if self.first == 0 {
            self.first = held;
            self.number = number;
            self.last = number;
        } else {
            self.last = self.last.max(number);
        }
        self.marked = held;
    }

    /// Returns how many bytes may go once this many entries are kept.
    pub fn free(&self, kept: u64) -> usize
        ensures within { result ≤ length self.now }
        ensures kept { All (λ mark. mark ≤ kept) (take result self.now) }
        ensures held { All (λ mark. kept < mark) (drop result self.now) }
    {
        if kept < self.number {
            0
        } else if kept < self.last {
            self.first
        } else {
            self.marked
        }
    }

    /// Notes that this many bytes have gone. Once the first part is gone, the rest becomes the first part.
    pub fn pass(&mut self, count: usize)
        requires { count ≤ length self.old }
        ensures { self.new ≡ drop count self.old }
    {
        self.marked -= count;
        if count < self.first {
            self.first -= count;
        } else {
            self.first = self.marked;
            self.number = self.last;
        }
    }
}
