//! How much a reader, a writer and a clock of a test give and take.

/// On what terms an engine runs.
#[derive(Clone, Copy)]
pub struct Terms {
    /// How many bytes the first read gives at most, and how many each later one.
    pub first: usize,
    pub piece: usize,
    /// How many reads there are before the reader fails.
    pub reads: usize,
    /// How many bytes a write takes at most.
    pub most: usize,
    /// How many writes there are before the writer fails.
    pub writes: usize,
    /// How many times the clock answers before it fails.
    pub clock: usize,
}

/// As much as any test wants.
pub const AMPLE: Terms = Terms {
    first: 4_096,
    piece: 4_096,
    reads: 1_000_000,
    most: 1_000_000,
    writes: 1_000_000,
    clock: 1_000_000,
};

impl Terms {
    /// Sets one of them by its word; `piece` is of each read.
    fn set(&mut self, word: &str, count: usize) {
        match word {
            "first" => self.first = count,
            "piece" => {
                self.first = count;
                self.piece = count;
            }
            "reads" => self.reads = count,
            "most" => self.most = count,
            "writes" => self.writes = count,
            "clock" => self.clock = count,
            _ => {}
        }
    }

    /// Returns the terms of a text as `piece 64, reads 3`; what it doesn't name is ample.
    pub fn of(text: &str) -> Terms {
        let mut terms = AMPLE;
        for part in text.split(", ") {
            let (word, count) = part.split_once(' ').unwrap_or((part, ""));
            terms.set(word, count.parse().unwrap_or(0));
        }
        terms
    }
}
