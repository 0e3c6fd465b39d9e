// The words that a buffer is expected to have at the end.
ghost use Rattle.std.specs.Prelude.{◌≤◌};

use crate::bench::NotUnderstood;

// The words that the table names, and 0 for the others. Those up to the last one named, `shown` words, are shown.
#[derive(Clone, Copy)]
pub struct Expected {
    pub words: [u64; 64],
    pub shown: usize,
    ghost within: { shown ≤ 64 },
}

impl Expected {
    // No word is named.
    pub(crate) fn zeros() -> Expected {
        Expected {
            words: [0; 64],
            shown: 0,
        }
    }

    // A word that the table names.
    pub(crate) fn name(&mut self, place: u64, value: u64) -> Result<(), NotUnderstood> {
        if place >= 64 {
            return Err(NotUnderstood);
        }
        let at = place as usize;
        self.words[at] = value;
        self.shown = self.shown.max(at + 1);
        Ok(())
    }

    // One of the words that are not shown is not 0.
    pub(crate) fn hides(&self, words: &[u64; 64]) -> bool {
        words[self.shown..].iter().any(|word| *word != 0)
    }
}
