// The entries of a buffer, and the words that they wait for.
ghost use Rattle.std.specs.Prelude.{◌≡◌, true};
ghost use Rattle.parts.specs.States.{bits_of};
ghost use Rattle.state.specs.Linear.{waits_for, each_waits, all_marked};

use lines::{holder_of, mark, state_of};
use parts::{Entry, Line, WordState};

// The entry waits for its word: its thread holds the word's line, and the word is in the wanted state.
#[tactic(auto, unfolding(crate::specs::Linear::waits_for))]
fn waits_for(words: u16, lines: &[Line], entry: Entry, wanted: WordState) -> bool
    ensures { result ≡ waits_for (bits_of wanted) words lines.now entry }
{
    entry.word < words
        && entry.thread < 8
        && entry.thread == holder_of(lines, entry.word)
        && state_of(lines, entry.word) == wanted
}

// Each entry waits for its word in the wanted state. The word of each is marked with the next state once it was looked
// at, so that no other entry waits for it.
pub(crate) fn each_waits(
    words: u16,
    lines: &mut [Line],
    entries: &[Entry],
    wanted: WordState,
    next: WordState,
) -> bool
    ensures each { result ≡ each_waits (bits_of wanted) (bits_of next) words lines.old entries.now }
    ensures marks { result ≡ true → lines.new ≡ all_marked (bits_of next) lines.old entries.now }
{
    for entry in entries {
        if !waits_for(words, lines, *entry, wanted) {
            return false;
        }
        mark(lines, entry.word, next);
    }
    true
}
