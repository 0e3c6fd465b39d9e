// The three words of a slot: a record written to them under the supply, and read back from them.
ghost use Rattle.std.specs.Prelude.{◌≡◌, [], ◌∷◌, ◌+◌, ◌-◌, ◌*◌, ◌^◌, ◌<◌};
ghost use Rattle.log_region.specs.Stores.{stored_under};
ghost use Rattle.log_region.specs.Layout.{undo_of, redo_of, header_of, slot_stores, of_type, decoded, decoded_slot};

use crate::Record;

// One store under the supply: made if any is left, and counted off. A place past the end takes none.
#[tactic(auto, unfolding(crate::specs::Stores::stored))]
pub fn store(region: &mut [u64], at: usize, value: u64, supply: u64) -> u64
    ensures value { result ≡ supply - 1 }
    ensures region_after { region.new ≡ stored_under supply region.old
        (record { at = at; value = value } ∷ []) }
{
    if supply == 0 {
        return 0;
    }
    if at < region.len() {
        region[at] = value;
    }
    supply - 1
}

// A header from its fields, the bits above them 0.
fn packed(word: u16, thread: u8, kind: u64, torn: u64) -> u64
    requires { (kind < 4) × (torn < 2) }
    ensures { result ≡ word + thread * 2 ^ 48 + kind * 2 ^ 56 + torn * 2 ^ 58 }
{
    word as u64
        + thread as u64 * 0x1_0000_0000_0000
        + kind * 0x100_0000_0000_0000
        + torn * 0x400_0000_0000_0000
}

impl Record {
    fn undo(self) -> u64
        ensures { result ≡ undo_of self }
    {
        match self {
            Record::UndoRedo { undo, .. } => undo,
            Record::Redo { .. } => 0,
            Record::Commit { .. } => 0,
        }
    }

    fn redo(self) -> u64
        ensures { result ≡ redo_of self }
    {
        match self {
            Record::UndoRedo { redo, .. } => redo,
            Record::Redo { redo, .. } => redo,
            Record::Commit { .. } => 0,
        }
    }

    fn header(self, torn: u64) -> u64
        requires { torn < 2 }
        ensures { result ≡ header_of torn self }
    {
        match self {
            Record::UndoRedo { thread, word, .. } => packed(word, thread, 1, torn),
            Record::Redo { thread, word, .. } => packed(word, thread, 2, torn),
            Record::Commit { thread } => packed(0, thread, 3, torn),
        }
    }

    // The record of a type, its thread and word being good.
    fn of_type(kind: u64, thread: u8, word: u16, undo: u64, redo: u64) -> Option<Record>
        requires { kind < 4 }
        ensures { result ≡ of_type kind thread word undo redo }
    {
        match kind {
            1 => Some(Record::UndoRedo {
                thread,
                word,
                undo,
                redo,
            }),
            2 if undo == 0 => Some(Record::Redo { thread, word, redo }),
            3 if undo == 0 && redo == 0 && word == 0 => Some(Record::Commit { thread }),
            _ => None,
        }
    }
}

// Lent the three words of a slot: stores undo, redo and header in this order, as many as the supply allows, and hands
// back what is left of it.
pub(crate) fn write(slot: &mut [u64], entry: Record, torn: u64, supply: u64) -> u64
    requires { torn < 2 }
    ensures value { result ≡ supply - 3 }
    ensures slot_after { slot.new ≡ stored_under supply slot.old (slot_stores torn entry) }
{
    let header = entry.header(torn);
    let after_undo = store(slot, 0, entry.undo(), supply);
    let after_redo = store(slot, 1, entry.redo(), after_undo);
    store(slot, 2, header, after_redo)
}

#[tactic(auto, unfolding(crate::specs::Layout::decoded))]
fn decode_words(words: u16, undo: u64, redo: u64, header: u64) -> Option<Record>
    ensures { result ≡ decoded words undo redo header }
{
    let thread = header / 0x1_0000_0000_0000 % 0x100;
    let word = header % 0x1_0000_0000_0000;
    if 8 <= thread || words as u64 <= word || header / 0x800_0000_0000_0000 != 0 {
        return None;
    }
    Record::of_type(
        header / 0x100_0000_0000_0000 % 4,
        thread as u8,
        word as u16,
        undo,
        redo,
    )
}

// The record in the three words of a slot, `words` being W.
pub(crate) fn decode(slot: &[u64], words: u16) -> Option<Record>
    ensures { result ≡ decoded_slot words slot.now }
{
    match slot {
        [undo, redo, header] => decode_words(words, *undo, *redo, *header),
        _ => None,
    }
}
