// The region: its slots, its head, and the records between head and tail.
ghost use Rattle.std.specs.Prelude.{◌≡◌, ◌+◌, ◌-◌, ◌<◌, IfNone, IfSome, length};
ghost use Rattle.log_region.specs.Stores.{stored_under};
ghost use Rattle.log_region.specs.Layout.{torn_bit};
ghost use Rattle.log_region.specs.Region.{slots_of, head_of, place_of, record_stores, head_stores, is_written, read_back};

use crate::Record;
use crate::slot::{decode, store, write};

// Record numbers are below this; head and tail are at most this.
pub const NUMBERS: u64 = 0x1_0000_0000_0000;

// L, by the length of the log; 0 if no L from 8 to 1,024 has that length.
#[tactic(auto, unfolding(crate::specs::Region::slots_for))]
pub fn slots(log: &[u64]) -> u64
    ensures { result ≡ slots_of log.now }
{
    let n = log.len();
    if 25 <= n && n <= 3073 && n % 3 == 1 {
        (n / 3) as u64
    } else {
        0
    }
}

// The number of the oldest record kept.
pub fn head(log: &[u64]) -> u64
    ensures { result ≡ head_of log.now }
{
    log.first().copied().unwrap_or(0)
}

// Makes `number` the head, by one store. Hands back what is left of the supply.
#[tactic(auto, unfolding(crate::specs::Region::head_stores, crate::specs::Stores::stored))]
pub fn set_head(log: &mut [u64], number: u64, supply: u64) -> u64
    ensures value { result ≡ supply - length (head_stores (slots_of log.old) number) }
    ensures log_after { log.new ≡ stored_under supply log.old (head_stores (slots_of log.old) number) }
{
    if slots(log) == 0 {
        return supply;
    }
    store(log, 0, number, supply)
}

// Where a record is kept: the first word of its slot, and the torn bit that it has there.
#[derive(Clone, Copy)]
struct Slot {
    at: usize,
    torn: u64,
}

// The slot of record `number`, if the log has slots.
#[tactic(auto, using(crate::proofs::Sizes::sized))]
fn slot_of(log: &[u64], number: u64) -> Option<Slot>
    ensures none { IfNone result (slots_of log.now ≡ 0) }
    ensures some { IfSome result (λ slot. (0 < slots_of log.now)
        × (slot.at ≡ place_of (slots_of log.now) number) × (slot.torn ≡ torn_bit (slots_of log.now) number)) }
    ensures within { IfSome result (λ slot. (slot.at + 2 < length log.now) × (slot.torn < 2)) }
{
    let l = slots(log);
    if l == 0 {
        return None;
    }
    Some(Slot {
        at: (1 + 3 * (number % l)) as usize,
        torn: 1 - number / l % 2,
    })
}

// Appends a record under its number: the slot's part of the log, three words from 1+3s on, is lent to the record
// writer. Hands back what is left of the supply.
#[tactic(auto, unfolding(crate::specs::Region::record_stores, crate::specs::Stores::stored))]
pub fn append(log: &mut [u64], number: u64, entry: Record, supply: u64) -> u64
    ensures value { result ≡ supply - length (record_stores (slots_of log.old) number entry) }
    ensures log_after { log.new ≡ stored_under supply log.old (record_stores (slots_of log.old) number entry) }
{
    if number < NUMBERS
        && let Some(Slot { at, torn }) = slot_of(log, number)
    {
        write(&mut log[at..at + 3], entry, torn, supply)
    } else {
        supply
    }
}

// Whether record `number` is there: it is below 2^48, and the torn bit in its slot is right.
#[tactic(auto, unfolding(crate::specs::Region::is_written))]
pub fn is_written(log: &[u64], number: u64) -> bool
    ensures { result ≡ is_written log.now number }
{
    if number < NUMBERS
        && let Some(Slot { at, torn }) = slot_of(log, number)
    {
        log[at + 2] / 0x400_0000_0000_0000 % 2 == torn
    } else {
        false
    }
}

// Record `number`, read back from its slot; `words` is W.
#[tactic(auto, unfolding(crate::specs::Region::read_back))]
pub fn read(log: &[u64], number: u64, words: u16) -> Option<Record>
    ensures { result ≡ read_back words log.now number }
{
    let Slot { at, .. } = slot_of(log, number)?;
    decode(&log[at..at + 3], words)
}
