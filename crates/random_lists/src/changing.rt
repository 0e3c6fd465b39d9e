// The changes of the cases 13 to 29: they "change the state and nothing else". Of a number too large for a state's
// part its low bits are taken.
use crate::disturbing::Case;
use crate::generator::{one_of, rest};
use crate::setup::Plan;
use lines::with_state;
use log_region::NUMBERS;
use parts::{Entry, WordState};
use state::Machine;

// A number below 2^16
fn short(n: u64) -> u16 {
    (n % 65536) as u16
}

// A number below 2^8
fn byte(n: u64) -> u8 {
    (n % 256) as u8
}

// The cases 13 to 17
fn limits(machine: &mut Machine, case: &Case, plan: &Plan) {
    let head = machine.head;
    let tail = machine.tail;
    let end = head.wrapping_add(plan.l);
    let after = tail.wrapping_add(1);
    let past = NUMBERS + 1;
    match case.number {
        13 => machine.words = short(one_of(case.a, [0, 4, plan.w.wrapping_add(1), 520])),
        14 => machine.slots = short(one_of(case.a, [7, 1025, 8, 1024])),
        15 => machine.head = one_of(case.a, [head.wrapping_add(1), after, past, u64::MAX]),
        16 => {
            let before = head.saturating_sub(1);
            machine.tail = one_of(case.a, [after, end.wrapping_add(1), past, before]);
        }
        17 => machine.tail = end,
        _ => {}
    }
}

// The cases 18 to 21, of word w
fn line_of(machine: &mut Machine, case: &Case, w: u64) {
    let line = &mut machine.lines[(w / 8 % 64) as usize];
    match case.number {
        18 => line.holder = byte(one_of(case.b, [8, 9, 254, 255])),
        19 => line.holder = byte(case.b % 8),
        20 => line.states = with_state(line.states, w % 8, WordState::from_bits(case.b % 4)),
        21 => line.dirty = !line.dirty,
        _ => {}
    }
}

// The cases 22 and 23
fn thread(machine: &mut Machine, case: &Case, threads: u64) {
    match case.number {
        22 => machine.opened[(rest(case.b, threads) % 8) as usize] = false,
        23 => machine.opened[(case.b % 8) as usize] = true,
        _ => {}
    }
}

// The cases 24 to 29, of a buffer's entries. Hands back the new holder of a line, by its number, if a case gives one.
fn entry(entries: &mut [Entry], case: &Case, w: u64) -> Option<(u16, u8)> {
    if entries.is_empty() {
        return None;
    }
    let b = case.b;
    let e = (case.a % entries.len() as u64) as usize;
    let g = u64::from(entries[(e + 1) % entries.len()].word);
    match case.number {
        24 | 27 => entries[e].thread = byte(one_of(b, [8, 255, b / 4 % 8, 9])),
        25 | 28 => entries[e].word = short(one_of(b, [w, 65535, rest(b / 4, w), g])),
        _ => {
            let line = entries[e].word / 8;
            let h = if b % 2 == 0 { 8 } else { 255 };
            give_line(entries, line, h);
            return Some((line, h));
        }
    }
    None
}

// "the thread of each entry of this buffer whose word is in line l"
fn give_line(entries: &mut [Entry], line: u16, h: u8) {
    for entry in entries {
        if entry.word / 8 == line {
            entry.thread = h;
        }
    }
}

// The cases 24 to 29
fn entries(machine: &mut Machine, case: &Case, w: u64) {
    let held = if case.number < 27 {
        let len = machine.undos.len.min(16);
        entry(&mut machine.undos.entries[..len], case, w)
    } else {
        let len = machine.redos.len.min(32);
        entry(&mut machine.redos.entries[..len], case, w)
    };
    if let Some((line, holder)) = held {
        machine.lines[(line % 64) as usize].holder = holder;
    }
}

// The state after the change of a case
pub(crate) fn changed(mut machine: Machine, case: Option<Case>, plan: &Plan) -> Machine {
    let Some(case) = case else {
        return machine;
    };
    let word = plan.base.wrapping_add(rest(case.a, plan.span));
    match case.number {
        13..=17 => limits(&mut machine, &case, plan),
        18..=21 => line_of(&mut machine, &case, word),
        22 | 23 => thread(&mut machine, &case, plan.threads),
        24..=29 => entries(&mut machine, &case, plan.w),
        _ => {}
    }
    machine
}
