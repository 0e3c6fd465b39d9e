// The lost state, and the fresh one.
ghost use Rattle.std.specs.Prelude.{◌≡◌};
ghost use Rattle.state.specs.HandedBack.{lost_fields, fresh_fields};

use crate::Machine;
use buffers::Buffer;
use lines::free_lines;
use parts::Line;

impl Machine {
    // "dark: one fixed value, its other numbers 0"
    pub fn lost() -> Machine
        ensures { result ≡ lost_fields }
    {
        Machine {
            lost: true,
            words: 0,
            slots: 0,
            opened: [false; 8],
            lines: [Line {
                holder: 0,
                dirty: false,
                states: 0,
            }; 64],
            head: 0,
            undos: Buffer::empty(),
            tail: 0,
            redos: Buffer::empty(),
        }
    }

    // "the new state has empty buffers, all Clean, unheld, not dirty, no transaction", its log empty at this tail
    pub fn fresh(words: u16, slots: u16, tail: u64) -> Machine
        ensures { result ≡ fresh_fields words slots tail }
    {
        Machine {
            lost: false,
            words,
            slots,
            opened: [false; 8],
            lines: free_lines(),
            head: tail,
            undos: Buffer::empty(),
            tail,
            redos: Buffer::empty(),
        }
    }
}
