// A command of the table: a word, the numbers after it, and what is expected of it. It is read byte by byte.
ghost use Rattle.std.specs.Prelude.{◌<◌};

use parts::Step;

// The largest number that takes another digit.
const MOST: u64 = 0x0fff_ffff_ffff_ffff;

// A word is known by its last eight letters. Zeros stand before a shorter one.
type Word = [u8; 8];

const NO_LETTERS: Word = [0; 8];

// The first word of a command: a step, what is changed by hand, or what is expected at the end.
#[derive(Clone, Copy)]
pub enum Verb {
    Recover,
    Begin,
    Store,
    LogUndo,
    LogRedo,
    SetDown,
    WriteHome,
    Commit,
    Delete,
    Large,
    Lend,
    LogWord,
    Limits,
    Line,
    AddUndo,
    AddRedo,
    Redos,
    Close,
    Home,
    Working,
    Head,
    Slot,
    Unknown,
}

impl Verb {
    fn named(word: &Word) -> Verb {
        match word {
            b"\0recover" => Verb::Recover,
            b"\0\0\0begin" => Verb::Begin,
            b"\0\0\0store" => Verb::Store,
            b"log-undo" => Verb::LogUndo,
            b"log-redo" => Verb::LogRedo,
            b"set-down" => Verb::SetDown,
            b"ite-home" => Verb::WriteHome,
            b"\0\0commit" => Verb::Commit,
            b"\0\0delete" => Verb::Delete,
            b"\0\0\0large" => Verb::Large,
            b"\0\0\0\0lend" => Verb::Lend,
            b"log-word" => Verb::LogWord,
            b"\0\0limits" => Verb::Limits,
            b"\0\0\0\0line" => Verb::Line,
            b"add-undo" => Verb::AddUndo,
            b"add-redo" => Verb::AddRedo,
            b"\0\0\0redos" => Verb::Redos,
            b"\0\0\0close" => Verb::Close,
            b"\0\0\0\0home" => Verb::Home,
            b"\0working" => Verb::Working,
            b"\0\0\0\0head" => Verb::Head,
            b"\0\0\0\0slot" => Verb::Slot,
            _ => Verb::Unknown,
        }
    }
}

// What a number says, by the word before it: something of a step, one of the verb's own numbers, or what is expected.
#[derive(Clone, Copy)]
enum Key {
    In,
    To,
    By,
    With,
    Times,
    Own,
    Expected,
}

impl Key {
    fn named(word: &Word) -> Key {
        match word {
            b"\0\0\0\0\0\0in" => Key::In,
            b"\0\0\0\0\0\0to" => Key::To,
            b"\0\0\0\0\0\0by" => Key::By,
            b"\0\0\0\0with" => Key::With,
            b"\0\0\0times" => Key::Times,
            _ => Key::Own,
        }
    }
}

// What has been read of a command.
#[derive(Clone, Copy)]
pub struct Command {
    // The first word, and the numbers that belong to it.
    pub verb: Option<Verb>,
    pub numbers: [u64; 4],
    count: usize,
    // Of a step: `by` thread, `in` word, how many `times`, `with` which supply.
    pub thread: u64,
    pub word: u64,
    pub times: u64,
    pub supply: u64,
    // The last two numbers that are expected of it: an answer, and stores.
    pub answer: Option<u64>,
    pub stores: Option<u64>,
    // Each byte so far was understood.
    pub known: bool,
    // What the next number says, and the letters or the number that is read.
    key: Key,
    letters: Word,
    number: Option<u64>,
    hexadecimal: bool,
}

impl Command {
    // Nothing read yet: once, with an ample supply, of thread 0 and word 0.
    pub(crate) fn none() -> Command {
        Command {
            verb: None,
            numbers: [0; 4],
            count: 0,
            thread: 0,
            word: 0,
            times: 1,
            supply: u64::MAX,
            answer: None,
            stores: None,
            known: true,
            key: Key::Expected,
            letters: NO_LETTERS,
            number: None,
            hexadecimal: false,
        }
    }

    // Numbers above MOST take no digit.
    fn read_digit(&mut self, digit: u64)
        requires { digit < 16 }
    {
        let value = self.number.unwrap_or(0);
        self.known = self.known && value <= MOST && self.letters == NO_LETTERS;
        let longer = if value > MOST {
            value
        } else if self.hexadecimal {
            16 * value + digit
        } else {
            10 * value + digit
        };
        self.number = Some(longer);
    }

    fn read_letter(&mut self, letter: u8) {
        self.letters.copy_within(1.., 0);
        self.letters[7] = letter;
        self.known = self.known && self.number.is_none();
    }

    // A number is whole: it goes where the word before it says.
    fn put(&mut self, number: u64) {
        match self.key {
            Key::In => self.word = number,
            Key::To => self.times = number.wrapping_sub(self.word).wrapping_add(1),
            Key::By => self.thread = number,
            Key::With => self.supply = number,
            Key::Times => self.times = number,
            Key::Own => match self.numbers.get_mut(self.count) {
                Some(place) => {
                    *place = number;
                    self.count += 1;
                }
                None => self.known = false,
            },
            Key::Expected => {
                self.known = self.known && self.answer.is_none();
                self.answer = self.stores.replace(number);
            }
        }
    }

    // The number or the word that was read, if any, is whole.
    fn finish(&mut self) {
        if let Some(number) = self.number {
            self.put(number);
        } else if self.letters != NO_LETTERS {
            self.key = Key::named(&self.letters);
            self.verb = self.verb.or(Some(Verb::named(&self.letters)));
        }
        self.letters = NO_LETTERS;
        self.number = None;
        self.hexadecimal = false;
    }

    // A byte between words and numbers. Hands back the command that it ends.
    fn divide(&mut self, byte: u8) -> Option<Command> {
        self.finish();
        match byte {
            b' ' | b'/' => {}
            b'=' => self.key = Key::Expected,
            b';' | b'|' => {
                let whole = *self;
                *self = Command::none();
                return Some(whole);
            }
            b':' => *self = Command::none(),
            _ => self.known = false,
        }
        None
    }

    // The next byte. Hands back the command that it ends.
    pub(crate) fn read(&mut self, byte: u8) -> Option<Command> {
        match byte {
            b'0'..=b'9' => self.read_digit((byte - b'0') as u64),
            b'a'..=b'f' if self.hexadecimal => self.read_digit((byte - b'a') as u64 + 10),
            b'x' if self.number.is_some() => self.hexadecimal = true,
            b'a'..=b'z' | b'-' => self.read_letter(byte),
            _ => return self.divide(byte),
        }
        None
    }

    // The step that is asked for, where a store's word is `place`. Other commands ask for none.
    pub(crate) fn step(&self, place: u64) -> Option<Step> {
        let n = self.numbers[0];
        match self.verb? {
            Verb::Recover => Some(Step::Recover),
            Verb::Begin => Some(Step::Begin { thread: n }),
            Verb::Store => Some(Step::Store {
                thread: self.thread,
                word: place,
                value: n,
            }),
            Verb::LogUndo => Some(Step::LogUndo),
            Verb::LogRedo => Some(Step::LogRedo),
            Verb::SetDown => Some(Step::Evict { line: n }),
            Verb::WriteHome => Some(Step::WriteBack { line: n }),
            Verb::Commit => Some(Step::Commit { thread: n }),
            Verb::Delete => Some(Step::DeleteOldest),
            _ => None,
        }
    }
}
