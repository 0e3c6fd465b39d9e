// What a format answers, and the number that documents 01 and 02 give to each answer.
ghost use Rattle.std.specs.Prelude.{◌≡◌, ℕ};
ghost use Rattle.formats.specs.Answer.{number_of, too_short_number};

// The number of an answer that is no refusal.
pub const DONE: u64 = 0;

// A refusal, which has a number.
pub trait Numbered {
    ghost number: { Self → ℕ };

    fn number(&self) -> u64
        ensures { result ≡ number self.now };
}

// The number of an answer.
pub fn number_of<T, E: Numbered>(answer: &Result<T, E>) -> u64
    ensures { result ≡ number_of E.number answer.now }
{
    match answer {
        Ok(_) => DONE,
        Err(refusal) => refusal.number(),
    }
}

// A buffer is too short for its text.
#[derive(Clone, Copy, Debug, PartialEq, Eq, Hash)]
pub struct TooShort;

impl Numbered for TooShort {
    ghost number = { too_short_number };

    fn number(&self) -> u64 {
        1
    }
}
