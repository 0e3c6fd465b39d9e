// Why a step is refused, and why one stops before it is done.
ghost use Rattle.std.specs.Prelude.{◌≡◌, cond};
ghost use Rattle.state.specs.Answers.{number_of_refusal, refusal_number, answer_number};
ghost use Rattle.state.specs.declared.refusals.Stop.TheVariants.{Refused};

// The refusals, by the numbers of documents 01 and 02. `Lost` is "dark" there, `Inconsistent` "unsound", `Exhausted`
// "worn".
#[derive(Clone, Copy, Debug, PartialEq, Eq)]
pub enum Refusal {
    Size = 1,
    Lost = 2,
    Inconsistent = 3,
    Thread = 4,
    Place = 5,
    Idle = 6,
    Busy = 7,
    Held = 8,
    Pending = 9,
    Full = 10,
    Exhausted = 11,
    Nothing = 12,
    Head = 13,
    Damaged = 14,
    Needed = 15,
    // A full log with no later commit of its oldest record's thread: the transaction is open
    FullOpen = 16,
    // A full log whose oldest record is needed for its line's sake alone
    FullNeeded = 17,
}

// Why a step is not done: it is refused, or a loss of supply cuts it.
#[derive(Clone, Copy, Debug, PartialEq, Eq)]
pub enum Stop {
    Refused(Refusal),
    Cut,
}

impl From<Refusal> for Stop {
    ghost from_gives = { λ refusal stop. stop ≡ Refused refusal };

    fn from(refusal: Refusal) -> Stop {
        Stop::Refused(refusal)
    }
}

impl Refusal {
    // Its number in the documents.
    pub fn number(self) -> u64
        ensures { result ≡ number_of_refusal self }
    {
        self as u64
    }
}

// "0 (done)" and "255 (cut)"
const DONE: u64 = 0;

const CUT: u64 = 255;

// An answer's number: that of done, of a refusal, or of cut.
pub fn answer_number(answer: Result<(), Stop>) -> u64
    ensures { result ≡ answer_number answer }
{
    match answer {
        Ok(()) => DONE,
        Err(Stop::Refused(refusal)) => refusal.number(),
        Err(Stop::Cut) => CUT,
    }
}

// A step is refused if a test applies.
pub fn refuse(applies: bool, refusal: Refusal) -> Result<(), Refusal>
    ensures { refusal_number result ≡ cond applies (number_of_refusal refusal) 0 }
{
    if applies { Err(refusal) } else { Ok(()) }
}
