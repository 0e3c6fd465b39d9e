// Numbers read from a text, byte by byte: zeros in front without end, and a value above 64 bits found without overflow.
ghost use Rattle.std.specs.Prelude.{◌≡◌};
ghost use Rattle.formats.specs.Decimal.{is_digit, with_digit};
ghost use Rattle.formats.specs.Number.{fitted, number_by, number_in, with_byte, only_digits};

// What has been read of a number: nothing yet, digits with this value, or what is no number of 64 bits.
#[derive(Clone, Copy, Debug, PartialEq, Eq, Hash)]
pub enum Number {
    Blank,
    Value(u64),
    Invalid,
}

// A value with a byte more behind it, if that is a digit and the new value fits.
fn value_with(value: u64, byte: u8) -> Option<u64>
    ensures { number_by result ≡ fitted (is_digit byte) (with_digit value byte) }
{
    if !byte.is_ascii_digit() {
        return None;
    }
    value.checked_mul(10)?.checked_add(u64::from(byte - b'0'))
}

impl Number {
    // The number with a byte more behind it.
    pub fn with_byte(self, byte: u8) -> Number
        ensures { result ≡ with_byte self byte }
    {
        let value = match self {
            Number::Blank => 0,
            Number::Value(value) => value,
            Number::Invalid => return Number::Invalid,
        };
        value_with(value, byte).map_or(Number::Invalid, Number::Value)
    }
}

// The number that the digits of a text give, its other bytes passed over.
#[tactic(auto, unfolding(crate::specs::Number::only_digits))]
pub fn number_of_digits(text: &[u8]) -> Number
    ensures { result ≡ number_in (only_digits text.now) }
{
    let mut number = Number::Blank;
    for byte in text {
        if byte.is_ascii_digit() {
            number = number.with_byte(*byte);
        }
    }
    number
}
