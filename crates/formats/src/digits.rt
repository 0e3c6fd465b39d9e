// The decimal digits of a number.
ghost use Rattle.std.specs.Prelude.{◌≡◌, ◌%◌, ◌≤◌, length};
ghost use Rattle.formats.specs.Decimal.{digit, decimal, last_digits};

// How many digits the number has.
#[tactic(auto, using(crate::proofs::Decimals::logarithm_length))]
pub fn decimal_length(number: u64) -> usize
    ensures value { result ≡ length (decimal number) }
    ensures upper_bound { result ≤ 20 }
{
    number.checked_ilog10().unwrap_or(0) as usize + 1
}

// The byte of the number's last digit.
pub fn last_digit(number: u64) -> u8
    ensures { result ≡ digit (number % 10) }
{
    b'0' + (number % 10) as u8
}

// Fills the buffer with the number's last digits, as many as there are places.
pub fn fill_decimal(number: u64, text: &mut [u8])
    ensures { text.new ≡ last_digits (length text.old) number }
{
    let mut rest = number;
    for at in (0..text.len()).rev() {
        text[at] = last_digit(rest);
        rest /= 10;
    }
}
