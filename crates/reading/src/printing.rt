// The text of a word.
ghost use Rattle.std.specs.Prelude.{◌≡◌};
ghost use Rattle.formats.specs.Written.{filled, filled_with};
ghost use Rattle.reading.specs.Text.{whole_part, tenth_part, text_of};

use formats::TooShort;

// A count has its sign dropped only after the division: the smallest one has no negation, and its parts have.
fn whole_part(tenths: i64) -> u64
    ensures { result ≡ whole_part tenths }
{
    (tenths / 10).unsigned_abs()
}

fn tenth_part(tenths: i64) -> u64
    ensures { result ≡ tenth_part tenths }
{
    (tenths % 10).unsigned_abs()
}

// Puts the text of the word at the start of the buffer, if it has room, and hands back the text's length.
pub fn print(word: u64, text: &mut [u8]) -> Result<usize, TooShort>
    ensures { filled result text.new ≡ filled_with (text_of word) text.old }
{
    let tenths = word.cast_signed();
    let whole = whole_part(tenths);
    // The sign takes one byte or none.
    let start = usize::from(tenths < 0);
    let end = start + formats::decimal_length(whole);
    if text.len() < end + 2 {
        return Err(TooShort);
    }
    if tenths < 0 {
        text[0] = b'-';
    }
    formats::fill_decimal(whole, &mut text[start..end]);
    text[end] = b'.';
    text[end + 1] = formats::last_digit(tenth_part(tenths));
    Ok(end + 2)
}
