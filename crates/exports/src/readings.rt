// Readings for programs in other languages.
ghost use Rattle.std.specs.Prelude.{◌≡◌};
ghost use Rattle.std.specs.Result.{result_unwrap_or};
ghost use Rattle.formats.specs.Answer.{number_of, too_short_number};
ghost use Rattle.formats.specs.Written.{filled_with};
ghost use Rattle.reading.specs.Text.{malformed_number, text_of, parsed_of};

use formats::number_of;

// Prints the reading of a word as `reading::print` does, and stores its length: 0 where the buffer is too short.
#[unsafe(no_mangle)]
pub extern "C" fn rukwetid_reading(word: u64, text: &mut [u8], length: &mut usize) -> u64
    ensures answer { result ≡ number_of too_short_number (filled_with (text_of word) text.old).written }
    ensures length { length.new ≡ result_unwrap_or (filled_with (text_of word) text.old).written 0 }
    ensures text { text.new ≡ (filled_with (text_of word) text.old).buffer }
{
    let printed = reading::print(word, text);
    *length = printed.unwrap_or(0);
    number_of(&printed)
}

// Finds the word of a reading as `reading::parse` does, and stores it: 0 where the text has none.
#[unsafe(no_mangle)]
pub extern "C" fn rukwetid_reading_word(text: &[u8], word: &mut u64) -> u64
    ensures answer { result ≡ number_of malformed_number (parsed_of text.now) }
    ensures word { word.new ≡ result_unwrap_or (parsed_of text.now) 0 }
{
    let parsed = reading::parse(text);
    *word = parsed.unwrap_or(0);
    number_of(&parsed)
}
