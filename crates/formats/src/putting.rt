// Texts put into lent buffers.
ghost use Rattle.std.specs.Prelude.{◌≡◌};
ghost use Rattle.formats.specs.Written.{filled, filled_with};

use crate::TooShort;

// Puts a text at the start of the buffer, if it has room, and hands back the text's length.
#[tactic(auto, unfolding(crate::specs::Written::filled_with))]
pub fn put(text: &[u8], buffer: &mut [u8]) -> Result<usize, TooShort>
    ensures { filled result buffer.new
        ≡ filled_with text.now buffer.old }
{
    if buffer.len() < text.len() {
        return Err(TooShort);
    }
    buffer[..text.len()].copy_from_slice(text);
    Ok(text.len())
}
