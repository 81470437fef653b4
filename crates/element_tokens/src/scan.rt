//! The bytes of a source over which a word goes on.
ghost use Rattle.std.specs.Prelude.{◌≡◌};
ghost use Rattle.std.specs.List.{prefix_len};
ghost use Rattle.element_lang.specs.Token as lang;

use lexer::is_number_byte;

#[inline]
fn is_word_byte(byte: u8) -> bool
    ensures { result ≡ lang.is_word_byte byte }
{
    is_number_byte(byte) || byte == b'.'
}

// How many bytes the word in front has.
pub(crate) fn word_len(text: &[u8]) -> usize
    ensures { result ≡ prefix_len lang.is_word_byte text.now }
{
    text.iter().take_while(|byte| is_word_byte(**byte)).count()
}
