// Words: bytes copied as they are.
ghost use Rattle.std.specs.Prelude.{◌≡◌};
ghost use Rattle.whole.specs.Outcome.{outcome};
ghost use Rattle.listing.specs.Written.{written};

// Writes the word's bytes from place `at` on, if they fit. README names this call and those of numbers with a text and a place in it, so these stay two arguments.
pub fn put_word(text: &mut [u8], at: usize, word: &[u8]) -> Option<usize>
    ensures { outcome result text.new ≡ written text.old at word.now }
{
    let end = at.checked_add(word.len())?;
    if end > text.len() {
        return None;
    }
    text[at..end].copy_from_slice(word);
    Some(end)
}
