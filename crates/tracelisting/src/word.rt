// Whether a text begins with a word, by which the old start is asked for.
ghost use Rattle.std.specs.Prelude.{◌≡◌};
ghost use Rattle.tracelisting.specs.Beginning.{begins};

// Whether a text begins with a word.
pub fn begins_with(text: &[u8], word: &[u8]) -> bool
    ensures { result ≡ begins word.now text.now }
{
    text.starts_with(word)
}
