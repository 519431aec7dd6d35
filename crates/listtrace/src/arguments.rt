// What the program's arguments ask for.
ghost use Rattle.std.specs.Prelude.{◌≡◌};
ghost use Rattle.listtrace.specs.StartAsked.{asked_of, start_asked};

use bus::start::Hung;

// The start that is asked for by so many words, the program's own name among them, of which this is the second: with no second word that of a new cabinet, with `--upright` that of an old one. The program knows no other.
pub fn start_asked(count: usize, word: &[u8]) -> Option<Hung>
    ensures { asked_of result ≡ start_asked count word.now }
{
    if count < 2 {
        return Some(Hung::UpsideDown);
    }
    if count == 2 && word == b"--upright".as_slice() {
        return Some(Hung::Upright);
    }
    None
}
