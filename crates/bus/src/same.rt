// Bytes of the display memory compared with bytes that were read; a `false` tells nothing.
ghost use Rattle.std.specs.Prelude.{◌≡◌, true, length};
ghost use Rattle.bus.specs.Pieces.{Agree, Repeats};

use crate::data::kept;
use constants::sizes::ICON_PAGE;

// Whether what a page keeps in some places is what was read of them.
pub fn agree(page: u8, places: &[u8], bytes: &[u8]) -> bool
    requires { length places.now ≡ length bytes.now }
    ensures { result ≡ true → Agree page places.now bytes.now }
{
    if page == ICON_PAGE {
        return agree_each(page, places, bytes);
    }
    places == bytes
}

// All are looked at, and it is decided at the end: `all` stops at the first that differs, and takes twenty times as long where none does.
fn agree_each(page: u8, places: &[u8], bytes: &[u8]) -> bool
    requires { length places.now ≡ length bytes.now }
    ensures { result ≡ true → Agree page places.now bytes.now }
{
    let differing = places
        .iter()
        .zip(bytes)
        .fold(0, |differing, (place, byte)| {
            differing | (kept(page, *place) ^ *byte)
        });
    differing == 0
}

// Whether one byte was read again and again: the first is it, and each of the others is as the one before it. The library's equality stops at the first that differs.
pub fn repeats(byte: u8, bytes: &[u8]) -> bool
    ensures { result ≡ true → Repeats byte bytes.now }
{
    match bytes {
        [] => true,
        [first, others @ ..] => *first == byte && others == &bytes[..others.len()],
    }
}
