// Bytes put side by side into their own places of the display memory.
ghost use Rattle.std.specs.Prelude.{◌≡◌, map, ◌≤◌, length};
ghost use Rattle.bus.specs.Memory.{kept};
ghost use Rattle.bus.specs.Pieces.{chunk};

use crate::data::kept;

// So many bytes are put at once.
const CHUNK: usize = 32;

// Puts what a page keeps of some bytes into as many places. Two slices and a fact, here and in same.rt: a struct of both would be made for each call and taken apart in it.
pub fn put(page: u8, places: &mut [u8], bytes: &[u8])
    requires { length places.old ≡ length bytes.now }
    ensures { places.new ≡ map (kept page) bytes.now }
{
    if bytes.len() < CHUNK {
        put_each(page, places, bytes);
        return;
    }
    put_chunks(page, places, bytes);
}

// One by one. With `zip` the check knows nothing of the places that are put; counted along the places it takes 15 % longer.
fn put_each(page: u8, places: &mut [u8], bytes: &[u8])
    requires { length places.old ≡ length bytes.now }
    ensures { places.new ≡ map (kept page) bytes.now }
{
    for (i, byte) in bytes.iter().enumerate() {
        places[i] = kept(page, *byte);
    }
}

// Chunk by chunk; the last chunk ends with the last byte, and may begin in the one before it. Of one `copy_from_slice` the compiler makes `memmove`, and the library needs no more of C than `memset` and `memcpy` (host/test/library.sh).
fn put_chunks(page: u8, places: &mut [u8], bytes: &[u8])
    requires { (chunk ≤ length bytes.now) × (length places.old ≡ length bytes.now) }
    ensures { places.new ≡ map (kept page) bytes.now }
{
    let last = bytes.len() - CHUNK;
    let (chunks, _) = bytes.as_chunks::<CHUNK>();
    for (i, whole) in chunks.iter().enumerate() {
        let at = i * CHUNK;
        put_chunk(&mut places[at..at + CHUNK], chunk_of(page, whole));
    }
    if let Some(end) = bytes.last_chunk::<CHUNK>() {
        put_chunk(&mut places[last..], chunk_of(page, end));
    }
}

// What a page keeps of a chunk, by itself, which lies in no lent memory: the compiler then moves it as one. By `copy_from_slice` in `put_chunk` a record of 132 takes three times as long.
#[inline(always)]
fn chunk_of(page: u8, bytes: &[u8; CHUNK]) -> [u8; CHUNK]
    ensures { result ≡ map (kept page) bytes.now }
{
    let mut held = [0; CHUNK];
    for (i, byte) in bytes.iter().enumerate() {
        held[i] = kept(page, *byte);
    }
    held
}

// Puts a chunk.
#[inline(always)]
fn put_chunk(places: &mut [u8], held: [u8; CHUNK])
    requires { length places.old ≡ chunk }
    ensures { places.new ≡ held }
{
    for (i, byte) in held.iter().enumerate() {
        places[i] = *byte;
    }
}
