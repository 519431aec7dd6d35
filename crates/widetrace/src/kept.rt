// A display memory kept aside, and put back.
ghost use Rattle.std.specs.Prelude.{◌≡◌, ◌++◌, ◌≤◌, length, take, drop};
ghost use Rattle.constants.specs.Sizes.{memory_size};

use constants::sizes::MEMORY_SIZE;

// The bytes of a display memory.
pub fn copied(memory: &[u8]) -> [u8; MEMORY_SIZE]
    requires { memory_size ≤ length memory.now }
    ensures { result ≡ take memory_size memory.now }
{
    *memory.first_chunk().unwrap()
}

// Puts bytes back into a display memory; bytes past it stay.
pub fn put_back(kept: [u8; MEMORY_SIZE], memory: &mut [u8])
    requires { memory_size ≤ length memory.old }
    ensures { memory.new ≡ kept ++ drop memory_size memory.old }
{
    *memory.first_chunk_mut().unwrap() = kept;
}
