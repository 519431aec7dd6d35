// The differing bytes of one page.
ghost use Rattle.std.specs.Prelude.{◌≡◌, ℕ, ◌+◌, ◌*◌, ◌≤◌, length};
ghost use Rattle.std.proofs.lemmas.List.Edits.{sets};
ghost use Rattle.std.proofs.Common.{lit≤};
ghost use Rattle.constants.specs.Sizes.{width, memory_entry_size};
ghost use Rattle.differences.specs.Bytes.{page_bytes};
ghost use Rattle.differences.specs.Found.{byte_bytes, bytes_found};
ghost use Rattle.differences.specs.Laws.{byte_bytes_sized, bytes_found_few, bytes_found_none};
ghost use Rattle.differences.specs.Put.{Room, Put};

use crate::list::{Entry, ROW};
use bus::data::kept;
use constants::sizes::MEMORY_ENTRY_SIZE;

// A differing byte: its place in the memory, and its contents in the first memory and in the second.
#[derive(Clone, Copy)]
pub struct DifferingByte {
    pub place: u16,
    pub in_first: u8,
    pub in_second: u8,
}

impl DifferingByte {
    // Puts the byte as entry number `at`, its place low byte first. Byte by byte: with an array and `copy_from_slice` the loop over a page
    // is not unrolled, and memories of which five bytes differ take 371 ns for 250.
    fn put_at(self, list: &mut [u8], at: usize)
        requires { at * memory_entry_size + memory_entry_size ≤ length list.old }
        ensures { list.new ≡ sets list.old (at * memory_entry_size) (byte_bytes self) }
    {
        let start = at * MEMORY_ENTRY_SIZE;
        let [low, high] = self.place.to_le_bytes();
        list[start] = low;
        list[start + 1] = high;
        list[start + 2] = self.in_first;
        list[start + 3] = self.in_second;
    }
}

impl Entry for DifferingByte {
    ghost SIZE = { memory_entry_size };

    ghost bytes = { byte_bytes };

    ghost found = { bytes_found };

    ghost sized = { byte_bytes_sized };

    ghost small = { lit≤ tt };

    ghost few = { bytes_found_few };

    ghost none = { bytes_found_none };

    const SIZE: usize = MEMORY_ENTRY_SIZE;

    // By column, here and below: both rows are read at it, and its number is a part of the entry, whose place is below 1,188 (`as u16`).
    fn count(row: u8, first: &[u8; ROW], second: &[u8; ROW]) -> u8 {
        let mut count = 0;
        for column in 0..ROW {
            count += u8::from(kept(row, first[column]) != kept(row, second[column]));
        }
        count
    }

    fn put(list: &mut [u8], at: usize, row: u8, first: &[u8; ROW], second: &[u8; ROW]) -> usize {
        let start = usize::from(row) * ROW;
        let mut next = at;
        for column in 0..ROW {
            let was = kept(row, first[column]);
            let is = kept(row, second[column]);
            if was != is {
                let byte = DifferingByte {
                    place: (start + column) as u16,
                    in_first: was,
                    in_second: is,
                };
                byte.put_at(list, next);
                next += 1;
            }
        }
        next
    }
}
