// Where two memories differ.
ghost use Rattle.std.specs.Prelude.{◌≡◌};
ghost use Rattle.differences.specs.Compared.{compared_of};
ghost use Rattle.differences.specs.Compare.{outcome, compare_memories};

use crate::byte::DifferingByte;
use crate::list::{list_all, whole};
use constants::refusal::Refusal;
use constants::sizes::{LONGEST_MEMORY_LIST, MEMORY_SIZE, WIDTH};

// Lists each differing byte of two memories into a lent buffer, or refuses and writes nothing.
pub fn compare_memories(first: &[u8], second: &[u8], list: &mut [u8]) -> Result<usize, Refusal>
    ensures { outcome (compared_of result) list.new ≡ compare_memories first.now second.now list.old }
{
    let first = whole::<MEMORY_SIZE>(first)?;
    let second = whole::<MEMORY_SIZE>(second)?;
    list_all::<DifferingByte, MEMORY_SIZE, WIDTH, LONGEST_MEMORY_LIST>(first, second, list)
}
