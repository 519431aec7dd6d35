// Where two frames, or two memories, differ.
ghost use Rattle.std.specs.Prelude.{◌≡◌};
ghost use Rattle.differences.specs.Compare.{compare_frames, compare_memories};
ghost use Rattle.host.specs.Compare.{compare_reply, of_compared};

use constants::refusal::hand_count;

// In C's form (lib.rt).

// Lists the differing runs of two frames: the count of entries goes to where the host wants it, 0 where it is refused.
#[unsafe(no_mangle)]
pub extern "C" fn ssd1815b_compare_frames(
    first: &[u8],
    second: &[u8],
    list: &mut [u8],
    count: &mut usize,
) -> u8
    ensures { compare_reply result count.new list.new ≡ of_compared (compare_frames first.now second.now list.old) }
{
    let compared = differences::frames::compare_frames(first, second, list);
    hand_count(compared, count)
}

// Lists the differing bytes of two memories, in the same way.
#[unsafe(no_mangle)]
pub extern "C" fn ssd1815b_compare_memories(
    first: &[u8],
    second: &[u8],
    list: &mut [u8],
    count: &mut usize,
) -> u8
    ensures { compare_reply result count.new list.new ≡ of_compared (compare_memories first.now second.now list.old) }
{
    let compared = differences::memories::compare_memories(first, second, list);
    hand_count(compared, count)
}
