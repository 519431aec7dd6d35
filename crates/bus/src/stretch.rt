// Stretches of events: bytes of one kind in order, up to the first that is refused. What a record of each kind does is one call here.
// `inline(always)`, here and in what a run calls: it is all in the loop of the run before the compiler looks at any of it by itself, which made words of some registers that each record took apart and joined again (DECISIONS 230).
ghost use Rattle.std.specs.Prelude.{◌≡◌, List, [], ◌∷◌, map, ◌||◌, ℕ, eqb};
ghost use Rattle.bus.specs.Answer.{byte_answered, is_dummy};
ghost use Rattle.bus.specs.Chip.{reset_pulse};
ghost use Rattle.bus.specs.Recorded.{event, recorded_command, recorded_write, read_as, chip_of, replay};
ghost use Rattle.bus.specs.Stretch.{stretch, stretch_of, halted_at};

use crate::pieces::{pass, write_piece, write_round};
use crate::registers::Registers;
use constants::refusal::Refusal;
use constants::sizes::WIDTH;

// What a stretch comes to: the registers, those of one chip where no other type is named, the count of events taken, and the refusal that stopped it, if any.
#[derive(Clone, Copy)]
pub struct Stretch<R = Registers> {
    pub registers: R,
    pub count: usize,
    pub outcome: Result<(), Refusal>,
}

// Command bytes. The library calls `Registers::command` here and nowhere else: the compiler then puts it into this loop (DECISIONS 58).
#[inline(always)]
pub fn commands(mut registers: Registers, bytes: &[u8]) -> Stretch
    ensures { (memory : List ℕ) → stretch_of result memory ≡ stretch replay (map recorded_command bytes.now) (chip_of registers memory) }
{
    for (at, byte) in bytes.iter().enumerate() {
        // By `let .. else`, as document 01 names it of the run; so below.
        let answer = registers.command(*byte);
        let Ok(left) = answer else {
            return halted(answer.and(Ok(())), at, registers);
        };
        registers = left;
    }
    halted(Ok(()), bytes.len(), registers)
}

// Data bytes written: awaited code, column and page are asked once, since a write that is taken leaves the next as allowed as it was.
#[inline(always)]
pub fn writes(mut registers: Registers, memory: &mut [u8], bytes: &[u8]) -> Stretch
    ensures { stretch_of result memory.new ≡ stretch replay (map recorded_write bytes.now) (chip_of registers memory.old) }
{
    if bytes.len() == 0 {
        return halted(Ok(()), 0, registers);
    }
    let met = registers.access(memory.len());
    let Ok(()) = met else {
        return halted(met, 0, registers);
    };
    if bytes.len() <= WIDTH - usize::from(registers.column) {
        registers = write_piece(registers, memory, bytes);
    } else {
        registers = write_round(registers, memory, bytes);
    }
    halted(Ok(()), bytes.len(), registers)
}

// Data bytes read, compared with the bytes that the firmware read: pieces that are the same are passed over, and the rest is read one by one.
#[inline(always)]
pub fn reads(mut registers: Registers, memory: &[u8], bytes: &[u8]) -> Stretch
    ensures { stretch_of result memory.now ≡ stretch replay (map read_as bytes.now) (chip_of registers memory.now) }
{
    let passed = pass(registers, memory, bytes);
    let count = passed.count;
    let rest = reads_singly(passed.registers, memory, &bytes[count..bytes.len()]);
    let all = count + rest.count;
    halted(rest.outcome, all, rest.registers)
}

// Data bytes read, compared with the bytes that the firmware read; a dummy read is not compared.
#[inline(always)]
fn reads_singly(mut registers: Registers, memory: &[u8], bytes: &[u8]) -> Stretch
    ensures { stretch_of result memory.now ≡ stretch replay (map read_as bytes.now) (chip_of registers memory.now) }
{
    for (at, byte) in bytes.iter().enumerate() {
        let answer = registers.read(memory);
        let Ok(read) = answer else {
            return halted(answer.and(Ok(())), at, registers);
        };
        if agrees(read.byte, *byte) {
            registers = read.registers;
        } else {
            return halted(Err(Refusal::ReadDiffers), at, registers);
        }
    }
    halted(Ok(()), bytes.len(), registers)
}

// A pulse on the reset pin, one event: the power-on state, whatever the state was.
#[inline(always)]
pub fn reset_pin(registers: Registers) -> Stretch
    ensures { (memory : List ℕ) → stretch_of result memory ≡ stretch replay (event reset_pulse ∷ []) (chip_of registers memory) }
{
    halted(Ok(()), 1, registers.reset_pin())
}

// Whether a read is as the firmware read it; a dummy read is not compared.
fn agrees(read: Option<u8>, byte: u8) -> bool
    ensures { result ≡ (is_dummy read || eqb (byte_answered read) byte) }
{
    match read {
        None => true,
        Some(answered) => answered == byte,
    }
}

// Stopped, or all taken, after so many; the registers stand.
#[inline(always)]
fn halted(outcome: Result<(), Refusal>, count: usize, registers: Registers) -> Stretch
    ensures { result ≡ halted_at outcome count registers }
{
    Stretch {
        registers,
        count,
        outcome,
    }
}
