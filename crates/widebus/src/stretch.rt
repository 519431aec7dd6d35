// Stretches of events on the selected chips: bytes of one kind in order, up to the first that a selected chip refuses. The chips do not see each other, so each has a stretch of its own.
ghost use Rattle.std.specs.Prelude.{◌≡◌, List, map, ℕ};
ghost use Rattle.bus.specs.Recorded.{recorded_command, recorded_write};
ghost use Rattle.bus.specs.Stretch.{stretch};
ghost use Rattle.widebus.specs.Pair.{chips_of};
ghost use Rattle.widebus.specs.Events.{replay_on};
ghost use Rattle.widebus.specs.WideStretch.{wide_stretch_of};

use crate::both::Both;
use crate::selection::Selection;
use bus::registers::Registers;
use bus::stretch::Stretch;
use constants::refusal::Refusal;

// What a stretch comes to: the registers of both chips, the count of events taken, and the refusal that stopped it, if any.
pub type WideStretch = Stretch<Both>;

// Command bytes. It and `writes` match on the selection by themselves: they differ in the call below and in the memories that go with it, which closures for one chip and for both would all name again.
pub fn commands(selection: Selection, registers: Both, bytes: &[u8]) -> WideStretch
    ensures { (left right : List ℕ) → wide_stretch_of result left right ≡ stretch (replay_on selection) (map recorded_command bytes.now) (chips_of registers left right) }
{
    let Both { left, right } = registers;
    match selection {
        Selection::Left => {
            let own = bus::stretch::commands(left, bytes);
            widened(own, own.registers, right)
        }
        Selection::Right => {
            let own = bus::stretch::commands(right, bytes);
            widened(own, left, own.registers)
        }
        Selection::Both => commands_for_both(registers, bytes),
    }
}

// Command bytes for both: the right chip gets what the left one took; if it takes less, the left one takes no more.
fn commands_for_both(registers: Both, bytes: &[u8]) -> WideStretch
    ensures { (left right : List ℕ) → wide_stretch_of result left right ≡ stretch (replay_on Selection.Both) (map recorded_command bytes.now) (chips_of registers left right) }
{
    let first = bus::stretch::commands(registers.left, bytes);
    let second = bus::stretch::commands(registers.right, &bytes[..first.count]);
    if second.outcome.is_ok() {
        return widened(first, first.registers, second.registers);
    }
    let again = bus::stretch::commands(registers.left, &bytes[..second.count]);
    widened(second, again.registers, second.registers)
}

// Data bytes written.
pub fn writes(
    selection: Selection,
    registers: Both,
    left_memory: &mut [u8],
    right_memory: &mut [u8],
    bytes: &[u8],
) -> WideStretch
    ensures { wide_stretch_of result left_memory.new right_memory.new ≡ stretch (replay_on selection) (map recorded_write bytes.now) (chips_of registers left_memory.old right_memory.old) }
{
    let Both { left, right } = registers;
    match selection {
        Selection::Left => {
            let own = bus::stretch::writes(left, left_memory, bytes);
            widened(own, own.registers, right)
        }
        Selection::Right => {
            let own = bus::stretch::writes(right, right_memory, bytes);
            widened(own, left, own.registers)
        }
        Selection::Both => writes_for_both(registers, left_memory, right_memory, bytes),
    }
}

// Data bytes written to both: a chip that takes the first takes them all, so that both are asked before either writes.
fn writes_for_both(
    registers: Both,
    left_memory: &mut [u8],
    right_memory: &mut [u8],
    bytes: &[u8],
) -> WideStretch
    ensures { wide_stretch_of result left_memory.new right_memory.new ≡ stretch (replay_on Selection.Both) (map recorded_write bytes.now) (chips_of registers left_memory.old right_memory.old) }
{
    if bytes.is_empty() {
        return halted(Ok(()), registers);
    }
    let met = registers.access(left_memory.len(), right_memory.len());
    if met.is_err() {
        return halted(met, registers);
    }
    let first = bus::stretch::writes(registers.left, left_memory, bytes);
    let second = bus::stretch::writes(registers.right, right_memory, bytes);
    widened(first, first.registers, second.registers)
}

// One chip's stretch, with the registers of both beside it.
fn widened(own: Stretch, left: Registers, right: Registers) -> WideStretch
    ensures { result ≡ record { registers = record { left = left; right = right }; count = own.count; outcome = own.outcome } }
{
    Stretch {
        registers: Both { left, right },
        count: own.count,
        outcome: own.outcome,
    }
}

// Stopped before the first event, or with none to come.
fn halted(outcome: Result<(), Refusal>, registers: Both) -> WideStretch
    ensures { result ≡ record { registers = registers; count = 0; outcome = outcome } }
{
    Stretch {
        registers,
        count: 0,
        outcome,
    }
}
