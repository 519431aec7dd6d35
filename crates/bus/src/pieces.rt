// Pieces of data: bytes that lie side by side in one page, written or read as one.
// `inline(always)`: into the loop of the run (DECISIONS 230).
ghost use Rattle.std.specs.Prelude.{◌≡◌, ◌≢◌, map, ◌+◌, ◌≤◌, ◌<◌, length};
ghost use Rattle.constants.specs.Sizes.{width, last_column};
ghost use Rattle.constants.specs.Numbers.{taken};
ghost use Rattle.bus.specs.Events.{access};
ghost use Rattle.bus.specs.Recorded.{recorded_write, read_as, chip_of, replay};
ghost use Rattle.bus.specs.Stretch.{stretch, stretched};
ghost use Rattle.bus.specs.Reads.{PassedOver, column_at, dummy_reads, after_dummy};

use crate::data::{address, kept};
use crate::put::put;
use crate::registers::Registers;
use crate::same::{agree, repeats};
use constants::sizes::WIDTH;

// Fewer reads are read one by one.
const FEWEST: usize = 32;

// Writes have no such struct as `Reading` below: each piece changes registers and memory.

// A piece written, from the column on; it ends at column 131 or before it.
#[inline(always)]
pub fn write_piece(registers: Registers, memory: &mut [u8], bytes: &[u8]) -> Registers
    requires { (access registers (length memory.old) ≡ taken) × (0 < length bytes.now) × (registers.column + length bytes.now ≤ width) }
    ensures { (access result (length memory.old) ≡ taken) × (stretch replay (map recorded_write bytes.now) (chip_of registers memory.old) ≡ stretched (chip_of result memory.new) (length bytes.now) taken) }
{
    let from = address(registers.page, registers.column);
    let to = from + bytes.len();
    put(registers.page, &mut memory[from..to], bytes);
    registers
        .with_column(column_after(registers.column, bytes.len()))
        .with_fresh(1)
}

// Bytes written up to column 131, and on from 0 of the same page.
#[inline(always)]
pub fn write_round(mut registers: Registers, memory: &mut [u8], bytes: &[u8]) -> Registers
    requires { (access registers (length memory.old) ≡ taken) × (0 < length bytes.now) }
    ensures { stretch replay (map recorded_write bytes.now) (chip_of registers memory.old) ≡ stretched (chip_of result memory.new) (length bytes.now) taken }
{
    let mut left = bytes;
    // No chunks: the first piece ends at column 131, the others at a row's width.
    while !left.is_empty() {
        let (piece, rest) = left.split_at(piece_size(registers.column, left.len()));
        registers = write_piece(registers, memory, piece);
        left = rest;
    }
    registers
}

// What is passed over of a stretch of reads: the registers after it, and how many they are.
#[derive(Drop)]
pub struct Passed {
    pub registers: Registers,
    pub count: usize,
}

// Passes over reads that are as the firmware read them, as far as that can be told piece by piece.
#[inline(always)]
pub fn pass(registers: Registers, memory: &[u8], bytes: &[u8]) -> Passed
    ensures { PassedOver result registers memory.now bytes.now }
{
    if bytes.len() < FEWEST {
        return Passed {
            registers,
            count: 0,
        };
    }
    let Ok(()) = registers.access(memory.len()) else {
        return Passed {
            registers,
            count: 0,
        };
    };
    let dummies = dummy_reads(registers.fresh);
    let ready = registers.with_fresh(after_dummy(registers.fresh));
    let reading = Reading {
        registers: ready,
        memory,
    };
    let passed = reading.pass(&bytes[dummies..]);
    Passed {
        registers: passed.registers,
        count: dummies + passed.count,
    }
}

// Registers and a memory at which data is read, and the next read is no dummy read.
#[derive(Clone, Copy)]
struct Reading<'a> {
    registers: Registers,
    memory: &'a [u8],
    ghost allowed: { access registers (length memory.now) ≡ taken },
    ghost no_dummy: { registers.fresh ≢ 1 },
}

impl<'a> Reading<'a> {
    // Passes over reads, none of them a dummy read.
    #[inline(always)]
    fn pass(self, bytes: &[u8]) -> Passed
        ensures { PassedOver result self.entry.registers self.entry.memory.now bytes.now }
    {
        if self.registers.modify == 1 {
            return self.pass_again(bytes);
        }
        self.pass_round(bytes)
    }

    // In read-modify-write one byte is read again and again.
    #[inline(always)]
    fn pass_again(self, bytes: &[u8]) -> Passed
        requires { self.registers.modify ≡ 1 }
        ensures { PassedOver result self.entry.registers self.entry.memory.now bytes.now }
    {
        let registers = self.registers;
        let at = address(registers.page, registers.column);
        let byte = kept(registers.page, self.memory[at]);
        let count = if repeats(byte, bytes) { bytes.len() } else { 0 };
        Passed { registers, count }
    }

    // Outside it up to column 131, and on from 0 of the same page.
    #[inline(always)]
    fn pass_round(self, bytes: &[u8]) -> Passed
        requires { self.registers.modify ≢ 1 }
        ensures { PassedOver result self.entry.registers self.entry.memory.now bytes.now }
    {
        let memory = self.memory;
        let mut registers = self.registers;
        let mut left = bytes;
        // No chunks: the first piece ends at column 131, the others at a row's width.
        while !left.is_empty() {
            let (piece, after) = left.split_at(piece_size(registers.column, left.len()));
            let from = address(registers.page, registers.column);
            let to = from + piece.len();
            if agree(registers.page, &memory[from..to], piece) {
                registers = registers.with_column(column_after(registers.column, piece.len()));
                left = after;
            } else {
                break;
            }
        }
        Passed {
            registers,
            count: bytes.len() - left.len(),
        }
    }
}

// How many bytes of those that are left lie up to column 131.
fn piece_size(column: u8, left: usize) -> usize
    requires { (column ≤ last_column) × (0 < left) }
    ensures { (0 < result) × (result ≤ left) × (column + result ≤ width) }
{
    left.min(WIDTH - usize::from(column))
}

// How many dummy reads come first.
fn dummy_reads(fresh: u8) -> usize
    ensures { result ≡ dummy_reads fresh }
{
    usize::from(fresh == 1)
}

// Fresh after them; a value that is neither 0 nor 1 stays.
fn after_dummy(fresh: u8) -> u8
    ensures { result ≡ after_dummy fresh }
{
    if fresh == 1 { 0 } else { fresh }
}

// The column where a piece of so many bytes has ended: after 131 comes 0. It is below 132: `u8::try_from` would have a branch that is never taken.
fn column_after(column: u8, size: usize) -> u8
    requires { column + size ≤ width }
    ensures { result ≡ column_at (column + size) }
{
    let end = usize::from(column) + size;
    if end == WIDTH { 0 } else { end as u8 }
}
