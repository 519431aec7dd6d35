// Data written to and read from the display memory.
// `inline(always)`: into the loop of the run (DECISIONS 230).
ghost use Rattle.std.specs.Prelude.{◌≡◌, ◌≤◌, length};
ghost use Rattle.constants.specs.Sizes.{last_column};
ghost use Rattle.constants.specs.Refusals.{number_met};
ghost use Rattle.bus.specs.Answer.{answer_of, answer_of_read};
ghost use Rattle.bus.specs.Memory.{address, kept, onward};
ghost use Rattle.bus.specs.Events.{access, write, written, read};

use crate::answer::Read;
use crate::registers::Registers;
use constants::refusal::Refusal;
use constants::sizes::{ICON_PAGE, LAST_COLUMN, MEMORY_SIZE, PAGES, WIDTH};

impl Registers {
    // A data byte written: one byte of the memory is stored, fresh is 1 and the column moves on.
    pub fn write(self, memory: &mut [u8], byte: u8) -> Result<Registers, Refusal>
        ensures { (answer_of result ≡ write self (length memory.old)) × (memory.new ≡ written byte self memory.old) }
    {
        self.access(memory.len())?;
        let at = address(self.page, self.column);
        memory[at] = kept(self.page, byte);
        Ok(self.with_column(onward(self.column)).with_fresh(1))
    }

    // A data byte read: the dummy read where fresh is 1, else the byte, and the column moves on outside read-modify-write.
    #[inline(always)]
    pub fn read(self, memory: &[u8]) -> Result<Read, Refusal>
        ensures { answer_of_read result ≡ read self memory.now }
    {
        self.access(memory.len())?;
        // The last return alone moves the column on.
        let moved = self.with_column(onward(self.column));
        if self.fresh == 1 {
            let registers = self.with_fresh(0);
            return Ok(Read {
                registers,
                byte: None,
            });
        }
        let at = address(self.page, self.column);
        let byte = Some(kept(self.page, memory[at]));
        if self.modify == 1 {
            return Ok(Read {
                registers: self,
                byte,
            });
        }
        Ok(Read {
            registers: moved,
            byte,
        })
    }

    // What a data write or read meets, at a memory of so many bytes: 1 and 2 as far as it uses them, then 6, then 7.
    #[inline(always)]
    pub fn access(self, memory: usize) -> Result<(), Refusal>
        ensures { number_met result ≡ access self memory }
    {
        if memory < MEMORY_SIZE {
            return Err(Refusal::TooShort);
        }
        if self.page < PAGES {
            if self.awaited == 0 {
                if self.column <= LAST_COLUMN {
                    return Ok(());
                }
                return Err(Refusal::ColumnAbove);
            }
            return Err(Refusal::CodeAwaited);
        }
        Err(Refusal::OutOfRange)
    }
}

// Where page and column lie in the display memory.
pub(crate) fn address(page: u8, column: u8) -> usize
    ensures { result ≡ address page column }
{
    usize::from(page) * WIDTH + usize::from(column)
}

// What the memory keeps of a byte: on page 8 its bit 0.
pub fn kept(page: u8, byte: u8) -> u8
    ensures { result ≡ kept page byte }
{
    if page == ICON_PAGE { byte % 2 } else { byte }
}

// The column after a column: after 131 comes 0.
fn onward(column: u8) -> u8
    requires { column ≤ last_column }
    ensures { result ≡ onward column }
{
    if column == LAST_COLUMN { 0 } else { column + 1 }
}
