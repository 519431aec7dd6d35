// What a taken read answers.
use crate::registers::Registers;

// The registers that a taken read leaves, and the byte; none where it was the dummy read.
#[derive(Clone, Copy)]
pub struct Read {
    pub registers: Registers,
    pub byte: Option<u8>,
}
