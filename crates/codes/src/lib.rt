// Layer 1, command codes: which command of document 01's table a command byte is, and what the byte after an awaiting code gives.
#![tactic(auto)]

ghost use Rattle.std.specs.Prelude.{◌≡◌};
ghost use Rattle.codes.specs.Table.{meaning_of, command_of, operand_of, offset_of, frame_phases_of};

// A command byte, named, with the value that it carries: a command, or the n of a command of two bytes. Bytes that are refused are cases too, since each row of the one table has its case, by which a listing marks it (specs/Table `table`, DECISIONS 174); a value of 0 or 1 is the register's number, as the image has it.
#[derive(Clone, Copy, Debug, PartialEq, Eq)]
pub enum Command {
    ColumnLow(u8),
    ColumnHigh(u8),
    ResistorRatio(u8),
    PowerControl(u8),
    StartLine(u8),
    Contrast(u8),
    ColumnDirection(u8),
    Bias(u8),
    EntireOn(u8),
    Reverse(u8),
    Multiplex(u8),
    HeldByte(u8),
    QuarterBias(u8),
    IndicatorOff,
    IndicatorMode(u8),
    DisplayOn(u8),
    Page(u8),
    // B9 to BF, which name no page.
    NoPage,
    RowDirection(u8),
    Offset(u8),
    FramePhases(u8),
    EnterReadModifyWrite,
    SoftwareReset,
    Nothing,
    LeaveReadModifyWrite,
    // The first byte of a command of two: it is held as the awaited code.
    Await(u8),
    // An n that D3 or D4 does not allow.
    NotAllowed,
    // An n where the code is none that awaits n.
    NotAwaited,
    // F0 to FF, a real chip's test mode.
    TestMode,
    // Any other byte outside the table: reserved or not modelled.
    Outside,
}

// What a command byte is where `awaited` is the awaited code, 0 for none, as the image has it. No code that awaits n is below 81; that is asked first for speed (DECISIONS 36).
#[tactic(auto, unfolding(crate::specs::Table::table, crate::specs::Table::meaning_of, crate::specs::Table::operand_of, crate::specs::Table::operand_by))]
pub fn meaning_of(awaited: u8, byte: u8) -> Command
    ensures { result ≡ meaning_of awaited byte }
{
    if awaited < 0x81 {
        if awaited == 0 {
            return command_of(byte);
        }
        return Command::NotAwaited;
    }
    operand_of(awaited, byte)
}

// The command that a byte is where no code is awaited.
#[tactic(auto, unfolding(crate::specs::Table::table, crate::specs::Table::command_of, crate::specs::Table::command_by))]
fn command_of(byte: u8) -> Command
    ensures { result ≡ command_of byte }
{
    match byte {
        0x00..=0x0F => Command::ColumnLow(byte % 16),
        0x10..=0x1F => Command::ColumnHigh(byte % 16),
        0x20..=0x27 => Command::ResistorRatio(byte % 8),
        0x28..=0x2F => Command::PowerControl(byte % 8),
        0x40..=0x7F => Command::StartLine(byte % 64),
        0x81 => Command::Await(byte),
        0xA0 => Command::ColumnDirection(0),
        0xA1 => Command::ColumnDirection(1),
        0xA2 => Command::Bias(0),
        0xA3 => Command::Bias(1),
        0xA4 => Command::EntireOn(0),
        0xA5 => Command::EntireOn(1),
        0xA6 => Command::Reverse(0),
        0xA7 => Command::Reverse(1),
        0xA8 => Command::Await(byte),
        0xA9 => Command::Await(byte),
        0xAA => Command::QuarterBias(0),
        0xAB => Command::QuarterBias(1),
        0xAC => Command::IndicatorOff,
        0xAD => Command::Await(byte),
        0xAE => Command::DisplayOn(0),
        0xAF => Command::DisplayOn(1),
        0xB0..=0xB8 => Command::Page(byte % 16),
        0xB9..=0xBF => Command::NoPage,
        0xC0..=0xC7 => Command::RowDirection(0),
        0xC8..=0xCF => Command::RowDirection(1),
        0xD3 => Command::Await(byte),
        0xD4 => Command::Await(byte),
        0xE0 => Command::EnterReadModifyWrite,
        0xE2 => Command::SoftwareReset,
        0xE3 => Command::Nothing,
        0xEE => Command::LeaveReadModifyWrite,
        0xF0..=0xFF => Command::TestMode,
        0x30..=0x3F | 0x80 | 0x82..=0x9F => Command::Outside,
        0xD0..=0xD2 | 0xD5..=0xDF => Command::Outside,
        0xE1 | 0xE4..=0xED | 0xEF => Command::Outside,
    }
}

// What n gives where `code` is awaited: the document's table, row by row; two rows have a rule of their own.
#[tactic(auto, unfolding(crate::specs::Table::table, crate::specs::Table::operand_of, crate::specs::Table::operand_by))]
fn operand_of(code: u8, n: u8) -> Command
    ensures { result ≡ operand_of code n }
{
    match code {
        0x81 => Command::Contrast(n % 64),
        0xA8 => Command::Multiplex(n % 64),
        0xA9 => Command::HeldByte(n),
        0xAD => Command::IndicatorMode(n % 4),
        0xD3 => offset_of(n),
        0xD4 => frame_phases_of(n),
        _ => Command::NotAwaited,
    }
}

// The n of D3: an offset of at most 3F.
#[tactic(auto, unfolding(crate::specs::Table::offset_of))]
fn offset_of(n: u8) -> Command
    ensures { result ≡ offset_of n }
{
    if n <= 0x3F {
        Command::Offset(n)
    } else {
        Command::NotAllowed
    }
}

// The n of D4: 00, 10, 20 or 30.
#[tactic(auto, unfolding(crate::specs::Table::frame_phases_of))]
fn frame_phases_of(n: u8) -> Command
    ensures { result ≡ frame_phases_of n }
{
    match n {
        0x00 => Command::FramePhases(0),
        0x10 => Command::FramePhases(1),
        0x20 => Command::FramePhases(2),
        0x30 => Command::FramePhases(3),
        _ => Command::NotAllowed,
    }
}
