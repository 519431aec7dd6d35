// The registers of document 01, in its order.
// `inline(always)`: into the loop of the run (DECISIONS 230).
ghost use Rattle.std.specs.Prelude.{◌≡◌};
ghost use Rattle.bus.specs.Registers.{power_on, power_state, ◌with◌≔◌};
ghost use Rattle.bus.specs.Places.{column, fresh};

// The registers. Numbers as the image has them: events on any bytes of a lent state are promised (specs/Settled), so that no field is narrower than a byte.
#[derive(Clone, Copy)]
pub struct Registers {
    pub page: u8,
    pub column: u8,
    // Start line.
    pub start: u8,
    pub offset: u8,
    pub multiplex: u8,
    pub contrast: u8,
    // Resistor ratio.
    pub ratio: u8,
    // Power control.
    pub power: u8,
    pub bias: u8,
    // Quarter bias.
    pub quarter: u8,
    // The byte of A9.
    pub held: u8,
    // Frame phases.
    pub phases: u8,
    // Column direction: 0 normal, 1 mirrored.
    pub column_direction: u8,
    // Row direction: 0 normal, 1 reversed.
    pub row_direction: u8,
    // Entire on.
    pub entire: u8,
    pub reverse: u8,
    // Display on.
    pub on: u8,
    // Indicator on.
    pub indicator: u8,
    // Indicator mode.
    pub mode: u8,
    // Awaited code, 0 where none is awaited.
    pub awaited: u8,
    // Read-modify-write.
    pub modify: u8,
    // Saved column.
    pub saved: u8,
    pub fresh: u8,
}

// Awake, or in power save by its name; C is handed the number.
#[derive(Clone, Copy, Debug, PartialEq, Eq)]
pub enum PowerState {
    Awake = 0,
    Sleep = 1,
    Standby = 2,
}

impl Registers {
    // The registers at power-on.
    #[inline(always)]
    pub fn power_on() -> Registers
        ensures { result ≡ power_on }
    {
        Registers {
            page: 0,
            column: 0,
            start: 0,
            offset: 0,
            multiplex: 63,
            contrast: 32,
            ratio: 4,
            power: 0,
            bias: 0,
            quarter: 0,
            held: 0,
            phases: 0,
            column_direction: 0,
            row_direction: 0,
            entire: 0,
            reverse: 0,
            on: 0,
            indicator: 0,
            mode: 0,
            awaited: 0,
            modify: 0,
            saved: 0,
            fresh: 1,
        }
    }

    // Whether the chip is in power save, and in which.
    pub fn power_state(self) -> PowerState
        ensures { result ≡ power_state self }
    {
        if self.on == 0 {
            if self.entire == 1 {
                if self.indicator == 1 {
                    return PowerState::Standby;
                }
                return PowerState::Sleep;
            }
        }
        PowerState::Awake
    }

    // This and the next are two public calls, each with a field of specs/Settled.
    #[inline(always)]
    pub fn with_column(mut self, value: u8) -> Registers
        ensures { result ≡ (self with column ≔ value) }
    {
        self.column = value;
        self
    }

    #[inline(always)]
    pub fn with_fresh(mut self, value: u8) -> Registers
        ensures { result ≡ (self with fresh ≔ value) }
    {
        self.fresh = value;
        self
    }
}
