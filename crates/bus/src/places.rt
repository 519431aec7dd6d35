// The registers by name, the two forms in which they are held, and the registers of an image.
ghost use Rattle.std.specs.Prelude.{◌≡◌, ℕ, length, get_or};
ghost use Rattle.bus.specs.Registers.{image_of, registers_of, ◌with◌≔◌};
ghost use Rattle.bus.specs.Held.{place_of};
ghost use Rattle.bus.specs.declared.registers.Registers.{Registers as Those};

use crate::registers::Registers;
use constants::sizes::IMAGE_SIZE;

// A register by its name, which is its place in the image.
#[derive(Clone, Copy)]
pub enum Place {
    Page,
    Column,
    Start,
    Offset,
    Multiplex,
    Contrast,
    Ratio,
    Power,
    Bias,
    Quarter,
    Held,
    Phases,
    ColumnDirection,
    RowDirection,
    Entire,
    Reverse,
    On,
    Indicator,
    Mode,
    Awaited,
    Modify,
    Saved,
    Fresh,
}

// Where registers are held: by themselves, as in a run, or in a lent image.
pub trait Held {
    ghost registers: { Self → Those };

    // The bytes that they lie in, whose number stays.
    ghost size: { Self → ℕ };

    // One register.
    fn at(&self, place: Place) -> u8
        ensures { result ≡ get_or (image_of (registers self.now)) (place_of place) 0 };

    // Sets one register.
    fn put(&mut self, place: Place, value: u8)
        ensures registers { registers self.new ≡ (registers self.old with place_of place ≔ value) }
        ensures size { size self.new ≡ size self.old };
}

// A register by its name: a struct's fields cannot be counted.
impl Held for Registers {
    ghost registers = { λ r. r };

    ghost size = { λ r. 0 };

    fn at(&self, place: Place) -> u8 {
        match place {
            Place::Page => self.page,
            Place::Column => self.column,
            Place::Start => self.start,
            Place::Offset => self.offset,
            Place::Multiplex => self.multiplex,
            Place::Contrast => self.contrast,
            Place::Ratio => self.ratio,
            Place::Power => self.power,
            Place::Bias => self.bias,
            Place::Quarter => self.quarter,
            Place::Held => self.held,
            Place::Phases => self.phases,
            Place::ColumnDirection => self.column_direction,
            Place::RowDirection => self.row_direction,
            Place::Entire => self.entire,
            Place::Reverse => self.reverse,
            Place::On => self.on,
            Place::Indicator => self.indicator,
            Place::Mode => self.mode,
            Place::Awaited => self.awaited,
            Place::Modify => self.modify,
            Place::Saved => self.saved,
            Place::Fresh => self.fresh,
        }
    }

    fn put(&mut self, place: Place, value: u8) {
        match place {
            Place::Page => self.page = value,
            Place::Column => self.column = value,
            Place::Start => self.start = value,
            Place::Offset => self.offset = value,
            Place::Multiplex => self.multiplex = value,
            Place::Contrast => self.contrast = value,
            Place::Ratio => self.ratio = value,
            Place::Power => self.power = value,
            Place::Bias => self.bias = value,
            Place::Quarter => self.quarter = value,
            Place::Held => self.held = value,
            Place::Phases => self.phases = value,
            Place::ColumnDirection => self.column_direction = value,
            Place::RowDirection => self.row_direction = value,
            Place::Entire => self.entire = value,
            Place::Reverse => self.reverse = value,
            Place::On => self.on = value,
            Place::Indicator => self.indicator = value,
            Place::Mode => self.mode = value,
            Place::Awaited => self.awaited = value,
            Place::Modify => self.modify = value,
            Place::Saved => self.saved = value,
            Place::Fresh => self.fresh = value,
        }
    }
}

impl Held for [u8; IMAGE_SIZE] {
    ghost registers = { registers_of };

    ghost size = { length };

    fn at(&self, place: Place) -> u8 {
        self[place as usize]
    }

    fn put(&mut self, place: Place, value: u8) {
        self[place as usize] = value;
    }
}

// The registers of an image. It is no `From`: most callers hold a `&mut` image, and `Registers::from(&*image)` is no plainer.
pub fn load(image: &[u8; IMAGE_SIZE]) -> Registers
    ensures { result ≡ registers_of image.now }
{
    Registers {
        page: image[Place::Page as usize],
        column: image[Place::Column as usize],
        start: image[Place::Start as usize],
        offset: image[Place::Offset as usize],
        multiplex: image[Place::Multiplex as usize],
        contrast: image[Place::Contrast as usize],
        ratio: image[Place::Ratio as usize],
        power: image[Place::Power as usize],
        bias: image[Place::Bias as usize],
        quarter: image[Place::Quarter as usize],
        held: image[Place::Held as usize],
        phases: image[Place::Phases as usize],
        column_direction: image[Place::ColumnDirection as usize],
        row_direction: image[Place::RowDirection as usize],
        entire: image[Place::Entire as usize],
        reverse: image[Place::Reverse as usize],
        on: image[Place::On as usize],
        indicator: image[Place::Indicator as usize],
        mode: image[Place::Mode as usize],
        awaited: image[Place::Awaited as usize],
        modify: image[Place::Modify as usize],
        saved: image[Place::Saved as usize],
        fresh: image[Place::Fresh as usize],
    }
}
