// Commands obeyed where the registers are held: only the registers that a command sets are stored.
// `inline(always)`: into the loop of the run (DECISIONS 230).
ghost use Rattle.std.specs.Prelude.{◌≡◌, MatchResult};
ghost use Rattle.codes.specs.Values.{CommandInRange};
ghost use Rattle.constants.specs.Refusals.{number_of_refusal};
ghost use Rattle.bus.specs.Registers.{◌with◌≔◌};
ghost use Rattle.bus.specs.Places as places;
ghost use Rattle.bus.specs.Held.{place_of};
ghost use Rattle.bus.specs.Events.{obeyed, silently, enter, leave, software_reset};
ghost use Rattle.bus.specs.Answer.{Answer};

use crate::places::{Held, Place};
use codes::Command;
use constants::refusal::Refusal;

// Obeys a command, or refuses it and leaves the registers as they were.
#[tactic(auto, unfolding(crate::specs::Events::obeyed))]
#[inline(always)]
pub(crate) fn obey<H: Held>(held: &mut H, named: Command) -> Result<(), Refusal>
    requires { CommandInRange named }
    ensures met { let met = obeyed named (H.registers held.old with places.awaited ≔ 0) in MatchResult result (λ done. met ≡ silently (H.registers held.new)) (λ refusal. (met ≡ Answer.Refused (number_of_refusal refusal)) × (H.registers held.new ≡ H.registers held.old)) }
    ensures size { H.size held.new ≡ H.size held.old }
{
    let column = held.at(Place::Column);
    match named {
        Command::ColumnLow(low) => set(held, Place::Column, column / 16 * 16 + low),
        Command::ColumnHigh(high) => set(held, Place::Column, high * 16 + column % 16),
        Command::ResistorRatio(ratio) => set(held, Place::Ratio, ratio),
        Command::PowerControl(power) => set(held, Place::Power, power),
        Command::StartLine(line) => set(held, Place::Start, line),
        Command::Contrast(contrast) => set(held, Place::Contrast, contrast),
        Command::ColumnDirection(direction) => set(held, Place::ColumnDirection, direction),
        Command::Bias(bias) => set(held, Place::Bias, bias),
        Command::EntireOn(entire) => set(held, Place::Entire, entire),
        Command::Reverse(reverse) => set(held, Place::Reverse, reverse),
        Command::Multiplex(multiplex) => set(held, Place::Multiplex, multiplex),
        Command::HeldByte(byte) => set(held, Place::Held, byte),
        Command::QuarterBias(bias) => set(held, Place::Quarter, bias),
        Command::IndicatorOff => indicate(held, 0, 0),
        Command::IndicatorMode(mode) => indicate(held, 1, mode),
        Command::DisplayOn(on) => set(held, Place::On, on),
        Command::Page(page) => set(held, Place::Page, page),
        Command::NoPage => return Err(Refusal::NoPage),
        Command::RowDirection(direction) => set(held, Place::RowDirection, direction),
        Command::Offset(offset) => set(held, Place::Offset, offset),
        Command::FramePhases(phases) => set(held, Place::Phases, phases),
        Command::EnterReadModifyWrite => enter(held),
        Command::SoftwareReset => software_reset(held),
        Command::Nothing => set(held, Place::Awaited, 0),
        Command::LeaveReadModifyWrite => leave(held),
        Command::Await(code) => set(held, Place::Awaited, code),
        Command::NotAllowed => return Err(Refusal::NotAllowed),
        Command::NotAwaited => return Err(Refusal::OutOfRange),
        Command::TestMode => return Err(Refusal::TestMode),
        Command::Outside => return Err(Refusal::OutsideTable),
    }
    Ok(())
}

// Sets one register, and what every command taken sets: no code is awaited, unless that is the register, and fresh is 1.
#[inline(always)]
fn set<H: Held>(held: &mut H, place: Place, value: u8)
    ensures registers { H.registers held.new ≡ (H.registers held.old with places.awaited ≔ 0 with place_of place ≔ value with places.fresh ≔ 1) }
    ensures size { H.size held.new ≡ H.size held.old }
{
    held.put(Place::Awaited, 0);
    held.put(place, value);
    held.put(Place::Fresh, 1);
}

// AC and AD: the indicator off or on, and its mode.
#[inline(always)]
fn indicate<H: Held>(held: &mut H, indicator: u8, mode: u8)
    ensures registers { H.registers held.new ≡ (H.registers held.old with places.awaited ≔ 0 with places.indicator ≔ indicator with places.mode ≔ mode with places.fresh ≔ 1) }
    ensures size { H.size held.new ≡ H.size held.old }
{
    held.put(Place::Indicator, indicator);
    set(held, Place::Mode, mode);
}

// E0: read-modify-write is entered and the column saved, unless it is entered already.
#[inline(always)]
fn enter<H: Held>(held: &mut H)
    ensures registers { H.registers held.new ≡ (enter (H.registers held.old with places.awaited ≔ 0) with places.fresh ≔ 1) }
    ensures size { H.size held.new ≡ H.size held.old }
{
    if held.at(Place::Modify) == 1 {
        return set(held, Place::Awaited, 0);
    }
    let column = held.at(Place::Column);
    held.put(Place::Modify, 1);
    set(held, Place::Saved, column);
}

// EE: read-modify-write is left and the column put back, unless it is left already.
#[inline(always)]
fn leave<H: Held>(held: &mut H)
    ensures registers { H.registers held.new ≡ (leave (H.registers held.old with places.awaited ≔ 0) with places.fresh ≔ 1) }
    ensures size { H.size held.new ≡ H.size held.old }
{
    if held.at(Place::Modify) == 1 {
        let saved = held.at(Place::Saved);
        held.put(Place::Modify, 0);
        held.put(Place::Column, saved);
        return set(held, Place::Saved, 0);
    }
    set(held, Place::Awaited, 0);
}

// E2: the registers that a software reset sets.
#[inline(always)]
fn software_reset<H: Held>(held: &mut H)
    ensures registers { H.registers held.new ≡ (software_reset (H.registers held.old with places.awaited ≔ 0) with places.fresh ≔ 1) }
    ensures size { H.size held.new ≡ H.size held.old }
{
    held.put(Place::Page, 0);
    held.put(Place::Column, 0);
    held.put(Place::Start, 0);
    held.put(Place::RowDirection, 0);
    held.put(Place::Ratio, 4);
    held.put(Place::Contrast, 32);
    held.put(Place::Indicator, 0);
    held.put(Place::Mode, 0);
    held.put(Place::Modify, 0);
    set(held, Place::Saved, 0);
}
