// The power state: awake, or in power save by its name.
ghost use Rattle.std.specs.Prelude.{◌≡◌};
ghost use Rattle.hostbus.specs.PowerState.{power_reply, number_of_power, power_state_of};

use bus::image::ask_state;
use bus::registers::PowerState;
use constants::refusal::TAKEN;

// In C's form (lib.rt).

// The power state of the registers goes to where the host wants it, awake where the state is refused.
#[unsafe(no_mangle)]
pub extern "C" fn ssd1815b_power_state(state: &[u8], power: &mut u8) -> u8
    ensures { power_reply result power.new ≡ power_state_of state.now }
{
    match ask_state(state) {
        Ok(registers) => {
            *power = power_number(registers.power_state());
            TAKEN
        }
        Err(refusal) => {
            *power = power_number(PowerState::Awake);
            u8::from(refusal)
        }
    }
}

// The number of a power state.
#[tactic(auto, unfolding(crate::specs::PowerState::number_of_power))]
fn power_number(power: PowerState) -> u8
    ensures { result ≡ number_of_power power }
{
    power as u8
}
