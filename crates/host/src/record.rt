// The record that stands at an offset of a trace, by lengths alone: no chip is asked.
ghost use Rattle.std.specs.Prelude.{◌≡◌, drop};
ghost use Rattle.trace.specs.Front.{front_of};
ghost use Rattle.host.specs.Record.{record_reply, record_of};

use constants::refusal::{Refusal, number_met};
use constants::sizes::HEADER_SIZE;
use trace::records::{Front, front_at};

// In C's form (lib.rt).

// The record's kind and the offset after it go to where the host wants them: 0 and the offset itself where no whole record stands there.
#[unsafe(no_mangle)]
#[tactic(auto, unfolding(crate::specs::Record::record_of))]
pub extern "C" fn ssd1815b_record(bytes: &[u8], at: usize, kind: &mut usize, next: &mut usize) -> u8
    ensures { record_reply result kind.new next.new ≡ record_of (front_of (drop at bytes.now)) at }
{
    *kind = 0;
    *next = at;
    match front_at(bytes, at) {
        Front::Nothing => number_met(Ok(())),
        Front::Cut => number_met(Err(Refusal::HeaderCut)),
        Front::Whole(header) => {
            *kind = header.kind;
            *next = at + HEADER_SIZE + header.length;
            number_met(Ok(()))
        }
    }
}
