// What a record of a wide trace is to one chip of the terminal.
ghost use Rattle.std.specs.Prelude.{◌≡◌, ◌+◌, ◌<◌, ◌^◌, cond};
ghost use Rattle.constants.specs.Sizes.{header_size};
ghost use Rattle.widebus.specs.Selection.{result_of};
ghost use Rattle.widetrace.specs.EachChip.{hears};
ghost use Rattle.widetrace.specs.Terminal.{selected_by};
ghost use Rattle.widetrace.specs.Code.{heed_met, Obeys};
ghost use Rattle.widetrace.specs.Heeding.{selected_before, heed_of};
ghost use Rattle.widetrace.specs.declared.heed.Heed.{Heed};

use constants::refusal::Refusal;
use constants::sizes::HEADER_SIZE;
use trace::kind::Kind;
use trace::records::Header;
use trace::run::Halt;
use widebus::selection::{Selection, Side};

// The kind of a select record, which is for the terminal and for no chip.
const SELECT: usize = 5;

// The chip obeys the record, which is of a kind; or passes it by, and the chips are selected that stand beside it.
#[derive(Clone, Copy, Debug, PartialEq, Eq)]
pub enum Heed {
    Obeys(Kind),
    Passes(Selection),
}

// How the chip on a side heeds a record of a kind at an offset, which is for the refusal alone, by the bytes of its payload.
pub fn heed_of(
    side: Side,
    selection: Selection,
    kind: usize,
    at: usize,
    payload: &[u8],
) -> Result<Heed, Halt>
    requires { at + header_size < 2 ^ 64 }
    ensures heeds { heed_met result ≡ heed_of side selection kind at payload.now }
    ensures obeys { Obeys result kind payload.now }
{
    if kind == SELECT {
        return selected(payload, at);
    }
    let header = Header {
        kind,
        length: payload.len(),
    };
    match Kind::try_from(header) {
        Ok(kind) if kind != Kind::Reads => Ok(for_selected(side, selection, kind)),
        Ok(_) if payload.is_empty() => Ok(Heed::Passes(selection)),
        Ok(_) if selection == Selection::Both => Err(Halt {
            refusal: Refusal::BothSelected,
            offset: at + HEADER_SIZE,
        }),
        Ok(kind) => Ok(for_selected(side, selection, kind)),
        Err(refusal) => Err(Halt {
            refusal,
            offset: at,
        }),
    }
}

// A record for the selected chips: a chip that hears it obeys it.
fn for_selected(side: Side, selection: Selection, kind: Kind) -> Heed
    ensures { result ≡ cond (hears side selection) (Heed.Obeys kind) (Heed.Passes selection) }
{
    if hears(side, selection) {
        Heed::Obeys(kind)
    } else {
        Heed::Passes(selection)
    }
}

// A select record at an offset: one byte, which says who is selected.
fn selected(payload: &[u8], at: usize) -> Result<Heed, Halt>
    ensures heeds { heed_met result ≡ selected_before at (selected_by payload.now) }
    ensures passes { Obeys result 5 payload.now }
{
    match chosen(payload) {
        Ok(next) => Ok(Heed::Passes(next)),
        Err(refusal) => Err(Halt {
            refusal,
            offset: at,
        }),
    }
}

// Who is selected by the payload of a select record.
#[tactic(auto, unfolding(crate::specs::Terminal::selected_by))]
fn chosen(payload: &[u8]) -> Result<Selection, Refusal>
    ensures { result_of result ≡ selected_by payload.now }
{
    match payload {
        [number] => Selection::try_from(*number),
        _ => Err(Refusal::NoSelection),
    }
}

// Whether the chip on a side is selected.
fn hears(side: Side, selection: Selection) -> bool
    ensures { result ≡ hears side selection }
{
    matches!(
        (side, selection),
        (_, Selection::Both) | (Side::Left, Selection::Left) | (Side::Right, Selection::Right)
    )
}
