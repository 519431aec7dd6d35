// The listing program for many traces: a pack of them from standard input, the listing of each to standard output.
#![tactic(auto)]

mod pack;

use constants::sizes::LONGEST_LISTING;
use pack::{Entry, HEADER_SIZE, entry_at, hung_by};
use standardinput::read_input;
use std::io;

// Bytes of the longest pack.
const LONGEST_PACK: usize = 131072;

fn main(rt: HostRuntime) {
    let mut pack = [0u8; LONGEST_PACK + 1];
    let Ok(count) = read_input(rt.stdin(), &mut pack) else {
        let _ = eprintln!(rt; "listpack: standard input cannot be read");
        return;
    };
    if list_pack(&rt, &pack[..count]).is_ok() {
        return;
    }
    let _ = eprintln!(rt; "listpack: standard output cannot be written");
}

// Lists a pack that is not too long. Fails, as each of these does, where not all was written.
fn list_pack(rt: &impl Print, pack: &[u8]) -> io::Result<()> {
    if LONGEST_PACK < pack.len() {
        return println!(rt; "pack too long");
    }
    list_entries(rt, pack)
}

// Lists the entries of a pack in turn. The last line says how many there are, or where the pack is cut.
// No `for` over entries: the last line says the count, or the place of the cut.
#[tactic(auto, using(crate::proofs::Entries::within))]
fn list_entries(rt: &impl Print, pack: &[u8]) -> io::Result<()> {
    let mut at = 0;
    let mut count = 0usize;
    loop {
        match entry_at(pack, at) {
            Entry::Nothing => return println!(rt; "{count} traces"),
            Entry::Cut => return println!(rt; "pack cut short at {at}"),
            Entry::Whole(sizes) => {
                let name = at + HEADER_SIZE;
                let trace = name + sizes.name;
                let end = trace + sizes.trace;
                list_entry(rt, &pack[name..trace], &pack[trace..end])?;
                at = end;
                count += 1;
            }
        }
    }
}

// Prints an entry's name, and what the listing program prints for its trace from the start that the name asks for.
fn list_entry(rt: &impl Print, name: &[u8], trace: &[u8]) -> io::Result<()> {
    let mut text = [0u8; LONGEST_LISTING];
    let length = tracelisting::list_input(hung_by(name), trace, &mut text);
    rt.write_all(b"trace ")?;
    rt.write_all(name)?;
    rt.write_all(b"\n")?;
    rt.write_all(&text[..length])
}
