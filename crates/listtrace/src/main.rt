// The listing program: a trace from standard input, the frame that it leaves on the glass to standard output.
#![tactic(auto)]

mod arguments;

use arguments::start_asked;
use bus::start::Hung;
use constants::sizes::{LONGEST_LISTING, LONGEST_TRACE};
use standardinput::read_input;
use std::env::{Env, FillError};
use std::io::Stdin;

// Room for the argument that is taken, and a byte more.
const ARGUMENT_ROOM: usize = 10;

fn main(rt: HostRuntime) {
    let mut word = [0u8; ARGUMENT_ROOM];
    let length = rt.arg(1, &mut word).unwrap_or(0);
    // How many words the program was called by, its own name among them.
    let mut nothing = [0u8; 0];
    let count = (0..usize::MAX)
        .take_while(|i| !matches!(rt.arg(*i, &mut nothing), Err(FillError::NotPresent)))
        .count();
    let Some(hung) = start_asked(count, &word[..length]) else {
        let _ = eprintln!(rt; "listtrace: the only argument is --upright");
        return;
    };
    list_from(&rt, rt.stdin(), hung);
}

// Reads the trace, and prints its listing from the start as the module hangs.
fn list_from(rt: &(impl Print + Eprint), stdin: Stdin, hung: Hung) {
    let mut trace = [0u8; LONGEST_TRACE + 1];
    let Ok(count) = read_input(stdin, &mut trace) else {
        let _ = eprintln!(rt; "listtrace: standard input cannot be read");
        return;
    };
    let mut text = [0u8; LONGEST_LISTING];
    let length = tracelisting::list_input(hung, &trace[..count], &mut text);
    if rt.write_all(&text[..length]).is_ok() {
        return;
    }
    let _ = eprintln!(rt; "listtrace: standard output cannot be written");
}
