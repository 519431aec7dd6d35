// Standard input, read so that a read that fails is not taken for its end.
#![tactic(auto)]

ghost use Rattle.standardinput.specs.Counts.{IsPrefixLen};
ghost use Rattle.standardinput.specs.Input.{count_of, input_of};

use std::io::{self, Read, Stdin};

// Reads standard input to its end, or until the buffer is full, and answers how many bytes stand at the start of the buffer.
// No `read_to_end`, which grows a Vec (no heap), and no `for`: each read gives as many bytes as it likes.
pub fn read_input(mut stdin: Stdin, buffer: &mut [u8]) -> io::Result<usize>
    ensures { IsPrefixLen (count_of (input_of result)) buffer.new }
{
    let mut done = 0;
    while done < buffer.len() {
        let more = stdin.read(&mut buffer[done..])?;
        if more == 0 {
            break;
        }
        done += more;
    }
    Ok(done)
}
