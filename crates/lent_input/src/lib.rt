// Input for the programs: bytes are read into a slice that is lent for them, and no memory is asked for.
#![tactic(auto)]

ghost use Rattle.lent_input.specs.Counts.{IsPrefixLen};

use std::io::Read;

// How many bytes one read brings. That nothing is left to read and that reading fails look alike: both bring none.
fn read_some(input: &mut impl Read, room: &mut [u8]) -> usize
    ensures { IsPrefixLen result room.new }
{
    match input.read(room) {
        Ok(n) => n,
        Err(_) => 0,
    }
}

// Fills the slice from its start, by as many reads as it takes, and says how far it is filled: to its end, unless the
// input was shorter.
pub fn read_full(input: &mut impl Read, room: &mut [u8]) -> usize
    ensures { IsPrefixLen result room.new }
{
    let mut filled: usize = 0;
    // No `for`: each read says by how much the next one moves on.
    while filled < room.len() {
        let brought = read_some(input, &mut room[filled..]);
        if brought == 0 {
            return filled;
        }
        filled += brought;
    }
    filled
}
