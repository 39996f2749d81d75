// Reads events of the serial pins, a byte each, from standard input and answers each with two bytes (oracle/README.md,
// "Leaves").
#![tactic(auto)]

mod both;
mod bus;

use crate::both::{FOUR_WIRES, start};
use std::io;

fn main(rt: HostRuntime) -> io::Result<()> {
    let mut input = rt.stdin();
    let mut output = rt.stdout();
    blocks::drive(&mut start(FOUR_WIRES), &mut input, &mut output)
}
