// Reads records of 32 bytes from standard input and answers each with 16 bytes (oracle/README.md, "Leaves").
#![tactic(auto)]

mod formulas;
mod kind;
mod record;
mod stage;
mod state;
mod whole;

use crate::state::Leaves;
use crate::whole::WholeBlocks;
use std::io;

fn main(rt: HostRuntime) -> io::Result<()> {
    let mut input = WholeBlocks(rt.stdin());
    let mut output = rt.stdout();
    blocks::drive(&mut Leaves::new(), &mut input, &mut output)
}
