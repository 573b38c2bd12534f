// Reads a script from standard input, an offer book, the lines of a network, and the calls of a run with what is asked
// between them, and prints the answers.
#![tactic(auto)]

mod answering;
mod listing;
mod looking;
mod objecting;
mod playing;
mod stepping;
mod weighing;

use answering::carry_out;
use block::BlockBook;
use book::OfferBook;
use house::HouseBook;
use input::Input;
use network::{Network, TableNetwork};
use shell::{Stop, print_end, read_lines};
use std::io;

fn main(rt: HostRuntime) -> io::Result<()> {
    print_end(&rt, run(&rt))
}

// What stands before a malformed line is still carried out.
fn run(rt: &HostRuntime) -> Result<(), Stop> {
    let mut input = Input::new(rt.alloc());
    let end = read_all(rt, &mut input);
    replay(rt, &input)?;
    end
}

// Each program has an input of its own type: a trait for the three would be longer than this.
fn read_all(rt: &HostRuntime, input: &mut Input) -> Result<(), Stop> {
    read_lines(rt, |line| match line {
        Some(text) => input.read(text),
        None => Err(input.not_text()),
    })?;
    input.check_book()
}

// A cap makes a house book, blocks a block book.
fn replay(rt: &HostRuntime, input: &Input) -> Result<(), Stop> {
    match input.cap() {
        Some(cents) => replay_over(rt, &HouseBook::load(cents, input.rows())?, input),
        None => replay_over(rt, &BlockBook::load(input.blocks())?, input),
    }
}

fn replay_over<B: OfferBook + Copy>(rt: &HostRuntime, book: &B, input: &Input) -> Result<(), Stop> {
    let network = TableNetwork::load(input.shares())?;
    carry_out(rt, book, &network, input.calls(), input.asked())?;
    Ok(())
}
