// Reads a script from standard input, an offer cap, the rows of a house book, the lines of a network
// and base points, and prints the flow on each line for each list of base points.
#![tactic(auto)]

mod input;
mod loading;

use calls::BasePoints;
use input::Input;
use loading::Market;
use shell::{Stop, print_end, print_flows, print_refusal, read_lines};
use std::io;

fn main(rt: HostRuntime) -> io::Result<()> {
    print_end(&rt, run(&rt))
}

// Book and network are loaded also where no base points ask for them. Each program reads into an input of its own type.
fn run(rt: &HostRuntime) -> Result<(), Stop> {
    let mut input = Input::new(rt.alloc());
    read_lines(rt, |line| match line {
        Some(text) => step(rt, &mut input, text),
        None => Err(input.not_text()),
    })?;
    let _market = input.market()?;
    Ok(())
}

fn step(rt: &HostRuntime, input: &mut Input, line: &str) -> Result<(), Stop> {
    if let Some(base) = input.read(line)? {
        answer(rt, &input.market()?, &base)?;
    }
    Ok(())
}

fn answer(rt: &HostRuntime, market: &Market, base: &BasePoints) -> io::Result<()> {
    match market.dispatch(base) {
        Ok(dispatch) => print_flows(rt, &market.book, &market.network, &dispatch),
        Err(fault) => print_refusal(rt, fault),
    }
}
