// Reads a house book or a block book from standard input, with mitigation terms and reference
// prices, and prints the offer curve of each participant, or one line that says why there are none.
#![tactic(auto)]

mod corners;
mod input;
mod mitigation;
mod printing;
mod steps;
mod unit;

use block::BlockBook;
use house::HouseBook;
use input::Input;
use mitigation::mitigated;
use printing::print_participant;
use rows::OfferCap;
use shell::{Stop, print_end, read_lines};
use std::io;
use unit::Unit;

fn main(rt: HostRuntime) -> io::Result<()> {
    print_end(&rt, run(&rt))
}

fn run(rt: &HostRuntime) -> Result<(), Stop> {
    let input = read_input(rt)?;
    if input.blocks().is_empty() {
        print_house(rt, &input)
    } else {
        print_blocks(rt, &input)
    }
}

// Each program has an input of its own type: a trait for the three would be longer than this.
fn read_input(rt: &HostRuntime) -> Result<Input, Stop> {
    let mut input = Input::new(rt.alloc());
    read_lines(rt, |line| match line {
        Some(text) => input.read(text),
        None => Err(input.not_text()),
    })?;
    Ok(input)
}

fn print_house(rt: &HostRuntime, input: &Input) -> Result<(), Stop> {
    let cents = input.cap()?;
    let below = HouseBook::load(cents, input.rows())?;
    let book = mitigated(below, input.terms(), input.references())?;
    let offer_cap = OfferCap::new(cents)?;
    for (place, row) in input.rows().iter().enumerate() {
        let unit = Unit::new(offer_cap, row)?;
        let letter = row.letter;
        print!(rt; "row {place} class {letter}")?;
        print_participant(rt, &book, place, &unit, input.references().is_some())?;
    }
    Ok(())
}

fn print_blocks(rt: &HostRuntime, input: &Input) -> Result<(), Stop> {
    let below = BlockBook::load(input.blocks())?;
    let book = mitigated(below, input.terms(), input.references())?;
    for (place, row) in input.blocks().iter().enumerate() {
        print!(rt; "block {place}")?;
        print_participant(rt, &book, place, row, input.references().is_some())?;
    }
    Ok(())
}
