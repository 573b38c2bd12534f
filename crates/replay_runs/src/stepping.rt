// What a replay prints of a step, listed or weighed: gap and worth, flows and shadow prices, base points and prices.

use crate::listing::Listed;
use crate::objecting::objecting;
use book::OfferBook;
use checks::Held;
use dispatch::flow_of;
use gap::objection;
use market::{lmp, worth};
use network::Network;
use std::io;

pub(crate) fn print_listed<B: OfferBook, N: Network>(
    rt: &HostRuntime,
    book: &B,
    network: &N,
    step: u8,
    listed: &Listed,
) -> io::Result<()> {
    print_held(rt, book, network, step, &listed.held, listed.worth, |_| "")
}

// The same, with objections, at the prices of the book.
pub(crate) fn print_weighed<B: OfferBook, N: Network>(
    rt: &HostRuntime,
    book: &B,
    network: &N,
    step: u8,
    held: &Held,
) -> io::Result<()> {
    let worth = worth(book, &held.dispatch);
    print_held(rt, book, network, step, held, worth, |participant| {
        objecting(objection(book, network, &held.quote, &held.dispatch, participant))
    })
}

// What is held, and what `told` says of each participant.
fn print_held<'a, B: OfferBook, N: Network, F: Fn(usize) -> &'a str>(
    rt: &HostRuntime,
    book: &B,
    network: &N,
    step: u8,
    held: &Held,
    worth: i64,
    told: F,
) -> io::Result<()>
    requires { F.IsAlwaysCallable told }
{
    print_step(rt, step, held.gap, worth)?;
    print_lines(rt, book, network, held)?;
    for participant in 0..book.count() {
        print_part(rt, book, network, held, participant, told(participant))?;
    }
    Ok(())
}

// The step is printed by the number that was asked for.
fn print_step(rt: &HostRuntime, step: u8, gap: i64, worth: i64) -> io::Result<()> {
    println!(rt; "step {step} gap {gap} worth {worth}")
}

fn print_lines<B: OfferBook, N: Network>(
    rt: &HostRuntime,
    book: &B,
    network: &N,
    held: &Held,
) -> io::Result<()> {
    for line in 0..network.lines() {
        let flow = flow_of(book, network, &held.dispatch, line);
        let price = held.quote.shadow(line);
        println!(rt; "line {line} flow {flow} price {price}")?;
    }
    Ok(())
}

fn print_part<B: OfferBook, N: Network>(
    rt: &HostRuntime,
    book: &B,
    network: &N,
    held: &Held,
    participant: usize,
    objecting: &str,
) -> io::Result<()> {
    let base = held.dispatch.base(participant);
    let lmp = lmp(book, network, &held.quote, participant);
    println!(rt; "part {participant} at {base} lmp {lmp}{objecting}")
}
