// What more than one program prints. No contract can say what standard output takes.

use crate::stop::Stop;
use book::OfferBook;
use dispatch::{Dispatch, flow_of};
use fault::Fault;
use network::Network;
use std::io;

// How a program ended.
pub fn print_end(rt: &HostRuntime, end: Result<(), Stop>) -> io::Result<()> {
    match end {
        Ok(()) => Ok(()),
        Err(Stop::Malformed(line, flaw)) => println!(rt; "error {line} {flaw}"),
        Err(Stop::Refused(fault)) => print_refusal(rt, fault),
        Err(Stop::Failed(error)) => Err(error),
    }
}

pub fn print_refusal(rt: &HostRuntime, fault: Fault) -> io::Result<()> {
    println!(rt; "{fault}")
}

// The flow of a dispatch on each line, in thousandths of a tenth.
pub fn print_flows<B: OfferBook, N: Network>(
    rt: &HostRuntime,
    book: &B,
    network: &N,
    dispatch: &Dispatch,
) -> io::Result<()> {
    for line in 0..network.lines() {
        let flow = flow_of(book, network, dispatch, line);
        println!(rt; "line {line} flow {flow}")?;
    }
    Ok(())
}
