// What a script asks is answered in order over any book and network, and each answer is printed.

use crate::looking::look_up;
use crate::playing::{answer_at, answers_of, run_after};
use crate::stepping::{print_listed, print_weighed};
use crate::weighing::weigh;
use book::OfferBook;
use calls::Call;
use checks::dispatch_at;
use fault::Fault;
use input::Asked;
use network::Network;
use shell::{print_flows, print_refusal};
use std::io;

pub(crate) fn carry_out<B: OfferBook + Copy, N: Network + Copy>(
    rt: &HostRuntime,
    book: &B,
    network: &N,
    calls: &[Call],
    asked: &[Asked],
) -> io::Result<()> {
    let answers = answers_of(rt.alloc(), book, network, calls)?;
    for question in asked {
        answer(rt, book, network, calls, answers.as_slice(), question)?;
    }
    Ok(())
}

fn answer<B: OfferBook + Copy, N: Network + Copy>(
    rt: &HostRuntime,
    book: &B,
    network: &N,
    calls: &[Call],
    answers: &[Option<Fault>],
    question: &Asked,
) -> io::Result<()> {
    match question {
        Asked::Call(place) => print_answer(rt, answer_at(answers, *place)),
        Asked::Weigh(count, proposal) => match weigh(
            book,
            network,
            &run_after(book, network, calls, *count).constraints(),
            proposal,
        ) {
            Ok(held) => print_weighed(rt, book, network, proposal.step, &held),
            Err(fault) => print_refusal(rt, fault),
        },
        Asked::Listing(count, step) => match look_up(
            &mut run_after(book, network, calls, *count),
            *step,
        ) {
            Ok(listed) => print_listed(rt, book, network, *step, &listed),
            Err(fault) => print_refusal(rt, fault),
        },
        Asked::Base(base) => match dispatch_at(book, base) {
            Ok(dispatch) => print_flows(rt, book, network, &dispatch),
            Err(fault) => print_refusal(rt, fault),
        },
    }
}

// What is said of a call.
fn print_answer(rt: &HostRuntime, answer: Option<Fault>) -> io::Result<()> {
    match answer {
        None => println!(rt; "ok"),
        Some(fault) => print_refusal(rt, fault),
    }
}
