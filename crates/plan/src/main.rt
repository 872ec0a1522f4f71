// What is left of three loads in the office's plan, told in plain text.
#![tactic(auto)]

mod loss;

use fixed::Fixed;
use float::{F16, F32, Float};
use forms::{Reading, Source, convert};
use loss::apart;
use telling::{Amount, Stop, Told};

// Tells what the plan's half-width float takes from a load.
fn tell_lost(rt: &HostRuntime, exact: Reading, shown: Reading) -> Result<(), Stop> {
    let Reading::Finite(exact) = exact else {
        println!(rt; "  Lost: there was no load.")?;
        return Ok(());
    };
    let Reading::Finite(shown) = shown else {
        println!(rt; "  Lost: all of it. The plan must say so.")?;
        return Ok(());
    };
    match apart(exact, shown) {
        Some(lost) => {
            let amount = Amount(lost);
            println!(rt; "  Lost: {amount}.")?;
        }
        None => println!(rt; "  Lost: too little to be told here.")?,
    }
    Ok(())
}

// The office reads a load out for the plan, as a half-width float, plain and clamped.
fn tell<S: Source>(rt: &HostRuntime, source: &S, bits: u64) -> Result<(), Stop> {
    let half = Float::new(F16);
    let exact = source.read(bits)?;
    let told = Told(exact);
    println!(rt; "  Read: {told}.")?;
    let (plain, direction, over) = convert::plain(source, bits, &half)?;
    let flag = if over { "over" } else { "fits" };
    println!(rt; "  As an f16: {plain:04x} {direction} {flag}.")?;
    let clamped = convert::clamped(source, bits, &half)?;
    println!(rt; "  Clamped: {clamped:04x}.")?;
    let shown = half.read(plain)?;
    let back = Told(shown);
    println!(rt; "  Read back: {back}.")?;
    tell_lost(rt, exact, shown)
}

// Thursday: three loads for the plan.
fn thursday(rt: &HostRuntime) -> Result<(), Stop> {
    println!(rt; "THURSDAY: THE PLAN")?;
    println!(rt; "")?;
    println!(rt; "The plan has half-width floats. Monday's message, 0c80:")?;
    tell(rt, &Fixed::new(true, 16, 8)?, 0x0c80)?;
    println!(rt; "")?;
    let fine = 0x0c8a3d71;
    println!(rt;
        "A finer cell's message, {fine:08x}: signed, 32 bits, 24 of them after the point."
    )?;
    tell(rt, &Fixed::new(true, 32, 24)?, fine)?;
    println!(rt; "")?;
    let stuck = 0x477ff000;
    println!(rt; "A stuck cell's message, the f32 {stuck:08x}:")?;
    tell(rt, &Float::new(F32), stuck)
}

fn main(rt: HostRuntime) -> Result<(), Stop> {
    thursday(&rt)
}
