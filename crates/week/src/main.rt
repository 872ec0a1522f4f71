// One message's week, told in plain text: what a cell sent, what load it means, and what that is against the motor's plate.
#![tactic(auto)]

use fixed::Fixed;
use float::{F16, F32, F64, Float};
use forms::cmp::{compare, equal};
use forms::{Comparison, Purchase, Source};
use telling::{Stop, Told};

// A motor's plate: the most that it takes, as an f64.
#[derive(Drop)]
struct Plate {
    form: Float<F64>,
    bits: u64,
}

// What the comparison of a load with the motor's plate means for the rigger.
fn advice(comparison: Comparison) -> &'static str {
    match comparison {
        Comparison::Less => "The motor takes it.",
        Comparison::Equal => "The motor takes it, with nothing to spare.",
        Comparison::More => "The motor would trip on overload: do not hang it.",
        Comparison::Unordered =>
            "The cell has lost its number: read it again before you hang anything.",
    }
}

// Tells what the bits are read as, and how that stands to the plate.
fn tell<S: Source>(rt: &HostRuntime, source: &S, bits: u64, plate: &Plate) -> Result<(), Stop> {
    match source.read(bits) {
        Ok(reading) => {
            let told = Told(reading);
            println!(rt; "  Read: {told}.")?;
            let comparison = compare(source, bits, &plate.form, plate.bits)?;
            let meaning = advice(comparison);
            println!(rt; "  Against the plate: {comparison}. {meaning}")?;
        }
        Err(refusal) => {
            let depth = refusal.depth;
            println!(rt; "  Not read: {refusal}.")?;
            println!(rt; "  Purchase layers that the refusal came up through: {depth}.")?;
            println!(rt; "  The message is thrown away, and the cell is asked again.")?;
        }
    }
    println!(rt; "")?;
    Ok(())
}

// Two cells on one load: an old one at the motor, and a newer one on the doubled rope.
fn one_load(rt: &HostRuntime, plate: &Plate) -> Result<(), Stop> {
    let old = Fixed::new(true, 16, 8)?;
    let sent = 0x0c80;
    println!(rt; "The old cell sends {sent:04x}: signed, 16 bits, 8 of them after the point.")?;
    tell(rt, &old, sent, plate)?;
    let newer = Purchase::new(Float::new(F32), 2)?;
    let also = 0x40c80000;
    println!(rt;
        "A newer cell sends the f32 {also:08x} under a rope rove double, so its load counts 2 times."
    )?;
    tell(rt, &newer, also, plate)?;
    let same = equal(&old, sent, &newer, also)?;
    let answer = if same { "Yes" } else { "No" };
    println!(rt; "Do both cells mean the same load? {answer}.")?;
    println!(rt; "")?;
    Ok(())
}

// What can be wrong with a message.
fn troubles(rt: &HostRuntime, plate: &Plate) -> Result<(), Stop> {
    let byte = Purchase::new(Fixed::new(true, 8, 0)?, 2)?;
    let damaged = 0x100;
    println!(rt;
        "A message comes in damaged: {damaged:x} where 8 bits are due, under a rope rove double."
    )?;
    tell(rt, &byte, damaged, plate)?;
    let half = Float::new(F16);
    let wet = 0x7e00;
    println!(rt; "A wet plug: the f16 {wet:04x}.")?;
    tell(rt, &half, wet, plate)?;
    let heavy = 0x4b00;
    println!(rt; "A heavy pick: the f16 {heavy:04x}.")?;
    tell(rt, &half, heavy, plate)?;
    let factor = 3;
    println!(rt; "Someone asks for a purchase of {factor}.")?;
    match Purchase::new(half, factor) {
        Ok(_) => println!(rt; "  It is rove.")?,
        Err(refusal) => println!(rt; "  Not rove: {refusal}.")?,
    }
    Ok(())
}

fn week(rt: &HostRuntime) -> Result<(), Stop> {
    let plate = Plate {
        form: Float::new(F64),
        bits: 0x402a000000000000,
    };
    println!(rt; "ONE MESSAGE'S WEEK: MONDAY")?;
    println!(rt; "")?;
    let bits = plate.bits;
    println!(rt; "The motor's plate is the f64 {bits:016x}.")?;
    let most = Told(plate.form.read(bits)?);
    println!(rt; "  Read: {most}.")?;
    println!(rt; "")?;
    one_load(rt, &plate)?;
    troubles(rt, &plate)
}

fn main(rt: HostRuntime) -> Result<(), Stop> {
    week(&rt)
}
