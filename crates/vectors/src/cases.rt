// One case of each set. Each function takes the allocator, the words of its line and the output: one struct of the three would be taken apart in each.
use crate::contents::Contents;
use crate::schedule::schedule_case;
use crate::shows::{Failure, show_fault, show_numbers};
use crate::slots::Slots;
use crate::words::Words;
use mojette::Record;
use plan::Plan;
use plan::project::project;
use samples::{Coded, Pair, SumWord, XorWord};
use source::Source;
use source::strip::strip;
use std::alloc::Global;
use std::fmt::Write;

fn project_case<K: Coded>(
    alloc: Global,
    words: &mut Words,
    out: &mut String,
) -> Result<(), Failure> {
    let (columns, rows) = words.sides();
    let direction = words.direction();
    let picture = words.samples::<K>(alloc)?;
    let mut sums = words.samples::<K>(alloc)?;
    project(columns, rows, direction, &picture, &mut sums)?;
    out.push_str("ok")?;
    show_numbers(out, sums.iter().map(|x| x.to_number()))
}

fn ghost_case<K: Coded>(alloc: Global, words: &mut Words, out: &mut String) -> Result<(), Failure> {
    let (columns, rows) = words.sides();
    let records = words.records(alloc)?;
    let mut picture = words.samples::<K>(alloc)?;
    let plan = Plan::of(columns, rows, &records)?;
    let criterion = plan.show_ghost(&mut picture)?;
    let verdict = if criterion.enough { "enough" } else { "ghost" };
    let (c, r) = (criterion.columns, criterion.rows);
    write!(out, "{verdict} {c} {r}")?;
    show_numbers(out, picture.iter().map(|x| x.to_number()))
}

fn strip_case(alloc: Global, words: &mut Words, out: &mut String) -> Result<(), Failure> {
    let contents = Contents::<SumWord>::of(alloc, words)?;
    let place = words.number();
    let mut cells = words.cells(alloc)?;
    strip(&contents.rack()?, place, &mut cells)?;
    out.push_str("ok")?;
    show_numbers(out, cells.iter().map(|n| u64::from(*n)))
}

fn sizes_case<K: Coded>(alloc: Global, words: &mut Words, out: &mut String) -> Result<(), Failure> {
    let contents = Contents::<K>::of(alloc, words)?;
    let sizes = contents.rack()?.sizes();
    let (columns, rows, places) = (sizes.columns, sizes.rows, sizes.places);
    write!(out, "ok {columns} {rows} {places}")?;
    Ok(())
}

fn place_case<K: Coded>(alloc: Global, words: &mut Words, out: &mut String) -> Result<(), Failure> {
    let contents = Contents::<K>::of(alloc, words)?;
    let Record { direction, cause } = contents.rack()?.place(words.number())?;
    // In the words of the outside reference; no other place prints a direction so.
    let (p, q) = (direction.p, direction.q);
    write!(out, "ok {p} {q} {cause}")?;
    Ok(())
}

fn bin_case<K: Coded>(alloc: Global, words: &mut Words, out: &mut String) -> Result<(), Failure> {
    let contents = Contents::<K>::of(alloc, words)?;
    let place = words.number();
    let sample = contents.rack()?.bin(place, words.number())?;
    let number = sample.to_number();
    write!(out, "ok {number}")?;
    Ok(())
}

// A case of a set at a kind of sample, by the words that the reference writes. The set `strip` has a question first: 0 for a strip, 1 for the sizes, 2 for a place, 3 for a bin.
fn case_of<K: Coded>(
    alloc: Global,
    set: &str,
    words: &mut Words,
    slots: &mut Slots,
    out: &mut String,
) -> Result<(), Failure> {
    match set {
        "project" => project_case::<K>(alloc, words, out),
        "ghost" => ghost_case::<K>(alloc, words, out),
        "schedule" => schedule_case::<K>(alloc, words, slots, out),
        _ => match words.word() {
            "0" | "" => strip_case(alloc, words, out),
            "1" => sizes_case::<K>(alloc, words, out),
            "2" => place_case::<K>(alloc, words, out),
            _ => bin_case::<K>(alloc, words, out),
        },
    }
}

// The answer to a line: a set, 0 for sum words, 1 for XOR words or 2 for pairs, and a case.
pub fn answer(alloc: Global, line: &str, slots: &mut Slots) -> anyhow::Result<String> {
    let mut words = Words::of(line);
    let mut out = String::new(alloc);
    let set = words.word();
    let answered = match words.word() {
        "0" | "" => case_of::<SumWord>(alloc, set, &mut words, slots, &mut out),
        "1" => case_of::<XorWord>(alloc, set, &mut words, slots, &mut out),
        _ => case_of::<Pair<SumWord, XorWord>>(alloc, set, &mut words, slots, &mut out),
    };
    match answered {
        Ok(()) => Ok(out),
        Err(Failure::Refused(fault)) => {
            show_fault(&mut out, fault)?;
            Ok(out)
        }
        Err(Failure::Broken(error)) => Err(error),
    }
}
