// A case of several workers: two tiles, and the calls on them in the order in which they come.
use crate::calls::{Call, Turn};
use crate::checksum::Checksum;
use crate::contents::Contents;
use crate::shows::{Failure, show_fault};
use crate::slots::Slots;
use crate::stage::{Answer, Stage};
use crate::stores::{Store, poke};
use crate::two::Two;
use crate::words::Words;
use plan::Plan;
use samples::Coded;
use std::alloc::{AllocError, Global};
use std::fmt::Write;
use std::mem::replace;

// The sources, plans, tables and states of two tiles.
#[derive(Drop)]
struct Bench<K> {
    contents: Two<Contents<K>>,
    plans: Two<Plan>,
    stores: Two<Store<K>>,
    stages: Two<Stage>,
}

impl<K: Coded> Bench<K> {
    fn play(&mut self, turn: Turn, slots: &mut Slots) -> Result<Answer, Failure> {
        let tile = replace(self.stages.of_mut(turn.tile), Stage::Fresh);
        let mut tables = self.stores.of_mut(turn.tables).lend(turn.cut);
        let plan = self.plans.of_mut(turn.plan);
        let (next, answer) = match turn.call {
            Call::Open(source) => tile.open(&self.contents.of(source).rack()?, plan),
            Call::Load(source) => tile.load(&self.contents.of(source).rack()?, plan, &mut tables),
            Call::Seal => tile.seal(plan, &mut tables),
            Call::Take(slot) => tile.take(plan, &tables, slots.at(slot)?),
            Call::Settle(slot) => tile.settle(plan, &mut tables, slots.at(slot)?),
            Call::GiveBack(slot) => tile.give_back(plan, &mut tables, slots.at(slot)?),
            Call::Finish => tile.finish(plan, &tables),
            Call::Picture => tile.picture(&tables),
            Call::Poke(table, cell, number) => {
                poke(tables, table, cell, number);
                (tile, Ok(Answer::Done))
            }
        };
        *self.stages.of_mut(turn.tile) = next;
        answer
    }

    // The checksum of all ten tables.
    fn checksum(&self) -> Checksum {
        let mut sum = Checksum::start();
        self.stores.first.add_to(&mut sum);
        self.stores.second.add_to(&mut sum);
        sum
    }
}

fn tile_of<K: Coded>(
    alloc: Global,
    words: &mut Words,
) -> Result<(Contents<K>, Store<K>), AllocError> {
    let contents = Contents::of(alloc, words)?;
    let store = Store::of(alloc, words)?;
    Ok((contents, store))
}

// Plays the calls that the words give, and shows the answer to each, and the checksum after it.
fn play_all<K: Coded>(
    mut bench: Bench<K>,
    words: &mut Words,
    slots: &mut Slots,
    out: &mut String,
) -> Result<(), Failure> {
    let calls: usize = words.number();
    for i in 0..calls {
        if i > 0 {
            out.push(' ')?;
        }
        match bench.play(Turn::of(words)?, slots) {
            Ok(answer) => answer.show(out)?,
            Err(Failure::Refused(fault)) => show_fault(out, fault)?,
            Err(broken) => return Err(broken),
        }
        let sum = bench.checksum().value();
        write!(out, " {sum}")?;
    }
    Ok(())
}

pub fn schedule_case<K: Coded>(
    alloc: Global,
    words: &mut Words,
    slots: &mut Slots,
    out: &mut String,
) -> Result<(), Failure> {
    let (first, first_store) = tile_of::<K>(alloc, words)?;
    let (second, second_store) = tile_of::<K>(alloc, words)?;
    let bench = Bench {
        contents: Two { first, second },
        plans: Two {
            first: Plan::fresh(),
            second: Plan::fresh(),
        },
        stores: Two {
            first: first_store,
            second: second_store,
        },
        stages: Two {
            first: Stage::Fresh,
            second: Stage::Fresh,
        },
    };
    play_all(bench, words, slots, out)?;
    if slots.are_empty() {
        Ok(())
    } else {
        Err(Failure::broken("a grant is left"))
    }
}
