// A tile between two calls, and each call on it.
ghost use Rattle.std.specs.Prelude.{◌≡◌, ◌<◌, None};
ghost use Rattle.mojette.specs.Meaning.{bins_of};
ghost use Rattle.plan.specs.Shapes.{shape};

use crate::checksum::Checksum;
use crate::shows::Failure;
use crate::slots::{Held, fill};
use mojette::Fault;
use plan::Plan;
use samples::Coded;
use source::Rack;
use std::fmt::Write;
use tile::{Finished, Grant, Loading, Peeling, Refused, Tables, open};

#[derive(Drop)]
pub enum Stage {
    // Not opened yet.
    Fresh,
    Loading(Loading),
    Peeling(Peeling),
    Finished(Finished),
}

// What a served call tells.
#[derive(Clone, Copy)]
pub enum Answer {
    Done,
    // a position
    Granted(u16),
    // the pixel's cell, and how many are missing
    Settled(Option<usize>, u32),
    // the checksum of the picture
    Shown(Checksum),
}

impl Answer {
    pub fn show(&self, out: &mut String) -> Result<(), Failure> {
        match self {
            Answer::Done => out.push_str("ok")?,
            Answer::Granted(position) => write!(out, "ok {position}")?,
            Answer::Settled(Some(cell), left) => write!(out, "ok {cell} {left}")?,
            Answer::Settled(None, left) => write!(out, "ok - {left}")?,
            Answer::Shown(sum) => {
                let value = sum.value();
                write!(out, "ok {value}")?;
            }
        }
        Ok(())
    }
}

// The tile after a call, and its answer.
type Played = (Stage, Result<Answer, Failure>);

fn refused(stage: Stage, fault: Fault) -> Played {
    (stage, Err(Failure::Refused(fault)))
}

// A call that no case has: it ends the run, and the tile is let go.
fn misplaced(why: &'static str) -> Played {
    (Stage::Fresh, Err(Failure::broken(why)))
}

impl Stage {
    pub fn open<K: Coded>(self, source: &Rack<K>, plan: &mut Plan) -> Played {
        let Stage::Fresh = self else {
            return misplaced("opened twice");
        };
        match open(source, plan) {
            Ok(tile) => (Stage::Loading(tile), Ok(Answer::Done)),
            Err(fault) => refused(Stage::Fresh, fault),
        }
    }

    pub fn load<K: Coded>(self, source: &Rack<K>, plan: &Plan, tables: &mut Tables<K>) -> Played {
        let Stage::Loading(tile) = self else {
            return misplaced("not loading");
        };
        match tile.load(source, plan, tables) {
            Ok(tile) => (Stage::Loading(tile), Ok(Answer::Done)),
            Err(refusal) => refused(Stage::Loading(refusal.back), refusal.fault),
        }
    }

    pub fn seal<K: Coded>(self, plan: &Plan, tables: &mut Tables<K>) -> Played {
        let Stage::Loading(tile) = self else {
            return misplaced("not loading");
        };
        match tile.seal(plan, tables) {
            Ok(tile) => (Stage::Peeling(tile), Ok(Answer::Done)),
            Err(refusal) => refused(Stage::Loading(refusal.back), refusal.fault),
        }
    }

    pub fn take<K: Coded>(
        self,
        plan: &Plan,
        tables: &Tables<K>,
        slot: &mut Option<Held>,
    ) -> Played {
        let Stage::Peeling(tile) = self else {
            return misplaced("not peeling");
        };
        if slot.is_some() {
            return misplaced("the slot is not empty");
        }
        match tile.take(plan, tables) {
            Ok((tile, grant)) => {
                let position = grant.position();
                let plan = *plan;
                fill(slot, Held { grant, plan });
                (Stage::Peeling(tile), Ok(Answer::Granted(position)))
            }
            Err(refusal) => refused(Stage::Peeling(refusal.back), refusal.fault),
        }
    }

    pub fn settle<K: Coded>(
        self,
        plan: &Plan,
        tables: &mut Tables<K>,
        slot: &mut Option<Held>,
    ) -> Played {
        let Stage::Peeling(tile) = self else {
            return misplaced("not peeling");
        };
        let Some(Held { grant, plan: own }) = slot.take() else {
            return misplaced("the slot is empty");
        };
        match tile.settle(grant, plan, tables) {
            Ok((tile, found)) => {
                let (cell, left) = found;
                (Stage::Peeling(tile), Ok(Answer::Settled(cell, left)))
            }
            Err(refusal) => kept(refusal, own, slot),
        }
    }

    pub fn give_back<K: Coded>(
        self,
        plan: &Plan,
        tables: &mut Tables<K>,
        slot: &mut Option<Held>,
    ) -> Played {
        let Stage::Peeling(tile) = self else {
            return misplaced("not peeling");
        };
        let Some(Held { grant, plan: own }) = slot.take() else {
            return misplaced("the slot is empty");
        };
        match tile.give_back(grant, plan, tables) {
            Ok(tile) => (Stage::Peeling(tile), Ok(Answer::Done)),
            Err(refusal) => kept(refusal, own, slot),
        }
    }

    pub fn finish<K: Coded>(self, plan: &Plan, tables: &Tables<K>) -> Played {
        let Stage::Peeling(tile) = self else {
            return misplaced("not peeling");
        };
        match tile.finish(plan, tables) {
            Ok(tile) => (Stage::Finished(tile), Ok(Answer::Done)),
            Err(refusal) => refused(Stage::Peeling(refusal.back), refusal.fault),
        }
    }

    pub fn picture<K: Coded>(self, tables: &Tables<K>) -> Played {
        let Stage::Finished(tile) = self else {
            return misplaced("not finished");
        };
        let shown = match tile.picture(tables.picture) {
            Ok(cells) => {
                let mut sum = Checksum::start();
                sum.add(cells.iter().map(|x| x.to_number()));
                Ok(Answer::Shown(sum))
            }
            Err(fault) => Err(Failure::Refused(fault)),
        };
        (Stage::Finished(tile), shown)
    }
}

// Refused, the grant goes back to its slot.
fn kept(refusal: Refused<(Peeling, Grant)>, plan: Plan, slot: &mut Option<Held>) -> Played
    requires inside { refusal.back.1 < bins_of (shape plan) }
    requires empty { slot.old ≡ None }
{
    let Refused {
        back: (tile, grant),
        fault,
    } = refusal;
    fill(slot, Held { grant, plan });
    refused(Stage::Peeling(tile), fault)
}
