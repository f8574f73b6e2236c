// The slots in which workers keep their grants.
ghost use Rattle.std.specs.Prelude.{◌≡◌, ◌<◌, None};
ghost use Rattle.mojette.specs.Meaning.{bins_of};
ghost use Rattle.plan.specs.Shapes.{shape};

use anyhow::Context;
use mojette::{MOST_POSITIONS, Record};
use plan::Plan;
use samples::SumWord;
use source::Rack;
use tile::{Grant, Peeling, Tables, open};

// A grant that a worker holds, and the plan on which it was granted.
pub struct Held {
    pub grant: Grant,
    pub plan: Plan,
    ghost inside: { grant < bins_of (shape plan) },
}

impl Held {
    // On the plan of its take a grant can always be given back, to any tile.
    fn give_back(self, tile: Peeling) -> Peeling {
        let Held { grant, plan } = self;
        let mut queue = [0; MOST_POSITIONS];
        let mut tables = Tables::<SumWord> {
            picture: &mut [],
            marks: &mut [],
            sums: &mut [],
            counts: &mut [],
            queue: &mut queue,
        };
        match tile.give_back(grant, &plan, &mut tables) {
            Ok(tile) => tile,
            Err(_held) => unreachable(),
        }
    }
}

// Four slots. A grant cannot be let go, so that they are emptied by calls, and what is left is given back in the end.
pub struct Slots {
    cells: [Option<Held>; 4],
}

impl Slots {
    pub fn empty() -> Slots {
        Slots {
            cells: [None, None, None, None],
        }
    }

    pub fn at(&mut self, slot: usize) -> anyhow::Result<&mut Option<Held>> {
        let cells = &mut self.cells;
        let slots = &mut cells[..];
        slots.get_mut(slot).context("no such slot")
    }

    pub fn are_empty(&self) -> bool {
        self.cells.iter().all(|slot| slot.is_none())
    }

    // Gives what is left back to a tile.
    pub fn close(self, tile: Peeling) {
        let Slots {
            cells: [first, second, third, fourth],
        } = self;
        let tile = given_back(first, tile);
        let tile = given_back(second, tile);
        let tile = given_back(third, tile);
        let _ = given_back(fourth, tile);
    }
}

fn given_back(slot: Option<Held>, tile: Peeling) -> Peeling {
    match slot {
        None => tile,
        Some(held) => held.give_back(tile),
    }
}

// A tile of one pixel that is being peeled. No case asks it anything.
pub fn spare_tile() -> Option<Peeling> {
    let zero = SumWord { value: 0 };
    let records = [Record::new(0, 1, 0)];
    let run = [zero];
    let rack = Rack::new(1, 1, &records, &run).ok()?;
    let mut plan = Plan::fresh();
    let (mut picture, mut marks, mut sums) = ([zero], [0], [zero]);
    let (mut counts, mut queue) = ([0], [0]);
    let mut tables = Tables {
        picture: &mut picture,
        marks: &mut marks,
        sums: &mut sums,
        counts: &mut counts,
        queue: &mut queue,
    };
    let tile = open(&rack, &mut plan).ok()?;
    let tile = tile.load(&rack, &plan, &mut tables).ok()?;
    tile.seal(&plan, &mut tables).ok()
}

// Puts a grant into an empty slot.
pub(crate) fn fill(slot: &mut Option<Held>, held: Held)
    requires { slot.old ≡ None }
{
    match slot.replace(held) {
        None => {}
        Some(_held) => unreachable(),
    }
}
