// The states of a tile, and the calls on it.
// No state can be copied: each call takes one, and hands on the next or, refused, the same.
// A clause sees a state as what it holds: how many places are loaded, the state of the peeling, how many cells the picture
// has; and a grant as its position.
ghost use Rattle.std.specs.Prelude.{◌≡◌, ◌+◌, ◌<◌, ◌≤◌, ◌↔◌, length, IsTrue, IsOk, IfOk, IfErr, OnErr};
ghost use Rattle.mojette.specs.Meaning.{pixels_of, bins_of};
ghost use Rattle.peeling.specs.Steps.{front, taken, first_left_over};
ghost use Rattle.plan.specs.Shapes.{shape};
ghost use Rattle.law.specs.Life.{LongEnough};
ghost use Rattle.law.specs.Steps.{load, seal, take, settle, give_back, finish};
ghost use Rattle.law.specs.Steps.{fits, criterion, with_ghost, finds, world_of};
ghost use Rattle.law.specs.Turns.{seal_and_peel};
ghost use Rattle.tile.specs.Outcomes.{load_outcome, seal_outcome, take_outcome, settle_outcome};
ghost use Rattle.tile.specs.Outcomes.{give_back_outcome, finish_outcome, picture_outcome, pictured, IsGhost};
ghost use Rattle.tile.specs.Worlds.{IsStillLent, contents};

use crate::alone::peel_alone;
use crate::finish::first_left;
use crate::lent::Tables;
use crate::load::{fits_plan, write_place};
use crate::peel::peel_bin;
use crate::ring::{append, first, pass_first};
use crate::seal::{accept, begin};
use crate::settle::count_settled;
use mojette::{Fault, Table};
use notes::Counts;
use peeling::State;
use plan::Plan;
use samples::Kind;
use source::Source;
use std::marker::Model;

/// A tile that is loading: its first places are loaded.
#[must_use]
#[derive(Drop)]
pub struct Loading {
    pub(crate) loaded: usize,
}

impl Model for Loading {
    ghost use Rattle.std.specs.Prelude.{ℕ};

    ghost Value = { ℕ };

    ghost view = { λ x. x.loaded };
}

impl Loading {
    /// Loads the next place into the sums: the source's bins at their positions, or zeros where the place is lost.
    ///
    /// Refuses sums that are too short (5), a tile of which all places are loaded (6), and a source that differs from the plan
    /// in size, number of places, or this place (7).
    #[tactic(auto, using(std::proofs::lemmas::Bool::Decides::nat_tests), unfolding(law::specs::Steps::load, law::specs::Steps::short_sums, law::specs::Steps::with_place))]
    pub fn load<S: Source>(
        self,
        source: &S,
        plan: &Plan,
        tables: &mut Tables<S::Sample>,
    ) -> Result<Loading, Refused<Loading>>
        ensures lent { IsStillLent tables.old tables.new }
        ensures step { load_outcome result (contents tables.new)
            ≡ load S.Sample.Kind (shape plan.now) (S.meaning source.now) self (contents tables.old) }
        ensures served { IsOk result ↔ ((bins_of (shape plan.now) ≤ length tables.old.sums.now)
            × (self < length (shape plan.now).records)
            × IsTrue (fits (shape plan.now) (S.meaning source.now) self)) }
        ensures next { IfOk result (λ x. x ≡ self + 1) }
        ensures back { IfErr result (λ e. e.back ≡ self) }
        ensures unchanged { OnErr result (contents tables.new ≡ contents tables.old) }
    {
        if tables.sums.len() < plan.total() {
            let fault = Fault::ShortTable(Table::Sums);
            return Err(Refused { back: self, fault });
        }
        let i = self.loaded;
        let Some(place) = plan.places().get(i) else {
            let fault = Fault::AllLoaded;
            return Err(Refused { back: self, fault });
        };
        if !fits_plan(source, plan, i) {
            let fault = Fault::OtherSource;
            return Err(Refused { back: self, fault });
        }
        write_place(source, i, place.start, place.bins, tables.sums);
        Ok(Loading { loaded: i + 1 })
    }

    /// Begins the peeling, on all five tables.
    ///
    /// Refuses a table that is too short (5), places that are not loaded (8), and too few whole places by Katz's criterion (9):
    /// then the picture shows a ghost.
    #[tactic(auto, unfolding(law::specs::Steps::seal))]
    pub fn seal<K: Kind>(
        self,
        plan: &Plan,
        tables: &mut Tables<K>,
    ) -> Result<Peeling, Refused<Loading>>
        ensures lent { IsStillLent tables.old tables.new }
        ensures step { seal_outcome result (contents tables.new)
            ≡ seal K.Kind (shape plan.now) self (contents tables.old) }
        ensures served { IsOk result ↔ (LongEnough (shape plan.now) (contents tables.old)
            × (length (shape plan.now).records ≤ self) × IsTrue (criterion (shape plan.now))) }
        ensures back { IfErr result (λ e. e.back ≡ self) }
        ensures unchanged { IfErr result (λ e. ¬ IsGhost e.fault →
            contents tables.new ≡ contents tables.old) }
        ensures ghosted { IfErr result (λ e. IsGhost e.fault →
            contents tables.new ≡ with_ghost K.Kind (shape plan.now) (contents tables.old)) }
    {
        accept(self, plan, tables)?;
        Ok(Peeling {
            state: begin(plan, tables, &mut Counts),
        })
    }

    /// Seals, and takes and settles as one worker until nothing waits. Refuses as a seal does. (In time this is the way for one
    /// worker: it searches for no pixel.)
    #[tactic(auto, unfolding(law::specs::Turns::seal_and_peel))]
    pub fn seal_and_peel<K: Kind>(
        self,
        plan: &Plan,
        tables: &mut Tables<K>,
    ) -> Result<Peeling, Refused<Loading>>
        ensures lent { IsStillLent tables.old tables.new }
        ensures step { seal_outcome result (contents tables.new)
            ≡ seal_and_peel K.Kind (shape plan.now) self (contents tables.old) }
        ensures served { IsOk result ↔ (LongEnough (shape plan.now) (contents tables.old)
            × (length (shape plan.now).records ≤ self) × IsTrue (criterion (shape plan.now))) }
        ensures back { IfErr result (λ e. e.back ≡ self) }
        ensures unchanged { IfErr result (λ e. ¬ IsGhost e.fault →
            contents tables.new ≡ contents tables.old) }
        ensures ghosted { IfErr result (λ e. IsGhost e.fault →
            contents tables.new ≡ with_ghost K.Kind (shape plan.now) (contents tables.old)) }
    {
        accept(self, plan, tables)?;
        Ok(Peeling {
            state: peel_alone(plan, tables),
        })
    }
}

/// A tile that is peeling: its pixels are being found.
#[must_use]
#[derive(Drop)]
pub struct Peeling {
    pub(crate) state: State,
}

impl Model for Peeling {
    ghost use Rattle.peeling.specs.declared.state.State.{State};

    ghost Value = { State };

    ghost view = { λ x. x.state };
}

impl Peeling {
    /// Grants the first position that waits.
    ///
    /// Refuses a queue that is too short (5), where nothing waits (10), and a cell of the queue that holds no position (11).
    #[tactic(auto, using(std::proofs::lemmas::Bool::Decides::nat_tests), unfolding(law::specs::Steps::take, law::specs::Steps::short_queue, peeling::specs::Steps::take_answers, peeling::specs::Steps::front, peeling::specs::Steps::taken))]
    pub fn take<K: Kind>(
        self,
        plan: &Plan,
        tables: &Tables<K>,
    ) -> Result<(Peeling, Grant), Refused<Peeling>>
        ensures step { take_outcome result (contents tables.now)
            ≡ take K.Kind (shape plan.now) self (contents tables.now) }
        ensures served { IsOk result ↔ ((bins_of (shape plan.now) ≤ length tables.now.queue.now)
            × (0 < self.waiting)
            × (front (bins_of (shape plan.now)) self tables.now.queue.now < bins_of (shape plan.now))) }
        ensures grant { IfOk result (λ a. a.1 ≡ front (bins_of (shape plan.now)) self tables.now.queue.now) }
        ensures next { IfOk result (λ a. a.0 ≡ taken (bins_of (shape plan.now)) self) }
        ensures inside { IfOk result (λ a. a.1 < bins_of (shape plan.now)) }
        ensures back { IfErr result (λ e. e.back ≡ self) }
    {
        let bins = plan.total();
        if tables.queue.len() < bins {
            let fault = Fault::ShortTable(Table::Queue);
            return Err(Refused { back: self, fault });
        }
        match first(&self.state, tables.queue, bins) {
            Ok(position) => {
                let Peeling { mut state } = self;
                pass_first(&mut state, bins);
                Ok((Peeling { state }, Grant { position }))
            }
            Err(fault) => Err(Refused { back: self, fault }),
        }
    }

    /// Spends a grant, on all five tables. The answer is the cell of the pixel that is found, or none, and how many pixels are
    /// then missing. (The pair is one of the forms that docs/DECISIONS.md names.)
    ///
    /// Refuses a table that is too short (5), and a grant of a larger tile (12).
    #[tactic(auto, using(std::proofs::lemmas::Bool::Decides::nat_tests, crate::proofs::Checks::all_long_at), unfolding(law::specs::Steps::settle))]
    pub fn settle<K: Kind>(
        self,
        grant: Grant,
        plan: &Plan,
        tables: &mut Tables<K>,
    ) -> Result<(Peeling, (Option<usize>, u32)), Refused<(Peeling, Grant)>>
        ensures lent { IsStillLent tables.old tables.new }
        ensures step { settle_outcome result (contents tables.new)
            ≡ settle K.Kind (shape plan.now) grant self (contents tables.old) }
        ensures served { IsOk result ↔
            (LongEnough (shape plan.now) (contents tables.old) × (grant < bins_of (shape plan.now))) }
        ensures cell { IfOk result (λ a.
            a.1.0 ≡ finds K.Kind (shape plan.now) grant (world_of self (contents tables.old))) }
        ensures left { IfOk result (λ a. a.1.1 ≡ a.0.left) }
        ensures back { IfErr result (λ e. (e.back.0 ≡ self) × (e.back.1 ≡ grant)) }
        ensures unchanged { OnErr result (contents tables.new ≡ contents tables.old) }
    {
        let at = grant.position as usize;
        // By hand: the closure of a `map_err` would move the state and the grant, which the steps below need.
        if let Err(fault) = tables.check_at(plan, at) {
            return Err(Refused {
                back: (self, grant),
                fault,
            });
        }
        let Grant { position: _ } = grant;
        let Peeling { mut state } = self;
        let cell = peel_bin(plan, at, &mut state, tables, &mut Counts);
        count_settled(&mut state);
        let left = state.left;
        Ok((Peeling { state }, (cell, left)))
    }

    /// Spends a grant without settling it: its position waits again, behind the others.
    ///
    /// Refuses a queue that is too short (5), and a grant of a larger tile (12).
    #[tactic(auto, using(std::proofs::lemmas::Bool::Decides::nat_tests), unfolding(law::specs::Steps::give_back, law::specs::Steps::short_queue, peeling::specs::Steps::append, peeling::specs::Steps::handed_in))]
    pub fn give_back<K: Kind>(
        self,
        grant: Grant,
        plan: &Plan,
        tables: &mut Tables<K>,
    ) -> Result<Peeling, Refused<(Peeling, Grant)>>
        ensures lent { IsStillLent tables.old tables.new }
        ensures step { give_back_outcome result (contents tables.new)
            ≡ give_back K.Kind (shape plan.now) grant self (contents tables.old) }
        ensures served { IsOk result ↔ ((bins_of (shape plan.now) ≤ length tables.old.queue.now)
            × (grant < bins_of (shape plan.now))) }
        ensures back { IfErr result (λ e. (e.back.0 ≡ self) × (e.back.1 ≡ grant)) }
        ensures unchanged { OnErr result (contents tables.new ≡ contents tables.old) }
    {
        let bins = plan.total();
        if tables.queue.len() < bins {
            return Err(Refused {
                back: (self, grant),
                fault: Fault::ShortTable(Table::Queue),
            });
        }
        if grant.position as usize >= bins {
            return Err(Refused {
                back: (self, grant),
                fault: Fault::BadGrant,
            });
        }
        let Grant { position } = grant;
        let Peeling { mut state } = self;
        state.out = state.out.saturating_sub(1);
        append(&mut state, tables.queue, bins, position as usize);
        Ok(Peeling { state })
    }

    /// Finishes a tile with no pixel missing, no grant out and no sum left over.
    ///
    /// Refuses sums that are too short (5), missing pixels (13), grants that are out (14), and a sum that is left over (15):
    /// then the sums of the source contradict one another.
    #[tactic(auto, using(std::proofs::lemmas::Bool::Decides::nat_tests), unfolding(law::specs::Steps::finish, law::specs::Steps::short_sums, peeling::specs::Steps::finish_answers))]
    pub fn finish<K: Kind>(
        self,
        plan: &Plan,
        tables: &Tables<K>,
    ) -> Result<Finished, Refused<Peeling>>
        ensures step { finish_outcome result (contents tables.now)
            ≡ finish K.Kind (shape plan.now) self (contents tables.now) }
        ensures served { IsOk result ↔ ((bins_of (shape plan.now) ≤ length tables.now.sums.now)
            × (self.left ≡ 0) × (self.out ≡ 0)
            × (first_left_over K.Kind (bins_of (shape plan.now)) tables.now.sums.now
            ≡ bins_of (shape plan.now))) }
        ensures cells { IfOk result (λ f. f ≡ pixels_of (shape plan.now)) }
        ensures back { IfErr result (λ e. e.back ≡ self) }
    {
        if tables.sums.len() < plan.total() {
            let fault = Fault::ShortTable(Table::Sums);
            return Err(Refused { back: self, fault });
        }
        let left = self.left();
        if left > 0 {
            let fault = Fault::PixelsMissing(left);
            return Err(Refused { back: self, fault });
        }
        let out = self.out();
        if out > 0 {
            let fault = Fault::GrantsOut(out);
            return Err(Refused { back: self, fault });
        }
        if let Some((i, b)) = first_left(plan, tables.sums) {
            let fault = Fault::LeftOver(i, b);
            return Err(Refused { back: self, fault });
        }
        Ok(Finished {
            cells: plan.pixels(),
        })
    }

    /// How many pixels are missing.
    pub fn left(&self) -> u32
        ensures { result ≡ self.now.left }
    {
        self.state.left
    }

    /// How many positions wait.
    pub fn waiting(&self) -> u32
        ensures { result ≡ self.now.waiting }
    {
        self.state.waiting
    }

    /// How many grants are out.
    pub fn out(&self) -> u32
        ensures { result ≡ self.now.out }
    {
        self.state.out
    }

    /// How many grants were settled.
    pub fn settled(&self) -> u32
        ensures { result ≡ self.now.settled }
    {
        self.state.settled
    }
}

/// A finished tile: its picture is found.
#[derive(Drop)]
pub struct Finished {
    pub(crate) cells: usize,
}

impl Model for Finished {
    ghost use Rattle.std.specs.Prelude.{ℕ};

    ghost Value = { ℕ };

    ghost view = { λ x. x.cells };
}

impl Finished {
    /// The tile's own cells of the picture, row by row, as a part of the caller's table, which is only read. Refuses a table that
    /// is too short (5).
    pub fn picture<'a, K: Kind>(&self, cells: &'a [K]) -> Result<&'a [K], Fault>
        ensures { picture_outcome result ≡ pictured self.now cells.now }
    {
        cells
            .get(..self.cells)
            .ok_or(Fault::ShortTable(Table::Picture))
    }
}

/// The right to settle one bin. It is not `Drop`, so it must be spent: settled, or given back.
#[must_use]
pub struct Grant {
    pub(crate) position: u16,
}

impl Model for Grant {
    ghost use Rattle.std.specs.Prelude.{ℕ};

    ghost Value = { ℕ };

    ghost view = { λ x. x.position };
}

impl Grant {
    /// The position that is granted.
    pub fn position(&self) -> u16
        ensures { result ≡ self.now }
    {
        self.position
    }
}

/// Why a call was refused, with what it took. A call builds it in place, since what goes back is the value that `?` or
/// `map_err` would have moved.
#[derive(Drop)]
pub struct Refused<B> {
    pub back: B,
    pub fault: Fault,
}

/// What was taken is let go.
impl<B: Drop> From<Refused<B>> for Fault {
    ghost from_gives = { λ r fault. fault ≡ r.fault };

    fn from(refused: Refused<B>) -> Fault {
        refused.fault
    }
}
