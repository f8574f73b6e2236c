// Tables for those who have none of their own.
ghost use Rattle.std.specs.Prelude.{◌≡◌, IfOk, replicate};
ghost use Rattle.plan.specs.Shapes.{shape};
ghost use Rattle.tile.specs.Buffers.{zero_tables};
ghost use Rattle.tile.specs.Worlds.{contents};

use crate::lent::Tables;
use plan::Plan;
use samples::Kind;
use std::alloc::{AllocError, Global};
use std::marker::Model;

/// The five tables, in vectors. A clause sees them as what they hold.
#[derive(Drop)]
pub struct Buffers<K> {
    picture: Vec<K>,
    marks: Vec<u8>,
    sums: Vec<K>,
    counts: Vec<u8>,
    queue: Vec<u16>,
}

impl<K> Model for Buffers<K> {
    ghost use Rattle.law.specs.Steps.{Tables};

    ghost Value = { Tables K };

    ghost view = { λ b. record {
      picture = b.picture.items;
      marks = b.marks.items;
      sums = b.sums.items;
      counts = b.counts.items;
      queue = b.queue.items;
    } };
}

// So many zeros. (`vec!` would ask for a clone that equals its original, which no kind promises.)
fn zeros<K: Kind>(alloc: Global, cells: usize) -> Result<Vec<K>, AllocError>
    ensures { IfOk result (λ v. v.items ≡ replicate cells K.zero) }
{
    let mut zeros = Vec::with_capacity(alloc, cells)?;
    for _ in 0..cells {
        zeros.push(K::zero_sample())?;
    }
    Ok(zeros)
}

impl<K: Kind> Buffers<K> {
    /// Tables as long as the plan needs, and zero. It fails only where there is no memory.
    pub fn for_plan(alloc: Global, plan: &Plan) -> Result<Buffers<K>, AllocError>
        ensures { IfOk result (λ b. b ≡ zero_tables K.Kind (shape plan.now)) }
    {
        let pixels = plan.pixels();
        let bins = plan.total();
        Ok(Buffers {
            picture: zeros(alloc, pixels)?,
            marks: vec![in alloc; 0; pixels]?,
            sums: zeros(alloc, bins)?,
            counts: vec![in alloc; 0; bins]?,
            queue: vec![in alloc; 0; bins]?,
        })
    }

    /// Lends them to the calls on a tile. What is found is read through the tables while they are lent, as `Finished::picture`
    /// reads it: no clause can say of five loans what their owner holds when they have ended.
    pub fn lend(&mut self) -> Tables<'_, K>
        ensures { contents result ≡ self.old }
    {
        let picture = &mut self.picture;
        let marks = &mut self.marks;
        let sums = &mut self.sums;
        let counts = &mut self.counts;
        let queue = &mut self.queue;
        Tables {
            picture,
            marks,
            sums,
            counts,
            queue,
        }
    }
}
