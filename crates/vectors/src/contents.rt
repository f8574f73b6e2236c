// What a rack is made from.
use crate::words::Words;
use mojette::{Fault, Record};
use samples::Coded;
use source::Rack;
use std::alloc::{AllocError, Global};

// Two numbers for the sides, the records of the places, and the run.
#[derive(Drop)]
pub struct Contents<K> {
    columns: usize,
    rows: usize,
    records: Vec<Record>,
    run: Vec<K>,
}

impl<K: Coded> Contents<K> {
    pub fn of(alloc: Global, words: &mut Words) -> Result<Contents<K>, AllocError> {
        let (columns, rows) = words.sides();
        let records = words.records(alloc)?;
        let run = words.samples(alloc)?;
        Ok(Contents {
            columns,
            rows,
            records,
            run,
        })
    }

    pub fn rack(&self) -> Result<Rack<'_, K>, Fault> {
        Rack::new(self.columns, self.rows, &self.records, &self.run)
    }
}
