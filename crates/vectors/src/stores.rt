// The five tables of a tile.
use crate::calls::Cut;
use crate::checksum::Checksum;
use crate::words::Words;
use mojette::Table;
use samples::Coded;
use std::alloc::{AllocError, Global};
use tile::Tables;

#[derive(Drop)]
pub struct Store<K> {
    picture: Vec<K>,
    marks: Vec<u8>,
    sums: Vec<K>,
    counts: Vec<u8>,
    queue: Vec<u16>,
}

// The cells of a table that are lent.
fn part<'a, T>(table: Table, cut: Option<Cut>, cells: &'a mut [T]) -> &'a mut [T] {
    match cut {
        Some(cut) if cut.table == table && cut.cells < cells.len() => &mut cells[..cut.cells],
        _ => cells,
    }
}

// What a table holds before any call: rubbish, by its length, the first number, and from each to the next.
#[derive(Drop)]
struct Filling {
    length: usize,
    first: u64,
    step: u64,
}

impl Filling {
    fn of(words: &mut Words) -> Filling {
        let length = words.number();
        let first = words.number();
        let step = words.number();
        Filling {
            length,
            first,
            step,
        }
    }

    fn cells<T: Drop, F: Fn(u64) -> T>(&self, alloc: Global, cell: F) -> Result<Vec<T>, AllocError>
        requires { F.IsAlwaysCallable cell }
    {
        let mut number = self.first;
        let mut cells = Vec::new(alloc);
        for _ in 0..self.length {
            cells.push(cell(number))?;
            number = number.wrapping_add(self.step);
        }
        Ok(cells)
    }
}

// Overwrites a cell, if there is one.
fn write<T: Copy>(cells: &mut [T], cell: usize, value: T) {
    if let Some(place) = cells.get_mut(cell) {
        *place = value;
    }
}

// Overwrites a cell of a table by what has this number.
pub fn poke<K: Coded>(tables: Tables<K>, table: Table, cell: usize, number: u64) {
    match table {
        Table::Picture => write(tables.picture, cell, K::from_number(number)),
        Table::Marks => write(tables.marks, cell, (number % 256) as u8),
        Table::Sums => write(tables.sums, cell, K::from_number(number)),
        Table::Counts => write(tables.counts, cell, (number % 256) as u8),
        Table::Queue => write(tables.queue, cell, (number % 65_536) as u16),
    }
}

impl<K: Coded> Store<K> {
    pub fn of(alloc: Global, words: &mut Words) -> Result<Store<K>, AllocError> {
        let picture = Filling::of(words).cells(alloc, |n| K::from_number(n))?;
        let marks = Filling::of(words).cells(alloc, |n| (n % 256) as u8)?;
        let sums = Filling::of(words).cells(alloc, |n| K::from_number(n))?;
        let counts = Filling::of(words).cells(alloc, |n| (n % 256) as u8)?;
        let queue = Filling::of(words).cells(alloc, |n| (n % 65_536) as u16)?;
        Ok(Store {
            picture,
            marks,
            sums,
            counts,
            queue,
        })
    }

    pub fn lend(&mut self, cut: Option<Cut>) -> Tables<'_, K> {
        Tables {
            picture: part(Table::Picture, cut, &mut self.picture),
            marks: part(Table::Marks, cut, &mut self.marks),
            sums: part(Table::Sums, cut, &mut self.sums),
            counts: part(Table::Counts, cut, &mut self.counts),
            queue: part(Table::Queue, cut, &mut self.queue),
        }
    }

    pub fn add_to(&self, sum: &mut Checksum) {
        sum.add(self.picture.iter().map(|x| x.to_number()));
        sum.add(self.marks.iter().map(|n| u64::from(*n)));
        sum.add(self.sums.iter().map(|x| x.to_number()));
        sum.add(self.counts.iter().map(|n| u64::from(*n)));
        sum.add(self.queue.iter().map(|n| u64::from(*n)));
    }
}
