// The words of a line, one after another.
use crate::two::Side;
use mojette::{Direction, Record};
use samples::Coded;
use std::alloc::{AllocError, Global};
use std::str::{FromStr, Split};

#[derive(Drop)]
pub struct Words<'a> {
    words: Split<'a, char>,
}

impl<'a> Words<'a> {
    pub fn of(line: &'a str) -> Words<'a> {
        Words {
            words: line.split(' '),
        }
    }

    // The next word; an empty one at the end of the line.
    pub fn word(&mut self) -> &'a str {
        self.words.next().unwrap_or("")
    }

    // The next word as a number; 0 where it is none.
    pub fn number<T: FromStr + Default + Drop>(&mut self) -> T
    where
        T::Err: Drop,
    {
        self.word().parse().unwrap_or_default()
    }

    // P and Q: any two numbers, as the calls take them.
    pub fn sides(&mut self) -> (usize, usize) {
        let columns = self.number();
        let rows = self.number();
        (columns, rows)
    }

    // A tile of a schedule, by its number.
    pub fn side(&mut self) -> Side {
        Side::of(self.number())
    }

    pub fn direction(&mut self) -> Direction {
        let p = self.number();
        let q = self.number();
        Direction { p, q }
    }

    fn record(&mut self) -> Record {
        let direction = self.direction();
        let cause = self.number::<u64>() % 256;
        Record {
            direction,
            cause: cause as u8,
        }
    }

    // A list: how many items, and then each.
    fn list<T: Drop, F: Fn(&mut Words<'a>) -> T>(
        &mut self,
        alloc: Global,
        read: F,
    ) -> Result<Vec<T>, AllocError>
        requires { F.IsAlwaysCallable read }
    {
        let count: usize = self.number();
        let mut list = Vec::new(alloc);
        for _ in 0..count {
            list.push(read(self))?;
        }
        Ok(list)
    }

    pub fn records(&mut self, alloc: Global) -> Result<Vec<Record>, AllocError> {
        self.list(alloc, |words| words.record())
    }

    pub fn samples<K: Coded>(&mut self, alloc: Global) -> Result<Vec<K>, AllocError> {
        self.list(alloc, |words| K::from_number(words.number()))
    }

    pub fn cells(&mut self, alloc: Global) -> Result<Vec<u16>, AllocError> {
        self.list(alloc, |words| (words.number::<u64>() % 65_536) as u16)
    }
}
