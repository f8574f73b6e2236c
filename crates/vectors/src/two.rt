// The two tiles of a schedule.

#[derive(Clone, Copy)]
pub enum Side {
    First,
    Second,
}

impl Side {
    // By its number in a case, 0 or 1.
    pub fn of(number: usize) -> Side {
        if number == 0 {
            Side::First
        } else {
            Side::Second
        }
    }
}

// One of something for each tile.
#[derive(Drop)]
pub struct Two<T> {
    pub first: T,
    pub second: T,
}

impl<T> Two<T> {
    pub fn of(&self, side: Side) -> &T {
        match side {
            Side::First => &self.first,
            Side::Second => &self.second,
        }
    }

    pub fn of_mut(&mut self, side: Side) -> &mut T {
        match side {
            Side::First => &mut self.first,
            Side::Second => &mut self.second,
        }
    }
}
