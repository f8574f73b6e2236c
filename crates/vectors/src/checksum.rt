// The checksum of tables.
ghost use Rattle.std.specs.Iterator.{IsFinite};

const PRIME: u64 = 4_294_967_291;

const FACTOR: u64 = 65_599;

#[derive(Clone, Copy)]
pub struct Checksum {
    value: u32,
}

impl Checksum {
    pub fn start() -> Checksum {
        Checksum { value: 1 }
    }

    pub fn value(&self) -> u32 {
        self.value
    }

    // Takes cells in, by their numbers.
    pub(crate) fn add<I: Iterator<Item = u64>>(&mut self, numbers: I)
        requires { I.can_next numbers × IsFinite (I.remaining numbers) }
    {
        for number in numbers {
            let sum = FACTOR * u64::from(self.value) + number % PRIME;
            self.value = (sum % PRIME) as u32;
        }
    }
}
