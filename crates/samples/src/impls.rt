// The three kinds of the bench. The two words share what the trait names, and differ in the operation.
ghost use Rattle.samples.specs.Words.{sum_plus, sum_inverse, sum_zero, sum_spark, sum_equal, sum_laws, xor_plus, xor_inverse, xor_zero, xor_spark, xor_equal, xor_laws};
ghost use Rattle.samples.specs.Pairs.{pair_plus, pair_inverse, pair_of, pair_equal, pair_laws};

use crate::Kind;
use crate::words::{Pair, SumWord, XorWord};

impl Kind for SumWord {
    ghost plus = { sum_plus };

    ghost inverse = { sum_inverse };

    ghost zero = { sum_zero };

    ghost spark = { sum_spark };

    ghost equal = { sum_equal };

    ghost laws = { sum_laws };

    fn zero_sample() -> SumWord {
        SumWord { value: 0 }
    }

    fn spark_sample() -> SumWord {
        SumWord { value: 1 }
    }

    fn add(self, other: SumWord) -> SumWord {
        SumWord {
            value: self.value.wrapping_add(other.value),
        }
    }

    fn negate(self) -> SumWord {
        SumWord {
            value: self.value.wrapping_neg(),
        }
    }

    fn same(self, other: SumWord) -> bool {
        self == other
    }
}

impl Kind for XorWord {
    ghost plus = { xor_plus };

    ghost inverse = { xor_inverse };

    ghost zero = { xor_zero };

    ghost spark = { xor_spark };

    ghost equal = { xor_equal };

    ghost laws = { xor_laws };

    fn zero_sample() -> XorWord {
        XorWord { value: 0 }
    }

    fn spark_sample() -> XorWord {
        XorWord { value: 1 }
    }

    fn add(self, other: XorWord) -> XorWord {
        XorWord {
            value: self.value ^ other.value,
        }
    }

    fn negate(self) -> XorWord {
        self
    }

    fn same(self, other: XorWord) -> bool {
        self == other
    }
}

impl<A: Kind, B: Kind> Kind for Pair<A, B> {
    ghost plus = { pair_plus A.Kind.plus B.Kind.plus };

    ghost inverse = { pair_inverse A.Kind.inverse B.Kind.inverse };

    ghost zero = { pair_of A.Kind.zero B.Kind.zero };

    ghost spark = { pair_of A.Kind.spark B.Kind.spark };

    ghost equal = { pair_equal A.Kind.equal B.Kind.equal };

    ghost laws = { pair_laws A.Kind.laws B.Kind.laws };

    fn zero_sample() -> Pair<A, B> {
        Pair {
            first: A::zero_sample(),
            second: B::zero_sample(),
        }
    }

    fn spark_sample() -> Pair<A, B> {
        Pair {
            first: A::spark_sample(),
            second: B::spark_sample(),
        }
    }

    fn add(self, other: Pair<A, B>) -> Pair<A, B> {
        Pair {
            first: self.first.add(other.first),
            second: self.second.add(other.second),
        }
    }

    fn negate(self) -> Pair<A, B> {
        Pair {
            first: self.first.negate(),
            second: self.second.negate(),
        }
    }

    // By the kinds' own tests: a kind need not have `==`.
    fn same(self, other: Pair<A, B>) -> bool {
        self.first.same(other.first) && self.second.same(other.second)
    }
}
