// Notes as samples: so a table of them is the projection of a tile whose samples are the notes of its cells.
ghost use Rattle.notes.specs.Words.{note_plus, note_inverse, note_zero, note_spark, note_equal, note_laws};

use crate::note::Note;
use samples::Kind;

impl Kind for Note {
    ghost plus = { note_plus };

    ghost inverse = { note_inverse };

    ghost zero = { note_zero };

    ghost spark = { note_spark };

    ghost equal = { note_equal };

    ghost laws = { note_laws };

    fn zero_sample() -> Note {
        Note { value: 0 }
    }

    fn spark_sample() -> Note {
        Note { value: 1 }
    }

    fn add(self, other: Note) -> Note {
        Note {
            value: self.value.wrapping_add(other.value),
        }
    }

    fn negate(self) -> Note {
        Note {
            value: self.value.wrapping_neg(),
        }
    }

    fn same(self, other: Note) -> bool {
        self == other
    }
}
