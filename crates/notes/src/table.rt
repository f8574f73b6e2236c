// The notes of all bins. A file of its own, so that `specs/` can name the type.

use crate::note::Note;
use mojette::MOST_POSITIONS;

// Beside the caller's counts, which are not looked at until they are written.
#[derive(Drop)]
pub struct Notes {
    pub(crate) notes: [Note; MOST_POSITIONS],
}
