// Walking along the pixels of a line. A pixel is known by x, its columns to the right edge, and y, its rows along.
ghost use Rattle.std.specs.Prelude.{◌≡◌, ◌*◌, ◌<◌, ◌≤◌, length, IfSome, MatchOption};
ghost use Rattle.walk.specs.Finding.{OfTile};
ghost use Rattle.walk.specs.Walking.{Corner, First, Empty, pixel_at, missing};

use crate::line::Line;
use crate::pixel::Pixel;

impl Line {
    // A pixel that no pixel of the line comes before, near the first of them: one division saves the walk along the edge. Its x and y are two
    // numbers here and below, since one of them steps at a time.
    fn corner(self) -> (usize, usize)
        ensures { Corner self result.0 result.1 }
    {
        let right = self.size.columns - 1;
        let reach = right * self.place.q;
        if reach > self.bin {
            (self.bin / self.place.q, 0)
        } else if self.place.slope > 0 {
            (right, (self.bin - reach) / self.place.slope)
        } else {
            (right, 0)
        }
    }

    // The first pixel of the line, from the right and along the rows.
    fn first(self) -> Option<(usize, usize)>
        ensures { MatchOption result (Empty self) (λ w. First self w.0 w.1) }
    {
        let (mut x, mut y) = self.corner();
        // One of two numbers steps, by where the last step led: no range or slice has these steps.
        loop {
            let at = x * self.place.q + y * self.place.slope;
            if at == self.bin {
                return Some((x, y));
            }
            if at > self.bin {
                x = x.checked_sub(1)?;
            } else {
                y += 1;
                if y == self.size.rows {
                    return None;
                }
            }
        }
    }

    // The pixel at x and y.
    fn pixel(self, x: usize, y: usize) -> Pixel
        requires { (x < self.size.columns) × (y < self.size.rows) }
        ensures { result ≡ pixel_at self x y }
    {
        let column = self.size.columns - 1 - x;
        let row = if self.place.leftward {
            self.size.rows - 1 - y
        } else {
            y
        };
        let cell = row * self.size.columns + column;
        Pixel { column, row, cell }
    }

    // The one pixel of the line that is missing, if exactly one is.
    pub(crate) fn lone(self, marks: &[u8]) -> Option<Pixel>
        requires { self.size.columns * self.size.rows ≤ length marks.now }
        ensures is { result ≡ missing self marks.now }
        ensures pixel { IfSome result (OfTile self.size.columns self.size.rows) }
    {
        let (mut x, mut y) = self.first()?;
        let mut lone = None;
        // Two numbers step in a loop: with an iterator over the pixels the search took a fifth longer.
        loop {
            let pixel = self.pixel(x, y);
            if marks[pixel.cell] == 0 {
                if lone.is_some() {
                    return None;
                }
                lone = Some(pixel);
            }
            if x < self.place.slope || y + self.place.q >= self.size.rows {
                return lone;
            }
            x -= self.place.slope;
            y += self.place.q;
        }
    }
}
