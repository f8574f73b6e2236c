// Writing parts of a text into the cells of a table, one behind another.
ghost use Rattle.std.specs.Prelude.{◌≡◌, ◌+◌, ◌*◌, ◌≤◌, length, decimal};
ghost use Rattle.samples.specs.Reading.{code};
ghost use Rattle.writing.specs.Lines.{spaced, line_text};
ghost use Rattle.writing.specs.Writers.{has_room, Writes};

use samples::Coded;
use samples::codes::write_code;

// A table, and how many of its cells hold text. The table is the caller's slice and needs no heap, hence a
// length beside it. That a text fits is asked of each call, since each has another text.
#[derive(Drop)]
pub(crate) struct Writer<'a> {
    table: &'a mut [u8],
    filled: usize,
}

impl<'a> Writer<'a> {
    pub(crate) fn new(table: &'a mut [u8]) -> Writer<'a>
        ensures same_table { result.table.ghost_name ≡ table.entry.ghost_name }
        ensures cells { result.table.now ≡ table.old }
        ensures empty { result.filled ≡ 0 }
    {
        Writer { table, filled: 0 }
    }

    pub(crate) fn put(&mut self, text: &[u8])
        requires { has_room self.old text.now }
        ensures { Writes text.now self.old self.new }
    {
        let end = self.filled + text.len();
        self.table[self.filled..end].copy_from_slice(text);
        self.filled = end;
    }

    // The code of a sample.
    pub(crate) fn put_code<K: Coded>(&mut self, sample: K)
        requires { has_room self.old (code K.Coded.own sample) }
        ensures { Writes (code K.Coded.own sample) self.old self.new }
    {
        self.filled += write_code(sample, &mut self.table[self.filled..]).unwrap();
    }

    // The codes of samples, each after a space.
    pub(crate) fn put_codes<K: Coded>(&mut self, samples: &[K])
        requires { has_room self.old (spaced (code K.Coded.own) samples.now) }
        ensures { Writes (spaced (code K.Coded.own) samples.now) self.old self.new }
    {
        for sample in samples {
            self.put(b" ");
            self.put_code(*sample);
        }
    }

    // A number. By own code: the library prints numbers into writers of its own, and a crate for it would be
    // one more to trust.
    pub(crate) fn put_decimal(&mut self, number: usize)
        requires { has_room self.old (decimal number) }
        ensures { Writes (decimal number) self.old self.new }
    {
        if number < 10 {
            self.put(&[b'0' + number as u8]);
        } else {
            self.put_decimal(number / 10);
            self.put(&[b'0' + (number % 10) as u8]);
        }
    }

    // Numbers, each after a space. It is no trait's method with `put_codes`: an impl for every coded kind
    // would overlap one for `usize`.
    pub(crate) fn put_numbers(&mut self, numbers: &[usize])
        requires { has_room self.old (spaced decimal numbers.now) }
        ensures { Writes (spaced decimal numbers.now) self.old self.new }
    {
        for number in numbers {
            self.put(b" ");
            self.put_decimal(*number);
        }
    }

    // A line of a word and numbers.
    pub(crate) fn put_line(&mut self, word: &[u8], numbers: &[usize])
        requires { has_room self.old (line_text word.now numbers.now) }
        ensures { Writes (line_text word.now numbers.now) self.old self.new }
    {
        self.put(b"(");
        self.put(word);
        self.put_numbers(numbers);
        self.put(b")\n");
    }
}

// How many digits a number has.
pub(crate) fn decimal_len(number: usize) -> usize
    ensures value { result ≡ length (decimal number) }
    ensures short { result ≤ 20 }
{
    if number < 10 {
        1
    } else {
        decimal_len(number / 10) + 1
    }
}

// How long numbers are, each after a space.
pub(crate) fn numbers_len(numbers: &[usize]) -> usize
    requires { length numbers.now ≤ 4 }
    ensures value { result ≡ length (spaced decimal numbers.now) }
    ensures short { result ≤ length numbers.now * 21 }
{
    numbers.iter().map(|number| decimal_len(*number) + 1).sum()
}

// How long a line of a word and numbers is.
pub(crate) fn line_len(word: &[u8], numbers: &[usize]) -> usize
    requires { (length word.now ≤ 255) × (length numbers.now ≤ 4) }
    ensures value { result ≡ length (line_text word.now numbers.now) }
    ensures short { result ≤ 3 + length word.now + length numbers.now * 21 }
{
    3 + word.len() + numbers_len(numbers)
}
