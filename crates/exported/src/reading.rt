// Reading a bracket file of sum words.
ghost use Rattle.std.specs.Prelude.{◌≡◌, ◌≤◌, length, take, drop, IfOk};
ghost use Rattle.samples.specs.contracts.codes.SumWordCoded.TheImpl.{ghosts as sum_codes};
ghost use Rattle.samples.specs.contracts.impls.SumWordKind.TheImpl.{ghosts as sum_operations};
ghost use Rattle.mojette.specs.Bounds.{most_positions};
ghost use Rattle.mojette.specs.Faults.{outcome};
ghost use Rattle.mojette.specs.Meaning.{shape_of, bins_of};
ghost use Rattle.plan.specs.Shapes.{shape};
ghost use Rattle.format.specs.Laws.{OneText};
ghost use Rattle.bracket.specs.Files.{file_meaning};
ghost use Rattle.exported.specs.Reading.{text_meaning, describing, laid, loading, MeansTheFile};
ghost use Rattle.exported.specs.Told.{told};

use crate::told::tell;
use bracket::BracketFile;
use mojette::{Fault, Record, Refusal, Table};
use plan::Plan;
use samples::SumWord;
use source::{Sizes, Source};
use tile::{Loading, Tables, open};

// Writes the records of the places, of which there are as many as cells.
fn write_records(file: &BracketFile<SumWord>, records: &mut [Record])
    requires { length records.old ≡ length (file_meaning file.now).places }
    ensures { records.new ≡ (shape_of (file_meaning file.now)).records }
{
    for (i, entry) in records.iter_mut().enumerate() {
        let Ok(found) = file.place(i) else {
            unreachable()
        };
        *entry = found;
    }
}

// Reads a file, and writes its sizes and the records of its places. Answers how many places it has.
fn describe(text: &[u8], sizes: &mut Sizes, records: &mut [Record]) -> Result<usize, Fault>
    ensures answer { outcome result ≡ (describing (text_meaning text.now) sizes.old records.old).answer }
    ensures sizes { sizes.new ≡ (describing (text_meaning text.now) sizes.old records.old).sizes }
    ensures records { records.new ≡ (describing (text_meaning text.now) sizes.old records.old).records }
{
    let file = BracketFile::<SumWord>::read(text)?;
    let read = file.sizes();
    if records.len() < read.places {
        return Err(Fault::ShortOutput(read.places));
    }
    write_records(&file, &mut records[..read.places]);
    *sizes = read;
    Ok(read.places)
}

/// Reads a file, and writes its sizes and the records of its places. Answers how many places it has.
#[unsafe(no_mangle)]
pub extern "C" fn mojette_read(
    text: &[u8],
    sizes: &mut Sizes,
    records: &mut [Record],
    refusal: &mut Refusal,
) -> usize
    ensures answer { let left = describing (text_meaning text.now) sizes.old records.old in
        (result, refusal.new) ≡ told left.answer }
    ensures sizes { let left = describing (text_meaning text.now) sizes.old records.old in
        sizes.new ≡ left.sizes }
    ensures records { let left = describing (text_meaning text.now) sizes.old records.old in
        records.new ≡ left.records }
{
    let answer = describe(text, sizes, records);
    tell(answer, refusal)
}

// Loads every place of a file.
fn load_all(mut tile: Loading, file: &BracketFile<SumWord>, plan: &Plan, sums: &mut [SumWord])
    requires own { shape plan.now ≡ shape_of (file_meaning file.now) }
    requires none { tile ≡ 0 }
    requires room { bins_of (shape plan.now) ≤ length sums.old }
    ensures { sums.new ≡ laid (file_meaning file.now) (length (file_meaning file.now).places) sums.old }
{
    // A load looks at the sums alone.
    let mut tables = Tables {
        picture: &mut [],
        marks: &mut [],
        sums,
        counts: &mut [],
        queue: &mut [],
    };
    for _ in 0..plan.count() {
        let Ok(next) = tile.load(file, plan, &mut tables) else {
            unreachable()
        };
        tile = next;
    }
}

// Reads a file, and asks it for the bins of all its places. Answers how many there are.
fn load_file(text: &[u8], sums: &mut [SumWord]) -> Result<usize, Fault>
    ensures answer { outcome result ≡ (loading (text_meaning text.now) sums.old).answer }
    ensures sums { sums.new ≡ (loading (text_meaning text.now) sums.old).sums }
    ensures few { IfOk result (λ bins. bins ≤ most_positions) }
    ensures law { OneText sum_operations sum_codes }
{
    let file = BracketFile::<SumWord>::read(text)?;
    let mut plan = Plan::fresh();
    let tile = open(&file, &mut plan)?;
    if sums.len() < plan.total() {
        return Err(Fault::ShortTable(Table::Sums));
    }
    load_all(tile, &file, &plan, sums);
    Ok(plan.total())
}

/// Reads a file, and writes the sums of all its places, in order of position, with zeros for a lost place. Answers how many there are.
#[unsafe(no_mangle)]
pub extern "C" fn mojette_ask(text: &[u8], sums: &mut [SumWord], refusal: &mut Refusal) -> usize
    ensures answer { (result, refusal.new) ≡ told (loading (text_meaning text.now) sums.old).answer }
    ensures sums { sums.new ≡ (loading (text_meaning text.now) sums.old).sums }
    ensures few { result ≤ most_positions }
    ensures beyond { drop result sums.new ≡ drop result sums.old }
    // Served, they are the run of a rack that means what the file means.
    ensures rack { refusal.new.number ≡ 0 → MeansTheFile (text_meaning text.now) (take result sums.new) }
{
    let answer = load_file(text, sums);
    tell(answer, refusal)
}
