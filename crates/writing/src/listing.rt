// Writing listings.
ghost use Rattle.std.specs.Prelude.{◌≡◌, ◌≤◌, [], length};
ghost use Rattle.mojette.specs.Faults.{outcome};
ghost use Rattle.mojette.specs.Bounds.{most_places};
ghost use Rattle.plan.specs.Laid.{shape_from};
ghost use Rattle.plan.specs.Shapes.{shape};
ghost use Rattle.format.specs.Listing.{tile_text, picture_text, ghost_text, refusal_text};
ghost use Rattle.writing.specs.Splices.{filling, listing, most_listing, most_refusal};

use crate::tile::{head_len, lost_len};
use crate::writer::{Writer, line_len};
use mojette::{Fault, Refusal, Size, Table};
use plan::{Place, Plan};
use samples::Coded;

// A tile that begins with a word, with lines for the lost ones among some places.
fn write_tile<K: Coded>(
    out: &mut [u8],
    word: &[u8],
    size: Size,
    places: &[Place],
    picture: &[K],
) -> Result<usize, Fault>
    requires short { (length word.now ≤ 255) × (length places.now ≤ most_places) }
    ensures text { let s = shape_from size.columns size.rows places.now in
        let text = tile_text K.Kind K.Coded.own word.now s.P s.Q s.records picture.now in
        (outcome result, out.new) ≡ listing s.P s.Q picture.now text out.old }
    ensures fits { let s = shape_from size.columns size.rows places.now in
        length (tile_text K.Kind K.Coded.own word.now s.P s.Q s.records picture.now) ≤ most_listing }
{
    let name = K::kind_name();
    let row = size.columns * (K::digits() + 1) + 6;
    let needed = head_len(word, name, size) + lost_len(places) + size.rows * row + 6;
    if picture.len() < size.pixels() {
        return Err(Fault::ShortTable(Table::Picture));
    }
    if out.len() < needed {
        return Err(Fault::ShortOutput(needed));
    }
    let mut writer = Writer::new(out);
    writer.put_head(word, name, size);
    writer.put_lost(places);
    writer.put_rows(size, picture);
    writer.put(b"(end)\n");
    Ok(needed)
}

/// Writes the listing of a picture, its first P·Q cells row by row, and answers how many bytes it has.
/// Refused are a picture with fewer cells, then an output that is too short, with the length that is needed.
pub fn write_picture<K: Coded>(out: &mut [u8], size: Size, picture: &[K]) -> Result<usize, Fault>
    ensures text { let s = shape_from size.columns size.rows [] in
        (outcome result, out.new)
        ≡ listing s.P s.Q picture.now (picture_text K.Kind K.Coded.own s picture.now) out.old }
    ensures fits { let s = shape_from size.columns size.rows [] in
        length (picture_text K.Kind K.Coded.own s picture.now) ≤ most_listing }
{
    write_tile(out, b"picture", size, &[], picture)
}

/// Writes the listing of a ghost, with a line for each lost place of its plan, before its rows. It is refused
/// as a picture is.
pub fn write_ghost<K: Coded>(out: &mut [u8], plan: &Plan, picture: &[K]) -> Result<usize, Fault>
    ensures text { let s = shape plan.now in
        (outcome result, out.new)
        ≡ listing s.P s.Q picture.now (ghost_text K.Kind K.Coded.own s picture.now) out.old }
    ensures fits { length (ghost_text K.Kind K.Coded.own (shape plan.now) picture.now) ≤ most_listing }
{
    write_tile(out, b"ghost", plan.size(), plan.places(), picture)
}

/// Writes the listing of a refusal: its number and its three values. Refused is only an output that is too
/// short, with the length that is needed.
// Into a lent table and with the needed length first, which `Display` does not give.
pub fn write_refusal(out: &mut [u8], refusal: Refusal) -> Result<usize, Fault>
    ensures text { (outcome result, out.new) ≡ filling (refusal_text refusal) out.old }
    ensures fits { length (refusal_text refusal) ≤ most_refusal }
{
    let values = [refusal.number, refusal.first, refusal.second, refusal.third];
    let needed = line_len(b"refused", &values);
    if out.len() < needed {
        return Err(Fault::ShortOutput(needed));
    }
    let mut writer = Writer::new(out);
    writer.put_line(b"refused", &values);
    Ok(needed)
}
