// The refusal that a listing tells.
ghost use Rattle.std.specs.Prelude.{◌≡◌, ◌==◌, ◌≤◌, length, take_while};
ghost use Rattle.std.specs.Char.{is_ascii_digit};
ghost use Rattle.std.specs.List.{position_or_len};
ghost use Rattle.format.specs.Numbers.{read_on};
ghost use Rattle.reports.specs.Listings.{capped, after_space, front_number, refusal_read, ReadsRefusals};

use mojette::Refusal;

/// How every listing of a refusal begins.
const HEAD: &[u8] = b"(refused ";

/// How many bytes a line has before its first space.
fn word_len(line: &[u8]) -> usize
    ensures { result ≡ position_or_len (λ b. b == 32) line.now }
{
    line.iter().take_while(|b| **b != b' ').count()
}

/// What stands behind the first space.
#[tactic(auto, using(std::proofs::lemmas::List::drop_all))]
fn after_space(line: &[u8]) -> &[u8]
    ensures { result.now ≡ after_space line.now }
{
    let end = word_len(line);
    if end < line.len() {
        &line[end + 1..]
    } else {
        &[]
    }
}

/// How many digits a line begins with.
fn digit_count(line: &[u8]) -> usize
    ensures within { result ≤ length line.now }
    ensures value { result ≡ length (take_while is_ascii_digit line.now) }
{
    line.iter().take_while(|b| b.is_ascii_digit()).count()
}

/// The number that digits write; the most there is for a larger one.
fn value_of(digits: &[u8]) -> usize
    ensures { result ≡ capped (read_on 0 digits.now) }
{
    let mut value: usize = 0;
    for digit in digits {
        value = value
            .saturating_mul(10)
            .saturating_add(usize::from(digit.saturating_sub(b'0')));
    }
    value
}

/// The number that a line begins with.
fn front_number(line: &[u8]) -> usize
    ensures { result ≡ front_number line.now }
{
    value_of(&line[..digit_count(line)])
}

/// The refusal that a listing tells, if it tells one.
pub fn refusal_in(listing: &[u8]) -> Option<Refusal>
    ensures value { result ≡ refusal_read listing.now }
    ensures law { ReadsRefusals }
{
    if !listing.starts_with(HEAD) {
        return None;
    }
    let number = after_space(listing);
    let first = after_space(number);
    let second = after_space(first);
    let third = after_space(second);
    Some(Refusal {
        number: front_number(number),
        first: front_number(first),
        second: front_number(second),
        third: front_number(third),
    })
}
