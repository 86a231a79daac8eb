// Letters, numbers and lists out of a line of text. A list is numbers in brackets, where 5*3 stands for 5 5 5. Numbers
// outside of lists come after a space, after all lists and all that stands in quotes.
ghost use Rattle.std.specs.Prelude.{◌≡◌, ◌+◌, ◌-◌, ◌≤◌, min, length, get_or, drop, replicate};
ghost use Rattle.lent_input.specs.Counts.{IsPrefixLen};
ghost use Rattle.listing.specs.Listing.{width};
ghost use Rattle.replay_reading.specs.Text.{until, opened, bracketed, closes, after_closing, spaced};
ghost use Rattle.replay_reading.specs.Text.{largest, with_digit, goes_on, with_byte, numbers_in, Stored};

use listing::Index;

// The largest number of 32 bits: any above it is taken for it, as in a listing any above its largest.
const LARGEST: u32 = u32::MAX;

// A number that is being read: its value, how often it stands, and whether a star has come, after which the digits say
// how often: a field and no variant, since the definitions step this record byte by byte (`with_byte`).
#[derive(Clone, Copy)]
pub struct Item {
    pub value: u32,
    pub times: u32,
    pub star: bool,
}

// No number is being read.
const GAP: Item = Item {
    value: 0,
    times: 0,
    star: false,
};

// The letter at a place of a line, 0 past its end.
pub fn letter(line: &[u8], at: usize) -> u8
    ensures { result ≡ get_or line.now at 0 }
{
    line.get(at).copied().unwrap_or(0)
}

// A number of 16 bits, the largest where it is larger: no `From` does that.
pub fn narrow(v: u32) -> Index
    ensures { result ≡ min v (width - 1) }
{
    Index::try_from(v).unwrap_or(listing::LARGEST)
}

// A byte, likewise.
pub fn byte(v: u32) -> u8
    ensures { result ≡ min v 255 }
{
    u8::try_from(v).unwrap_or(u8::MAX)
}

// Where a byte stands first from a place on, or the end of the text.
#[tactic(auto, using(crate::proofs::Texts::untils))]
pub fn find(text: &[u8], from: usize, b: u8) -> usize
    requires { from ≤ length text.now }
    ensures value { result ≡ from + length (until b (drop from text.now)) }
    ensures lower_bound { (from ≤ result) × (result ≤ length text.now) }
{
    for i in from..text.len() {
        if text[i] == b {
            return i;
        }
    }
    text.len()
}

// The place after the opening bracket of a list, the first being 0.
#[tactic(auto, using(crate::proofs::Texts::openings))]
fn opening(line: &[u8], k: usize) -> usize
    ensures { (result ≤ length line.now) × (drop result line.now ≡ opened k line.now) }
{
    let mut left = k;
    for (i, &b) in line.iter().enumerate() {
        if b == b'[' {
            if left == 0 {
                return i + 1;
            }
            left -= 1;
        }
    }
    line.len()
}

// Whether a byte closes a list, or what stands in quotes.
#[tactic(auto, unfolding(crate::specs::Text::closes))]
fn closes(b: u8) -> bool
    ensures { result ≡ closes b }
{
    b == b']' || b == b'"'
}

// The place after the last byte that closes something.
#[tactic(auto, using(crate::proofs::Texts::closings))]
fn tail(line: &[u8]) -> usize
    ensures { (result ≤ length line.now) × (drop result line.now
        ≡ after_closing line.now line.now) }
{
    let mut at = 0;
    for (i, &b) in line.iter().enumerate() {
        if closes(b) {
            at = i + 1;
        }
    }
    at
}

// Whether a number goes on with a byte: a digit or a star.
#[tactic(auto, unfolding(crate::specs::Text::goes_on))]
fn goes_on(b: u8) -> bool
    ensures { result ≡ goes_on b }
{
    b == b'*' || b.is_ascii_digit()
}

// The value of a digit.
fn digit(b: u8) -> u64
    ensures { result ≡ b - 48 }
{
    u64::from(b.saturating_sub(b'0'))
}

// A number with one digit more.
fn with_digit(v: u32, b: u8) -> u32
    ensures { result ≡ with_digit v b }
{
    u32::try_from(u64::from(v) * 10 + digit(b)).unwrap_or(LARGEST)
}

// The number that is being read, with one byte more.
#[tactic(auto, unfolding(crate::specs::Text::with_byte))]
fn with_byte(s: Item, b: u8) -> Item
    ensures { result ≡ with_byte s b }
{
    if b == b'*' {
        return Item {
            value: s.value,
            times: 0,
            star: true,
        };
    }
    if s.star {
        return Item {
            value: s.value,
            times: with_digit(s.times, b),
            star: true,
        };
    }
    Item {
        value: with_digit(s.value, b),
        times: 1,
        star: false,
    }
}

// Writes a number as often as asked from a place on, as far as there is room, and says where it stopped.
#[tactic(auto, using(crate::proofs::Stores::filled))]
fn put(out: &mut [Index], from: usize, v: Index, times: u32) -> usize
    requires { from ≤ length out.old }
    ensures { Stored (replicate times v) from out.old out.new result }
{
    let to = from + (times as usize).min(out.len() - from);
    out[from..to].fill(v);
    to
}

// The numbers of a text, into the start of a slice; says how many there are.
#[tactic(auto, using(crate::proofs::Texts::reads, crate::proofs::Stores::storing_last))]
fn fill(text: &[u8], out: &mut [Index]) -> usize
    ensures { Stored (numbers_in (width - 1) text.now) 0 out.old out.new result }
{
    let mut s = GAP;
    let mut n = 0;
    for &b in text {
        if goes_on(b) {
            s = with_byte(s, b);
        } else {
            n = put(&mut *out, n, narrow(s.value), s.times);
            s = GAP;
        }
    }
    put(&mut *out, n, narrow(s.value), s.times)
}

// A list of the line, the first being 0, into the start of a slice; says how many numbers it has.
#[tactic(auto, using(crate::proofs::Texts::bracketed_is, crate::proofs::Stores::stored_counts))]
pub fn list(line: &[u8], k: usize, out: &mut [Index]) -> usize
    ensures stored { Stored (numbers_in (width - 1) (bracketed k line.now)) 0 out.old
        out.new result }
    ensures prefix_len { IsPrefixLen result out.new }
{
    let from = opening(line, k);
    let to = find(line, from, b']');
    fill(&line[from..to], &mut *out)
}

// A number of a text, the first being 0; 0 where there is none.
#[tactic(auto, using(crate::proofs::Texts::reads, crate::proofs::Stores::runs))]
pub fn number_at(text: &[u8], k: usize) -> u32
    ensures { result ≡ get_or (numbers_in largest text.now) k 0 }
{
    let mut s = GAP;
    let mut left = k;
    for &b in text {
        if goes_on(b) {
            s = with_byte(s, b);
        } else {
            let times = s.times as usize;
            if left < times {
                return s.value;
            }
            left -= times;
            s = GAP;
        }
    }
    if left < s.times as usize { s.value } else { 0 }
}

// A number of the line outside of lists, the first being 0.
#[tactic(auto, using(crate::proofs::Texts::take_rest, crate::proofs::Texts::spaced_is))]
pub fn plain(line: &[u8], k: usize) -> u32
    ensures { result ≡ get_or (numbers_in largest (spaced line.now)) k 0 }
{
    let from = find(line, tail(line), b' ');
    number_at(&line[from..], k)
}
