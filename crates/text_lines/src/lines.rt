// A text read from a place on: a key, a number, a number with what parts it from the next, a line with one number.
ghost use Rattle.std.specs.Prelude.{◌≡◌, ◌↔◌, true, false, [], ◌∷◌, ◌+◌, ◌-◌, ◌*◌, ◌≤◌, min, length, drop};
ghost use Rattle.std.specs.Prelude.{MatchOption, IfOk};
ghost use Rattle.listing.specs.Listing.{width};
ghost use Rattle.listing.specs.Told.{told};
ghost use Rattle.text_theory.specs.Said.{begins, value, values_from};
ghost use Rattle.text_theory.specs.Digits.{is_digit, digits_in, valued, Numeral, good_row};
ghost use Rattle.text_lines.specs.Lines.{Key, WordRead, TermRead, form_of, LineRead};

use listing::Refusal;

// A number that was read: its value, and the place after its digits.
#[derive(Clone, Copy)]
pub struct Word {
    pub value: usize,
    pub next: usize,
}

// A number of a row: whether a comma ends it, and not the line; its value; and the place after that. The number is
// there either way, so that `more` is no `Option`.
#[derive(Clone, Copy)]
pub struct Term {
    pub more: bool,
    pub value: usize,
    pub next: usize,
}

// A line with one number that was read: its value, and the place after its newline.
#[derive(Clone, Copy)]
pub struct Single {
    pub value: usize,
    pub next: usize,
}

// Whether a byte is a digit.
#[tactic(auto, unfolding(text_theory::specs::Digits::is_digit))]
fn is_digit(b: u8) -> bool
    ensures { result ≡ is_digit b }
{
    b.is_ascii_digit()
}

// A number with one digit more; one that is too large for a listing stays the first that is.
#[tactic(auto, using(text_theory::proofs::Digits::digit_range))]
fn with_digit(v: usize, b: u8) -> usize
    requires { (v ≤ width) × (is_digit b ≡ true) }
    ensures { result ≡ min (10 * v + (b - 48)) width }
{
    let most = usize::from(listing::LARGEST) + 1;
    (10 * v + (b - b'0') as usize).min(most)
}

// Whether digits from one place up to another, which tell the number v, are a number as it is written.
#[tactic(auto, using(crate::proofs::Values::numerals))]
fn is_numeral(text: &[u8], at: usize, end: usize, v: usize) -> bool
    requires at_le_end { (at ≤ end) × (end ≤ length text.now) }
    requires end_value { end ≡ at + length (digits_in (drop at text.now)) }
    requires v_value { v ≡ min (valued 0 (digits_in (drop at text.now))) width }
    ensures { (result ≡ true) ↔ Numeral (digits_in (drop at text.now)) }
{
    if at == end {
        return false;
    }
    if usize::from(listing::LARGEST) < v {
        return false;
    }
    if text[at] == b'0' {
        return at + 1 == end;
    }
    true
}

// Digits from one place up to another, which tell the number v, as a number, if they are one as it is written.
fn word_of(text: &[u8], at: usize, end: usize, v: usize) -> Option<Word>
    requires at_le_end { (at ≤ end) × (end ≤ length text.now) }
    requires end_value { end ≡ at + length (digits_in (drop at text.now)) }
    requires v_value { v ≡ min (valued 0 (digits_in (drop at text.now))) width }
    ensures { MatchOption result (¬ Numeral (digits_in (drop at text.now))) (WordRead text.now at) }
{
    is_numeral(text, at, end, v).then_some(Word {
        value: v,
        next: end,
    })
}

// The number that stands at a place, if one does.
fn number_at(text: &[u8], at: usize) -> Option<Word>
    requires { at ≤ length text.now }
    ensures { MatchOption result (¬ Numeral (digits_in (drop at text.now))) (WordRead text.now at) }
{
    let mut v: usize = 0;
    for i in at..text.len() {
        let b = text[i];
        if !is_digit(b) {
            return word_of(text, at, i, v);
        }
        v = with_digit(v, b);
    }
    word_of(text, at, text.len(), v)
}

// The number that stands at a place, and what parts it from the next, if that is a comma or the end of the line.
pub fn term_at(text: &[u8], at: usize) -> Option<Term>
    requires { at ≤ length text.now }
    ensures { MatchOption result
        (good_row (values_from 0 (drop at text.now)) (drop at text.now) ≡ false)
        (TermRead text.now at) }
{
    let Word { value, next } = number_at(text, at)?;
    let more = match *text.get(next)? {
        b',' => true,
        b'\n' => false,
        _ => return None,
    };
    Some(Term {
        more,
        value,
        next: next + 1,
    })
}

// Whether a text goes on with a key at a place.
#[tactic(auto, using(crate::proofs::Keys::begins_is, std::proofs::lemmas::List::take_rest))]
pub fn has_key(text: &[u8], at: usize, key: &[u8]) -> bool
    requires { at ≤ length text.now }
    ensures { result ≡ begins key.now (drop at text.now) }
{
    text[at..].starts_with(key)
}

// The line with a key and one number that begins at a place.
#[tactic(auto, using(crate::proofs::Singles::singles))]
pub fn single_at(text: &[u8], at: usize, key: &[u8]) -> Result<Single, Refusal>
    requires at_in_bounds { at ≤ length text.now }
    requires key { Key key.now }
    ensures test { told result ≡ form_of key.now (value (drop (length key.now) (drop at text.now)) ∷ [])
        (drop at text.now) }
    ensures line_read { IfOk result (LineRead text.now at key.now) }
{
    if !has_key(text, at, key) {
        return Err(Refusal::WrongKey);
    }
    match term_at(text, at + key.len()) {
        Some(i) if !i.more => Ok(Single {
            value: i.value,
            next: i.next,
        }),
        _ => Err(Refusal::BadLine),
    }
}
