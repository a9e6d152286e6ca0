// Contact cards, as card.rs has them: decode and encode.
#![tactic(auto)]

ghost use Rattle.std.specs.Prelude.{◌≡◌, ◌++◌, ◌+◌, ◌-◌, ◌≤◌, length, take, drop};
ghost use Rattle.layout.specs.Veil.{plain, zeros};
ghost use Rattle.layout.specs.Form.{bytes, only_if};
ghost use Rattle.layout.specs.Field.{read_at};
ghost use Rattle.layout.specs.Layout.{read_row};
ghost use Rattle.layout.specs.Says.{answers, answer_says, made, written_says, leaves};
ghost use Rattle.layout.specs.Write.{asked, writes};
ghost use Rattle.put.specs.Put.{Wrote};
ghost use Rattle.rows.specs.Checks.{kci};
ghost use Rattle.rows.specs.Rows.{card_row};
ghost use Rattle.card.specs.Card.{key_says, KeyEnds, card_from, Placed, card_of, length_of, card_fits, card_at, zero_card};
ghost use Rattle.card.specs.Card.{CardTyped, image, storable, name_part};

use layout::Question;

// A card. name_len says how much of name is a value, and bit 1 of caps (KCI) whether static_ek is one: what is left out is 0.
#[derive(Clone, Copy)]
pub struct Card {
    pub beacon_day: u32,
    // Kept: what may not change: card_size and put_card speak of every Card, also of one whose caps say no key before a static_ek that is not 0.
    pub caps: u8,
    pub name_len: u8,
    pub beacon_key: [u8; 32],
    // Kept: no heap: fixed memory for the longest name
    pub name: [u8; 48],
    pub static_ek: [u8; 1184],
}

// A card's numbers. Its runs stand at fixed places of the input: beacon_key at 5, name at 38, and static_ek behind the name.
#[derive(Clone, Copy)]
pub struct CardAt {
    pub beacon_day: u32,
    pub caps: u8,
    pub name_len: u8,
}

const BEACON_KEY_AT: usize = 5;

const NAME_AT: usize = 38;

// The position after the key, where caps calls for one; the same where it does not.
fn static_ek_at(input: &[u8], at: usize, caps: u8) -> Result<usize, Question>
    requires { at ≤ length input.now }
    ensures { (key_says caps input.now at result ≡ read_at (only_if (bytes plain 1184) (kci caps)) input.now at) × KeyEnds caps at result }
{
    if caps / 2 % 2 == 1 {
        let (_static_ek, next) = fields::run_at(input, at, rows::MLKEM768_ENCAPSULATION_KEY_LEN)?;
        return Ok(next);
    }
    Ok(at)
}

// The questions of a card that stands alone; nothing is copied.
pub fn check_card(input: &[u8]) -> Result<CardAt, Question>
    ensures { (answer_says (card_from input.now) result ≡ read_row card_row input.now) × Placed input.now result }
{
    let (caps, at1) = fields::byte_at(input, 0)?;
    if 4 <= caps {
        return Err(Question::Caps);
    }
    let (beacon_day, at2) = fields::u32_at(input, at1)?;
    let (_beacon_key, at3) = fields::run_at(input, at2, 32)?;
    let (name_len, at4) = fields::byte_at(input, at3)?;
    let name_bytes = usize::from(name_len);
    if rows::MAX_NAME_LEN < name_bytes {
        return Err(Question::NameLength);
    }
    let (name, at5) = fields::run_at(input, at4, name_bytes)?;
    if !utf8::is_utf8(&input[name..at5]) {
        return Err(Question::NameUtf8);
    }
    let at6 = static_ek_at(input, at5, caps)?;
    if at6 < input.len() {
        return Err(Question::CardEnd);
    }
    Ok(CardAt {
        beacon_day,
        caps,
        name_len,
    })
}

fn name_from(input: &[u8], from: usize, n: usize) -> [u8; 48]
    requires { (n ≤ 48) × (from + n ≤ length input.now) }
    ensures { result ≡ take n (drop from input.now) ++ zeros (48 - n) }
{
    // Kept: no heap: the struct's own array, of fixed memory
    let mut name = [0u8; 48];
    put::put_run(&mut name, 0, input, from, n);
    name
}

// How long a card with these caps and a name of this length is.
fn length_of(caps: u8, name_len: u8) -> usize
    ensures { result ≡ length_of caps name_len }
{
    let name_end = NAME_AT + usize::from(name_len);
    if caps / 2 % 2 == 1 {
        return name_end + rows::MLKEM768_ENCAPSULATION_KEY_LEN;
    }
    name_end
}

// Whether such a card fits into so many bytes: one with too long a name fits nowhere.
fn card_fits(caps: u8, name_len: u8, room: usize) -> bool
    ensures { result ≡ card_fits caps name_len room }
{
    if rows::MAX_NAME_LEN < usize::from(name_len) {
        return false;
    }
    length_of(caps, name_len) <= room
}

// The card of the numbers that check_card found; all zeros where its runs do not lie in the input.
pub fn card_from(input: &[u8], at: CardAt) -> Card
    ensures { result ≡ card_at input.now at }
{
    if !card_fits(at.caps, at.name_len, input.len()) {
        return Card::zero();
    }
    let n = usize::from(at.name_len);
    let beacon_key = put::copy_array(input, BEACON_KEY_AT);
    let name = name_from(input, NAME_AT, n);
    // Kept: no heap: the struct's own array, of fixed memory
    let mut static_ek = [0u8; 1184];
    if at.caps / 2 % 2 == 1 {
        static_ek = put::copy_array(input, NAME_AT + n);
    }
    Card {
        beacon_day: at.beacon_day,
        caps: at.caps,
        name_len: at.name_len,
        beacon_key,
        name,
        static_ek,
    }
}

impl Card {
    // All zeros: what stands where no card was read.
    pub fn zero() -> Card
        ensures { result ≡ zero_card }
    {
        Card {
            beacon_day: 0,
            caps: 0,
            name_len: 0,
            beacon_key: [0; 32],
            name: [0; 48],
            static_ek: [0; 1184],
        }
    }

    pub fn decode(input: &[u8]) -> Result<Card, Question>
        ensures { answers result ≡ made card_of (read_row card_row input.now) }
    {
        let at = check_card(input)?;
        Ok(card_from(input, at))
    }

    // Asks what reading the row would ask, then for room; a refusal writes nothing.
    // Kept: the new form is no plainer: SealedRow::row has this outline too, but here there is no sealed text to pass on.
    pub fn encode(self, out: &mut [u8]) -> Result<usize, Question>
        ensures { leaves result out.new ≡ writes card_row (image self) out.old }
    {
        typed(self);
        let n = card_size(self)?;
        if out.len() < n {
            return Err(Question::Output);
        }
        put_row(out, 0, self);
        Ok(n)
    }
}

// What the struct's type says of it, as a fact.
fn typed(card: Card) -> bool
    ensures { CardTyped card }
{
    true
}

// The length of the card's row, or the question that reading it would answer no.
pub fn card_size(card: Card) -> Result<usize, Question>
    ensures { written_says result ≡ asked card_row (image card) }
{
    typed(card);
    if 4 <= card.caps {
        return Err(Question::Caps);
    }
    let n = usize::from(card.name_len);
    if rows::MAX_NAME_LEN < n {
        return Err(Question::NameLength);
    }
    let name = card.name;
    if !utf8::is_utf8(&name[..n]) {
        return Err(Question::NameUtf8);
    }
    Ok(card_len(card))
}

// The length of the card's row.
pub fn card_len(card: Card) -> usize
    ensures { result ≡ length (image card) }
{
    typed(card);
    length_of(card.caps, card.name_len)
}

// Writes the card's row from a place on; the place behind it. Nothing is written where the name is too long, or where there is no room.
pub fn put_card(out: &mut [u8], at: usize, card: Card) -> usize
    ensures { Wrote out.old at (storable card (length out.old - at)) out.new result }
{
    typed(card);
    let len = out.len();
    if len < at {
        return at;
    }
    if !card_fits(card.caps, card.name_len, len - at) {
        return at;
    }
    put_row(out, at, card)
}

// The row of a card whose name is not too long, where there is room.
fn put_row(out: &mut [u8], at: usize, card: Card) -> usize
    requires { (card.name_len ≤ 48) × (at + length (image card) ≤ length out.old) }
    ensures { (result ≡ at + length (image card)) × Wrote out.old at (image card) out.new result }
{
    typed(card);
    let beacon_day_at = put::put_byte(out, at, card.caps);
    let beacon_key_at = put::put_be(out, beacon_day_at, 4, u64::from(card.beacon_day));
    let beacon_key = card.beacon_key;
    let name_len_at = put::put_array(out, beacon_key_at, &beacon_key);
    put_name(out, name_len_at, card)
}

// The card from the name's length on.
fn put_name(out: &mut [u8], at: usize, card: Card) -> usize
    requires { (card.name_len ≤ 48) × (at + length (name_part card) ≤ length out.old) }
    ensures { (result ≡ at + length (name_part card)) × Wrote out.old at (name_part card) out.new result }
{
    typed(card);
    let name_at = put::put_byte(out, at, card.name_len);
    let name = card.name;
    let key_at = put::put_run(out, name_at, &name, 0, usize::from(card.name_len));
    if card.caps / 2 % 2 == 1 {
        let key = card.static_ek;
        return put::put_run(out, key_at, &key, 0, rows::MLKEM768_ENCAPSULATION_KEY_LEN);
    }
    key_at
}
