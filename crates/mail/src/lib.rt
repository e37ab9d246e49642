// The calls that carry messages between parts: fetch, and hand over.
#![tactic(auto)]

ghost use Rattle.std.specs.Prelude.{◌≡◌, true, false, ◌+◌, ◌-◌, ◌*◌, ◌≤◌, ◌<◌, MatchOption, MatchResult, length, get_or};
ghost use Rattle.std.proofs.lemmas.List.Edits.{sets};
ghost use Rattle.base.specs.Limits.{most_cells};
ghost use Rattle.base.specs.Refuse.{answered};
ghost use Rattle.store.specs.Fields.{field, full, CELLS, PART, most_entries};
ghost use Rattle.store.specs.Header.{stageb, headerb};
ghost use Rattle.store.specs.Fetched.{fetched};
ghost use Rattle.mail.specs.Kind.{kind_number};
ghost use Rattle.mail.specs.Ranges.{partsb, countsb};
ghost use Rattle.store.specs.Message.{two, kind_of, body_of, message_of};
ghost use Rattle.store.specs.Fetch.{entry_count, bit_from, next_to_give, given, passed_by, spot_at, fetch_answer, fetch_bytes, fetch_after};
ghost use Rattle.store.specs.Hand.{number_at, length_of, shapeb, routeb, ghost_markb};
ghost use Rattle.store.specs.Hand.{edge_countb, cell_totalb, contentb, wellb, hand_answer};
ghost use Rattle.store.specs.Hand.{Ranges, absorbed, counted, hand_after};

use base::{MOST_CELLS, MOST_LEVELS, MOST_SLOTS, Refusal, TOO_MANY};
use store::{
    BIT, CELLS, CELLS_MOST, COARSE, COARSE_MOST, CODE, CORNERS, CORNERS_MOST, COUNT_CODE, CURSOR,
    END_CODE, ENDED, ENTRIES, ENTRIES_MOST, FULL, GIVEN, HIGH, HOLDERS, LEVELS, LEVELS_MOST,
    MOST_ENTRIES, OWNER, PART, PARTS, PARTS_MOST, RECEIVERS, RED, RESULT, ROUND, STAGE, SUM, Spot,
    TAKEN, TOTAL, TOTALS_CODE, VALUE, WRITTEN,
};

// The most that a message may say of the top level.
const HIGH_MOST: u8 = MOST_LEVELS as u8;

// What a message tells: the mark of a cell, the count of a slot, the totals of a part, or the end of a round.
#[derive(Clone, Copy)]
enum Kind {
    Mark = 1,
    Count,
    Totals,
    End,
}

impl TryFrom<u8> for Kind {
    ghost use Rattle.std.specs.Prelude.{◌≡◌, MatchResult};
    ghost use Rattle.base.specs.declared.Refusal.TheVariants.{Message};
    ghost use Rattle.mail.specs.Kind.{kind_number, KindNone};

    type Error = Refusal;

    ghost try_from_gives = { λ n r. MatchResult r (λ k. kind_number k ≡ n) (λ e. (e ≡ Message) × KindNone n) };

    fn try_from(number: u8) -> Result<Kind, Refusal> {
        match number {
            1 => Ok(Kind::Mark),
            2 => Ok(Kind::Count),
            3 => Ok(Kind::Totals),
            4 => Ok(Kind::End),
            _ => Err(Refusal::Message),
        }
    }
}

impl Kind {
    // The kind of a written message.
    #[tactic(auto, unfolding(store::specs::Message::kind_of))]
    fn of_code(code: usize) -> Kind
        ensures { kind_number result ≡ kind_of code }
    {
        if code < COUNT_CODE {
            Kind::Mark
        } else if code < TOTALS_CODE {
            Kind::Count
        } else if code < END_CODE {
            Kind::Totals
        } else {
            Kind::End
        }
    }

    fn number(self) -> u8
        ensures { result ≡ kind_number self }
    {
        self as u8
    }

    // The length of a message.
    #[tactic(auto, unfolding(store::specs::Hand::length_of))]
    fn length(self) -> usize
        ensures { result ≡ length_of (kind_number self) }
    {
        match self {
            Kind::Mark | Kind::Totals => 8,
            Kind::Count => 9,
            Kind::End => 5,
        }
    }
}

// Whether the stage fits the round and the result.
#[tactic(auto, unfolding(store::specs::Header::stageb))]
fn stage_fits(store: &[u16]) -> bool
    requires { full ≤ length store.now }
    ensures { result ≡ stageb store.now }
{
    let round = store[ROUND] as usize;
    let last = 2 * store[LEVELS] as usize;
    let result = store[RESULT];
    match store[STAGE] {
        0 => round == 0 && result == 0,
        1 => round <= last && result == 0,
        2 => round == last + 1 && (result == 0 || result == 8 || result == 9),
        _ => false,
    }
}

// Whether the part is one of the parts, and those are not too many.
#[tactic(auto, unfolding(crate::specs::Ranges::partsb))]
fn parts_fit(store: &[u16]) -> bool
    requires { full ≤ length store.now }
    ensures { result ≡ partsb store.now }
{
    let (part, parts) = (store[PART], store[PARTS]);
    1 <= parts && parts <= PARTS_MOST && 1 <= part && part <= parts
}

// Whether the counts of the table that was split, and of the entries, lie in their ranges.
#[tactic(auto, unfolding(crate::specs::Ranges::countsb))]
fn counts_fit(store: &[u16]) -> bool
    requires { full ≤ length store.now }
    ensures { result ≡ countsb store.now }
{
    let (coarse, cells, levels) = (store[COARSE], store[CELLS], store[LEVELS]);
    4 <= store[CORNERS]
        && store[CORNERS] <= CORNERS_MOST
        && 1 <= coarse
        && coarse <= COARSE_MOST
        && coarse <= cells
        && cells <= CELLS_MOST
        && 1 <= levels
        && levels <= LEVELS_MOST
        && store[ENTRIES] <= ENTRIES_MOST
}

// Whether the stage, the part and the counts lie in their ranges.
#[tactic(auto, using(crate::specs::Ranges::header_parts))]
pub fn header_fits(store: &[u16]) -> bool
    requires { full ≤ length store.now }
    ensures { result ≡ headerb store.now }
{
    parts_fit(store) && counts_fit(store) && stage_fits(store)
}

// The first bit that is set from `from` on.
#[tactic(auto, using(store::proofs::Seek::bit_here, store::proofs::Seek::bit_on, store::proofs::Seek::bit_out))]
fn bit_from(mask: usize, from: usize) -> Option<usize>
    requires { from < 65536 }
    ensures { MatchOption result (bit_from (16 - from) mask from ≡ 16) (λ b. (b ≡ bit_from (16 - from) mask from) × (b < 16)) }
{
    for b in from..16 {
        if (mask >> b) % 2 == 1 {
            return Some(b);
        }
    }
    None
}

// How many messages are written.
#[tactic(auto, unfolding(store::specs::Fetch::entry_count))]
fn entries(store: &[u16]) -> usize
    requires { full ≤ length store.now }
    ensures { (result ≡ entry_count store.now) × (result ≤ most_entries) }
{
    MOST_ENTRIES.min(store[WRITTEN] as usize)
}

// The next message to give.
#[tactic(auto, using(store::proofs::Seek::seeking))]
fn next(store: &[u16]) -> Option<Spot>
    requires { full ≤ length store.now }
    ensures { MatchOption result (16 ≤ (next_to_give store.now).bit) (λ s. (s ≡ next_to_give store.now) × (s.bit < 16)) }
{
    let mut from = store[BIT] as usize;
    for entry in store[CURSOR] as usize..entries(store) {
        if let Some(bit) = bit_from(store[RECEIVERS + entry] as usize, from) {
            return Some(Spot { entry, bit });
        }
        from = 0;
    }
    None
}

// Stores a number's two bytes, least byte first.
fn put_two(out: &mut [u8], at: usize, x: usize)
    requires { (at + 2 ≤ length out.old) × (x < 65536) }
    ensures { out.new ≡ sets out.old at (two x) }
{
    let [low, high] = (x as u16).to_le_bytes();
    out[at] = low;
    out[at + 1] = high;
}

// Stores what stands behind a message's heading, and gives the message's length.
#[tactic(auto, unfolding(store::specs::Message::body_of))]
fn put_body(out: &mut [u8], code: usize, value: usize) -> usize
    requires { (9 ≤ length out.old) × (value < 65536) }
    ensures { (result ≡ 5 + length (body_of code value)) × (out.new ≡ sets out.old 5 (body_of code value)) }
{
    if code < COUNT_CODE {
        put_two(out, 5, code);
        out[7] = (value % 256) as u8;
        8
    } else if code < TOTALS_CODE {
        put_two(out, 5, code - COUNT_CODE);
        put_two(out, 7, value);
        9
    } else if code < END_CODE {
        put_two(out, 5, value);
        out[7] = (code - TOTALS_CODE) as u8;
        8
    } else {
        5
    }
}

// Stores a message, and gives its length.
#[tactic(auto, unfolding(store::specs::Message::message_of, store::specs::Message::head_of))]
fn put_message(out: &mut [u8], from: u8, to: u8, count: usize, code: usize, value: usize) -> usize
    requires { (9 ≤ length out.old) × (count < 65536) × (value < 65536) }
    ensures value { result ≡ length (message_of from to count code value) }
    ensures out_value { out.new ≡ sets out.old 0 (message_of from to count code value) }
{
    out[0] = Kind::of_code(code).number();
    out[1] = from;
    out[2] = to;
    put_two(out, 3, count);
    put_body(out, code, value)
}

// Stores the message that an entry is for a receiver, and moves the cursor behind it.
#[tactic(auto, unfolding(store::specs::Fetch::given, store::specs::Fetch::passed_by))]
fn give(store: &mut [u16], out: &mut [u8], spot: Spot) -> usize
    requires { (full ≤ length store.old) × (9 ≤ length out.old) × (field store.old PART < 256)
        × (spot.entry < most_entries) × (spot.bit < 16) }
    ensures value { (result ≡ length (given store.old spot)) × (out.new ≡ sets out.old 0 (given store.old spot)) }
    ensures store_value { store.new ≡ passed_by store.old spot }
{
    let Spot { entry, bit } = spot;
    let count = store[GIVEN + bit] as usize;
    let from = store[PART] as u8;
    let code = store[CODE + entry] as usize;
    let value = store[VALUE + entry] as usize;
    let size = put_message(out, from, (bit + 1) as u8, count, code, value);
    store[CURSOR] = entry as u16;
    store[BIT] = (bit + 1) as u16;
    store[GIVEN + bit] = store[GIVEN + bit].wrapping_add(1);
    size
}

// Stores the next message that the part has written, and gives its length, or `None` where all are given.
#[tactic(auto, using(store::proofs::Fetching::inside, store::proofs::Fetching::part_small),
// What it answers.
unfolding(store::specs::Fetch::fetch_answer, store::specs::Fetch::fetch_refusal, store::specs::Fetch::found_of,
// What bytes and store then hold.
store::specs::Fetch::givesb, store::specs::Fetch::fetch_bytes, store::specs::Fetch::fetch_after))]
pub fn fetch(store: &mut [u16], out: &mut [u8]) -> Result<Option<usize>, Refusal>
    ensures answer { fetched result ≡ fetch_answer store.old out.old }
    ensures out_value { out.new ≡ fetch_bytes store.old out.old }
    ensures store_value { store.new ≡ fetch_after store.old out.old }
{
    if store.len() < FULL || out.len() < 9 {
        return Err(Refusal::Lent);
    }
    if !header_fits(store) || store[STAGE] == 0 {
        return Err(Refusal::Store);
    }
    match next(store) {
        Some(spot) => Ok(Some(give(store, out, spot))),
        None => Ok(None),
    }
}

// The number of two bytes, least byte first.
fn number(bytes: &[u8], at: usize) -> usize
    requires { at + 2 ≤ length bytes.now }
    ensures { (result ≡ number_at bytes.now at) × (result < 65536) }
{
    u16::from_le_bytes([bytes[at], bytes[at + 1]]) as usize
}

// The kind of a message, where it has the length of that kind.
#[tactic(auto, unfolding(store::specs::Hand::shapeb, store::specs::Hand::length_of))]
fn kind_of(bytes: &[u8]) -> Result<Kind, Refusal>
    ensures { MatchResult result (λ k. (shapeb bytes.now ≡ true) × (kind_number k ≡ get_or bytes.now 0 0))
        (λ e. (e ≡ Refusal.Message) × (shapeb bytes.now ≡ false)) }
{
    if bytes.len() == 0 {
        return Err(Refusal::Message);
    }
    let kind = Kind::try_from(bytes[0])?;
    if bytes.len() == kind.length() {
        Ok(kind)
    } else {
        Err(Refusal::Message)
    }
}

// Whether the message is from another part to this one.
#[tactic(auto, unfolding(store::specs::Hand::routeb))]
fn route_fits(store: &[u16], bytes: &[u8]) -> bool
    requires { (full ≤ length store.now) × (5 ≤ length bytes.now) }
    ensures { result ≡ routeb store.now bytes.now }
{
    let from = bytes[1] as u16;
    let to = bytes[2] as u16;
    1 <= from && from <= store[PARTS] && from != store[PART] && to == store[PART]
}

// Whether the part holds the cell, and the mark is 0 or 1.
#[tactic(auto, unfolding(store::specs::Hand::ghost_markb))]
fn mark_fits(store: &[u16], bytes: &[u8]) -> bool
    requires { (full ≤ length store.now) × (8 ≤ length bytes.now) × (field store.now CELLS ≤ most_cells) }
    ensures { result ≡ ghost_markb store.now bytes.now }
{
    let cell = number(bytes, 5);
    cell < store[CELLS] as usize && store[OWNER + cell] != 0 && bytes[7] <= 1
}

// Whether the part holds the edge, and the count is 1 to 4,096.
#[tactic(auto, unfolding(store::specs::Hand::edge_countb))]
fn count_fits(store: &[u16], bytes: &[u8]) -> bool
    requires { (full ≤ length store.now) × (9 ≤ length bytes.now) }
    ensures { result ≡ edge_countb store.now bytes.now }
{
    let slot = number(bytes, 5);
    let count = number(bytes, 7);
    slot < MOST_SLOTS && store[HOLDERS + slot] != 0 && 1 <= count && count <= MOST_CELLS
}

// Whether the totals lie in their ranges.
#[tactic(auto, unfolding(store::specs::Hand::cell_totalb))]
fn totals_fit(bytes: &[u8]) -> bool
    requires { 8 ≤ length bytes.now }
    ensures { result ≡ cell_totalb bytes.now }
{
    number(bytes, 5) <= TOO_MANY && bytes[7] <= HIGH_MOST
}

// Whether what stands behind a heading fits.
#[tactic(auto, using(store::specs::Checks::shapes), unfolding(store::specs::Hand::contentb))]
fn content_fits(store: &[u16], bytes: &[u8], kind: Kind) -> bool
    requires { (full ≤ length store.now) × (shapeb bytes.now ≡ true) × (kind_number kind ≡ get_or bytes.now 0 0)
        × (field store.now CELLS ≤ most_cells) }
    ensures { result ≡ contentb store.now bytes.now }
{
    match kind {
        Kind::Mark => mark_fits(store, bytes),
        Kind::Count => count_fits(store, bytes),
        Kind::Totals => totals_fit(bytes),
        Kind::End => true,
    }
}

// The kind of a message, where it is one for this store.
#[tactic(auto, using(store::specs::Checks::shape_least), unfolding(store::specs::Hand::wellb))]
fn examine(store: &[u16], bytes: &[u8]) -> Result<Kind, Refusal>
    requires { (full ≤ length store.now) × (field store.now CELLS ≤ most_cells) }
    ensures { MatchResult result (λ k. (wellb store.now bytes.now ≡ true) × (kind_number k ≡ get_or bytes.now 0 0))
        (λ e. (e ≡ Refusal.Message) × (wellb store.now bytes.now ≡ false)) }
{
    let kind = kind_of(bytes)?;
    if route_fits(store, bytes) && content_fits(store, bytes, kind) {
        Ok(kind)
    } else {
        Err(Refusal::Message)
    }
}

// Takes what a message says into the store.
#[tactic(auto, unfolding(store::specs::Hand::absorbed))]
fn absorb(store: &mut [u16], bytes: &[u8], kind: Kind)
    requires { (full ≤ length store.old) × Ranges bytes.now × (kind_number kind ≡ get_or bytes.now 0 0) }
    ensures { store.new ≡ absorbed store.old bytes.now }
{
    match kind {
        Kind::Mark => {
            if bytes[7] == 1 {
                store[RED + number(bytes, 5)] = 1;
            }
        }
        Kind::Count => {
            let slot = number(bytes, 5);
            let count = number(bytes, 7) as u16;
            store[SUM + slot] = store[SUM + slot].wrapping_add(count);
        }
        Kind::Totals => {
            let total = store[TOTAL] as usize + number(bytes, 5);
            store[TOTAL] = total.min(TOO_MANY) as u16;
            store[HIGH] = store[HIGH].max(bytes[7] as u16);
        }
        Kind::End => {
            let from = bytes[1] as usize;
            store[ENDED + from] = store[ENDED + from].wrapping_add(1);
        }
    }
}

// Counts a message and takes it.
#[tactic(auto, unfolding(store::specs::Hand::counted))]
fn take(store: &mut [u16], bytes: &[u8], kind: Kind)
    requires { (full ≤ length store.old) × Ranges bytes.now × (kind_number kind ≡ get_or bytes.now 0 0) }
    ensures { store.new ≡ absorbed (counted store.old bytes.now) bytes.now }
{
    let from = bytes[1] as usize;
    store[TAKEN + from] = store[TAKEN + from].wrapping_add(1);
    absorb(store, bytes, kind);
}

// Hands a message over.
#[tactic(auto, using(store::specs::Handing::cells_few, store::specs::Handing::ranges_of),
// What it answers, and what the store then holds.
unfolding(store::specs::Hand::hand_answer, base::specs::Refuse::refuse, store::specs::Hand::hand_after, store::specs::Hand::taken_in))]
pub fn hand(store: &mut [u16], bytes: &[u8]) -> Result<(), Refusal>
    ensures answer { answered result ≡ hand_answer store.old bytes.now }
    ensures store_value { store.new ≡ hand_after store.old bytes.now }
{
    if store.len() < FULL {
        return Err(Refusal::Lent);
    }
    if !header_fits(store) || store[STAGE] == 0 {
        return Err(Refusal::Store);
    }
    let kind = examine(store, bytes)?;
    let from = bytes[1] as usize;
    let count = number(bytes, 3);
    let taken = store[TAKEN + from] as usize;
    if count < taken {
        return Err(Refusal::Taken);
    }
    if count > taken || store[STAGE] != 1 || store[ENDED + from] > store[ROUND] {
        return Err(Refusal::Early);
    }
    take(store, bytes, kind);
    Ok(())
}
