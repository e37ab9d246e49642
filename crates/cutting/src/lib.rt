// The children of one cell by the pattern of its split edges (docs/METHOD.md, section 2).
#![tactic(auto)]

ghost use Rattle.std.specs.Prelude.{◌≡◌, ◌++◌, ◌+◌, ◌-◌, ◌≤◌, ◌<◌, IfOk, length, get_or, take, drop, replicate};
ghost use Rattle.base.specs.Refuse.{answered};
ghost use Rattle.cutting.specs.Answer.{digits_below, digit_table, start_table, cut_of};

use base::Refusal;

// The families of the patterns 0 to 63, a line each, four digits a child.
const DIGITS: [u8; 1172] = *b"\
    0479\
    01791479\
    02492479\
    012912492479\
    03473479\
    013713473479\
    023423473479\
    0123123423473479\
    04590579\
    015905791459\
    025904592579\
    0129125914592579\
    0345035734593579\
    01350357134534593579\
    02350345235734593579\
    012312351345235734593579\
    04670679\
    016706791467\
    0246026924672679\
    01260269124624672679\
    036704673679\
    0137136714673679\
    02360246236724673679\
    012312361246236724673679\
    045605670679\
    0156056706791456\
    02560269045625672679\
    012602691256145625672679\
    03560357045635673679\
    013503571356145635673679\
    023602560456236725673679\
    0123123612561456236725673679\
    04780489\
    0178018914781489\
    024804892478\
    01280189124814892478\
    034804783489\
    01380178134814783489\
    0234234824783489\
    012312381248134824783489\
    045804890578\
    01580189057814581489\
    0258045804892578\
    012801891258145814892578\
    03450358057834583489\
    013801580578134814583489\
    023503452358257834583489\
    0123123812581348145825783489\
    046804780689\
    01680178068914681478\
    02460268068924682478\
    012602680689124624682478\
    0368046804783689\
    013801781368146814783689\
    023602462368246824783689\
    0123123612462368246824783689\
    0456056805780689\
    015801680578068914561568\
    025602680456068925682578\
    0126026806891256145625682578\
    035603580456057835683689\
    0138015805781368145615683689\
    0236025604562368256825783689\
    01231236125614562368256825783689";

// The family of a red cell by itself: red cells are the most frequent, and to read a constant is to copy all of it.
const RED: [u8; 32] = *b"\
    \x00\x01\x02\x03\x01\x02\x03\x06\x01\x02\x05\x06\x01\x04\x05\x06\
    \x02\x03\x06\x08\x02\x05\x06\x08\x02\x05\x07\x08\x03\x06\x08\x09";

// Where each family starts, and the end of the last.
const STARTS: [u16; 65] = [
    0, 4, 12, 20, 32, 40, 52, 64, 80, 88, 100, 112, 128, 144, 164, 184, 208, 216, 228, 244, 264,
    276, 292, 312, 336, 348, 364, 384, 408, 428, 452, 476, 504, 512, 528, 540, 560, 572, 592, 608,
    632, 644, 664, 680, 704, 724, 748, 772, 800, 812, 832, 852, 876, 892, 916, 940, 968, 984, 1008,
    1032, 1060, 1084, 1112, 1140, 1172,
];

// How many children each family has.
const COUNTS: [u8; 64] = *b"\
    12232334233445562345345634565667\
    24353546354656673556466746676778";

// A family by value: how many children it has, and 32 digits, four a child, zeros behind them.
#[derive(Clone, Copy)]
pub struct Family {
    pub count: u8,
    pub digits: [u8; 32],
}

// The digits of all families, one behind the other.
pub fn digit_table() -> [u8; 1172]
    ensures { result ≡ digit_table }
{
    DIGITS
}

// Where each family starts in the table of digits, and the end of the last.
pub fn start_table() -> [u16; 65]
    ensures { result ≡ start_table }
{
    STARTS
}

// The families of all patterns. To read a constant is to copy all of it: who cuts many cells makes this once.
#[derive(Clone, Copy)]
pub struct Families {
    digits: [u8; 1172],
    starts: [u16; 65],
    pub ghost digits_value: { digits ≡ digit_table },
    pub ghost starts_value: { starts ≡ start_table },
}

impl Families {
    pub fn new() -> Self {
        Families {
            digits: digit_table(),
            starts: start_table(),
        }
    }

    // The digit at a place: an ASCII digit is 48 and its value.
    fn digit(&self, at: usize) -> u8
        requires { at < 1172 }
        ensures { result ≡ get_or (digits_below 64) at 0 }
    {
        self.digits[at] % 16
    }

    // Where the family of a pattern starts.
    fn start(&self, pattern: usize) -> usize
        requires { pattern < 65 }
        ensures { result ≡ length (digits_below pattern) }
    {
        self.starts[pattern] as usize
    }

    // The digits from a place on, with zeros behind them.
    fn copied(&self, from: usize, count: usize) -> [u8; 32]
        requires { (from + count ≤ 1172) × (count ≤ 32) }
        ensures { result ≡ take count (drop from (digits_below 64)) ++ replicate (32 - count) 0 }
    {
        let mut copy = [0u8; 32];
        for i in 0..count {
            copy[i] = self.digit(from + i);
        }
        copy
    }

    // The family of a pattern; 6 where the pattern is above 63.
    pub fn cut(&self, pattern: u8) -> Result<Family, Refusal>
        ensures answer { answered result ≡ (cut_of pattern).answer }
        ensures family { IfOk result (λ f. (f.count ≡ (cut_of pattern).count) × (f.digits ≡ (cut_of pattern).digits)) }
    {
        if pattern > 63 {
            return Err(Refusal::Unsound);
        }
        if pattern == 63 {
            return Ok(Family {
                count: 8,
                digits: RED,
            });
        }
        let row = pattern as usize;
        let from = self.start(row);
        let count = self.start(row + 1) - from;
        Ok(Family {
            count: (count / 4) as u8,
            digits: self.copied(from, count),
        })
    }
}

// How many children the family of a pattern has; 0 where the pattern is above 63.
pub fn count(pattern: u8) -> u8
    ensures { result ≡ (cut_of pattern).count }
{
    if pattern >= 64 {
        return 0;
    }
    COUNTS[pattern as usize] % 16
}

// The family of a pattern by itself.
pub fn cut(pattern: u8) -> Result<Family, Refusal>
    ensures answer { answered result ≡ (cut_of pattern).answer }
    ensures family { IfOk result (λ f. (f.count ≡ (cut_of pattern).count) × (f.digits ≡ (cut_of pattern).digits)) }
{
    Families::new().cut(pattern)
}
