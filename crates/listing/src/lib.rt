// Writes the lines that meshlist prints into a lent table of bytes. Each function answers the place behind what it writes.
#![tactic(auto)]

ghost use Rattle.std.specs.Prelude.{◌≡◌, [], ◌∷◌, ◌++◌, ◌+◌, ◌*◌, ◌%◌, ◌≤◌, ◌<◌, length, drop};
ghost use Rattle.base.specs.Limits.{full_counts};
ghost use Rattle.listing.specs.Lines.{digits, decimal, fields, lines, listing, refusal};
ghost use Rattle.listing.specs.Put.{Put};

fn put_byte(out: &mut [u8], at: usize, b: u8) -> usize
    requires { at < length out.old }
    ensures { Put out.old at (b ∷ []) out.new result }
{
    out[at] = b;
    at + 1
}

fn put_text(out: &mut [u8], at: usize, text: &[u8]) -> usize
    requires { at + length text.now ≤ length out.old }
    ensures { Put out.old at text.now out.new result }
{
    let end = at + text.len();
    out[at..end].copy_from_slice(text);
    end
}

// The last digit.
fn put_digit(out: &mut [u8], at: usize, n: u16) -> usize
    requires { at < length out.old }
    ensures { Put out.old at ((48 + n % 10) ∷ []) out.new result }
{
    out[at] = b'0' + (n % 10) as u8;
    at + 1
}

// At most more + 1 digits.
fn put_digits(out: &mut [u8], at: usize, n: u16, more: usize) -> usize
    requires { at + more + 1 ≤ length out.old }
    ensures { Put out.old at (digits more n) out.new result }
{
    if more == 0 || n < 10 {
        return put_digit(out, at, n);
    }
    let p = put_digits(out, at, n / 10, more - 1);
    put_digit(out, p, n)
}

fn put_number(out: &mut [u8], at: usize, n: u16) -> usize
    requires { at + 5 ≤ length out.old }
    ensures { Put out.old at (decimal n) out.new result }
{
    put_digits(out, at, n, 4)
}

// A number and the byte behind it.
fn put_field(out: &mut [u8], at: usize, n: u16, end: u8) -> usize
    requires { at + 6 ≤ length out.old }
    ensures { Put out.old at (decimal n ++ (end ∷ [])) out.new result }
{
    let p = put_number(out, at, n);
    put_byte(out, p, end)
}

fn put_line(out: &mut [u8], at: usize, level: u16, counts: &[u16; 4]) -> usize
    requires { at + 30 ≤ length out.old }
    ensures { Put out.old at (fields (level ∷ counts.now)) out.new result }
{
    let [cells, red, green, leaf] = *counts;
    let p = put_field(out, at, level, b' ');
    let q = put_field(out, p, cells, b' ');
    let s = put_field(out, q, red, b' ');
    let t = put_field(out, s, green, b' ');
    put_field(out, t, leaf, b'\n')
}

// A line for each level.
fn put_lines(out: &mut [u8], at: usize, counts: &[u16]) -> usize
    requires { (length counts.now ≤ full_counts) × (at + 8 * length counts.now ≤ length out.old) }
    ensures { Put out.old at (lines 0 counts.now) out.new result }
{
    let (levels, _) = counts.as_chunks::<4>();
    let mut p = at;
    for (level, counts) in levels.iter().enumerate() {
        p = put_line(out, p, level as u16, counts);
    }
    p
}

// The listing of the counts, four a level.
pub fn write_listing(counts: &[u16], out: &mut [u8]) -> usize
    requires counts_len_bound { length counts.now ≤ full_counts }
    requires in_bounds { 512 ≤ length out.old }
    ensures out_value { out.new ≡ listing counts.now ++ drop (length (listing counts.now)) out.old }
    ensures value { result ≡ length (listing counts.now) }
{
    let p = put_text(out, 0, b"level cells red green leaf\n");
    put_lines(out, p, counts)
}

// The line of a refused archive.
pub fn write_refusal(k: u8, out: &mut [u8]) -> usize
    requires { 14 ≤ length out.old }
    ensures out_value { out.new ≡ refusal k ++ drop (length (refusal k)) out.old }
    ensures value { result ≡ length (refusal k) }
{
    let p = put_text(out, 0, b"refused ");
    put_field(out, p, u16::from(k), b'\n')
}
