// Reading numbers and lists from standard input. Every number of more than one byte has its least byte first.
ghost use Rattle.std.specs.Prelude.{◌≡◌, ◌++◌, ◌+◌, ◌*◌, ◌<◌, ◌≤◌, ℕ, List, length, drop};
ghost use Rattle.std.proofs.Common.{rules};
ghost use Rattle.trial.specs.Input.{word_at, long_at, signed_at, FrontRead, ListRead, MeshRead};
ghost use Rattle.trial.specs.Pattern.{tab_of};

use std::io::Read;

// The k-th number of two bytes.
fn word(bytes: &[u8], k: usize) -> u16
    requires { 2 * k + 1 < length bytes.now }
    ensures { result ≡ word_at bytes.now k }
{
    u16::from_le_bytes([bytes[2 * k], bytes[2 * k + 1]])
}

// The same as a length.
pub fn number(bytes: &[u8], k: usize) -> usize
    requires { 2 * k + 1 < length bytes.now }
    ensures { (result ≡ word_at bytes.now k) × (result < 65536) }
{
    usize::from(word(bytes, k))
}

// The k-th number of four bytes, as a length.
pub fn long(bytes: &[u8], k: usize) -> usize
    requires { 4 * k + 3 < length bytes.now }
    ensures { result ≡ long_at bytes.now k }
{
    let at = 4 * k;
    u32::from_le_bytes([bytes[at], bytes[at + 1], bytes[at + 2], bytes[at + 3]]) as usize
}

// Reads until the list is full, the input ends or a read fails, and answers how many bytes it put at the front of the list.
fn read_full(reader: &mut impl Read, list: &mut [u8]) -> usize
    ensures { result ≤ length list.new }
{
    let mut done = 0;
    while done < list.len() {
        match reader.read(&mut list[done..]) {
            Ok(0) => return done,
            Ok(n) => done += n,
            Err(_) => return done,
        }
    }
    done
}

// Fills the list with bytes. False where the input ends; a read that fails ends it. Only its length can be promised: what the input holds
// is free.
pub fn read_all(rt: &impl Input, list: &mut [u8]) -> bool
    ensures { length list.new ≡ length list.old }
{
    read_full(&mut rt.reader(), list) == list.len()
}

// Fills the first n places of a list with bytes. False where the list is shorter or the input ends.
pub fn read_bytes(rt: &impl Input, list: &mut [u8], n: usize) -> bool
    ensures { FrontRead result n list.old list.new }
{
    n <= list.len() && read_all(rt, &mut list[0..n])
}

// A number of a list, of SIZE bytes.
pub trait Coded: Copy {
    ghost SIZE: { ℕ };

    ghost coded: { List ℕ → ℕ → Self };

    const SIZE: usize;

    // The k-th number.
    fn decode(bytes: &[u8], k: usize) -> Self
        requires { SIZE * k + SIZE ≤ length bytes.now }
        ensures { result ≡ coded bytes.now k };

    ghost sized: { (0 < SIZE) × (SIZE ≤ 8) };
}

// A corner's or a cell's number.
impl Coded for u16 {
    ghost SIZE = { 2 };

    ghost coded = { word_at };

    ghost sized = { Prim.search rules };

    const SIZE: usize = 2;

    fn decode(bytes: &[u8], k: usize) -> u16 {
        word(bytes, k)
    }
}

// A coordinate.
impl Coded for i32 {
    ghost SIZE = { 4 };

    ghost coded = { signed_at };

    ghost sized = { Prim.search rules };

    const SIZE: usize = 4;

    fn decode(bytes: &[u8], k: usize) -> i32 {
        let at = 4 * k;
        i32::from_le_bytes([bytes[at], bytes[at + 1], bytes[at + 2], bytes[at + 3]])
    }
}

// Puts the first n numbers of the bytes into the first places of a list.
fn decode_list<T: Coded>(bytes: &[u8], list: &mut [T], n: usize)
    requires { (T.SIZE * n ≤ length bytes.now) × (n ≤ length list.old) }
    ensures { list.new ≡ tab_of (T.coded bytes.now) n ++ drop n list.old }
{
    for i in 0..n {
        list[i] = T::decode(bytes, i);
    }
}

// Reads n numbers into the first places of a list, by way of room. False where one of them is too short or the input ends.
pub fn read_list<T: Coded>(rt: &impl Input, room: &mut [u8], list: &mut [T], n: usize) -> bool
    ensures { FrontRead result (T.SIZE * n) room.old room.new × ListRead result n (T.coded room.new) list.old list.new }
{
    if n > list.len() || n > room.len() / T::SIZE || !read_bytes(rt, room, T::SIZE * n) {
        return false;
    }
    decode_list(room, list, n);
    true
}

// Reads the lists of a mesh, one behind the other, by way of the same room.
pub fn read_mesh(
    rt: &impl Input,
    room: &mut [u8],
    positions: &mut [i32],
    cells: &mut [u16],
    position_count: usize,
    cell_count: usize,
) -> bool
    ensures { MeshRead result position_count cell_count room.old room.new positions.old positions.new cells.old cells.new }
{
    read_list(rt, room, positions, position_count) && read_list(rt, room, cells, cell_count)
}
