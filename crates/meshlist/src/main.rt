// Reads an archive from standard input and prints its listing.
#![tactic(auto)]

ghost use Rattle.std.specs.Prelude.{◌≤◌, length};

use std::io;
use std::io::Read;

// Reads until the bytes are full, the input ends or a read fails, and answers how many it put at their front. The test programs read so
// too, by a function of `trial`: this program stands on no test crate, which is plainer.
fn read_full(reader: &mut impl Read, bytes: &mut [u8]) -> usize
    ensures { result ≤ length bytes.new }
{
    let mut done = 0;
    while done < bytes.len() {
        match reader.read(&mut bytes[done..]) {
            Ok(0) => return done,
            Ok(n) => done += n,
            Err(_) => return done,
        }
    }
    done
}

// One byte more than an archive may have is read, so that a longer input is refused: `list_read` takes a buffer of no other size. What
// was read before a failure is listed.
fn main(rt: HostRuntime) -> io::Result<()> {
    let mut bytes = [0u8; 65537];
    let mut out = [0u8; 512];
    let n = read_full(&mut rt.reader(), &mut bytes);
    let m = jobs::list_read(&bytes, n, &mut out);
    rt.write_all(&out[..m])
}
