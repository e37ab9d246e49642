// Prints the 64 families, a line each: the pattern, then each child's four digits.
#![tactic(auto)]

use cutting::{Families, Family};
use std::io;

// A space and a child's four digits, written at once: formatting each by itself takes four times as long.
fn print_child(rt: &impl Print, child: &[u8; 4]) -> io::Result<()> {
    let [a, b, c, d] = *child;
    rt.write_all(&[
        b' ',
        b'0' + a % 10,
        b'0' + b % 10,
        b'0' + c % 10,
        b'0' + d % 10,
    ])
}

fn print_children(rt: &impl Print, family: &Family) -> io::Result<()> {
    for child in family
        .digits
        .as_chunks::<4>()
        .0
        .iter()
        .take(usize::from(family.count))
    {
        print_child(rt, child)?;
    }
    Ok(())
}

fn main(rt: HostRuntime) -> io::Result<()> {
    let families = Families::new();
    for pattern in 0u8..64 {
        let family = families.cut(pattern).unwrap();
        print!(rt; "{pattern}")?;
        print_children(&rt, &family)?;
        println!(rt; "")?;
    }
    Ok(())
}
