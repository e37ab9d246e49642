// Printing answers: the refusal's number, or 0 and what was answered; zeros stand for what a refusal does not give. No contract can say
// what is written, so these functions are the program's own.
use ancestors::Ancestor;
use base::Refusal;
use position::Point;
use std::io;

pub fn ancestor(rt: &impl Print, answer: Result<Ancestor, Refusal>) -> io::Result<()> {
    match answer {
        Ok(ancestor) => print!(rt; " 0 {} {}", ancestor.coarse, ancestor.level),
        Err(refusal) => print!(rt; " {} 0 0", refusal.number()),
    }
}

pub fn levels(rt: &impl Print, answer: Result<usize, Refusal>) -> io::Result<()> {
    match answer {
        Ok(levels) => print!(rt; " 0 {levels}"),
        Err(refusal) => print!(rt; " {} 0", refusal.number()),
    }
}

// A float's 64 bits.
fn float(rt: &impl Print, x: f64) -> io::Result<()> {
    if x == x {
        let bits = f64::to_bits(x);
        print!(rt; " {bits:016x}")
    } else {
        print!(rt; " nan")
    }
}

pub fn point(rt: &impl Print, answer: Result<Point, Refusal>) -> io::Result<()> {
    match answer {
        Ok(point) => {
            print!(rt; " 0")?;
            float(rt, point.x)?;
            float(rt, point.y)?;
            float(rt, point.z)
        },
        Err(refusal) => print!(rt; " {} 0 0 0", refusal.number()),
    }
}
