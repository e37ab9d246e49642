// The position of a corner as three f64 numbers (docs/METHOD.md, section 8).
#![tactic(auto)]

ghost use Rattle.std.specs.Prelude.{◌≡◌, ◌<◌, IfOk, length, get_or, pos};
ghost use Rattle.base.specs.Refuse.{answered};
ghost use Rattle.position.specs.Position.{coordinate_of, corner_answer, point_of, position_of, told};

use base::{FULL_SUMS, MOST_CORNERS, Refusal};

#[derive(Clone, Copy)]
pub struct Point {
    pub x: f64,
    pub y: f64,
    pub z: f64,
}

// The weighted sum at a place of the table, over 1,024.
fn coordinate(sums: &[i32], at: usize) -> f64
    requires { at < length sums.now }
    ensures { result ≡ coordinate_of (get_or sums.now at (pos 0)) }
{
    f64::from(sums[at]) / 1024.0
}

// The position of a corner. A mesh of so many corners has three weighted sums for each, in a table of 49,152.
// 15 where the table is shorter, 7 where there is no such corner.
pub fn position_of(sums: &[i32], corners: usize, corner: usize) -> Result<Point, Refusal>
    ensures answer { answered result ≡ corner_answer sums.now corners corner }
    ensures point { IfOk result (λ p. p ≡ point_of sums.now corner) }
    ensures whole { told result ≡ position_of sums.now corners corner }
{
    if sums.len() < FULL_SUMS {
        return Err(Refusal::Lent);
    }
    if corner >= corners || corner >= MOST_CORNERS {
        return Err(Refusal::Marks);
    }
    let at = 3 * corner;
    Ok(Point {
        x: coordinate(sums, at),
        y: coordinate(sums, at + 1),
        z: coordinate(sums, at + 2),
    })
}
