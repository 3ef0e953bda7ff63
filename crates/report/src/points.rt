// Rows of points.
ghost use Rattle.std.specs.Prelude.{◌≡◌, ◌+◌, ◌≤◌, ◌<◌, ◌^◌, min, length};
ghost use Rattle.basis.specs.Internal.{Stored};
ghost use Rattle.report.specs.Lines.{point_bytes, points_bytes};

use crate::{digits, store};

// How many bytes a point has.
fn point_length(point: u32) -> usize
    ensures value { result ≡ length (point_bytes point) }
    ensures upper_bound { result ≤ 66 }
{
    digits::digits_length(point as usize, 16, 4) + 2
}

// How many bytes a row of points has, or one more than the limit where it has more than that.
pub(crate) fn points_length(points: &[u32], limit: usize) -> usize
    requires { limit < 2 ^ 63 }
    ensures { result ≡ min (limit + 1) (length (points_bytes points.now)) }
{
    let [first, others @ ..] = points else {
        return 0;
    };
    let mut n = point_length(*first);
    for &point in others {
        if limit < n {
            return limit + 1;
        }
        n += 1 + point_length(point);
    }
    n.min(limit + 1)
}

// Stores a point at an index, and answers the index after it.
fn put_point(point: u32, out: &mut [u8], at: usize) -> usize
    requires { at + length (point_bytes point) ≤ length out.old }
    ensures { Stored out.old at (point_bytes point) out.new result }
{
    let next = store::put_bytes(b"U+", out, at);
    digits::put_digits(point as usize, 16, 4, out, next)
}

// Stores a row of points at an index, and answers the index after it.
pub(crate) fn put_points(points: &[u32], out: &mut [u8], at: usize) -> usize
    requires { at + length (points_bytes points.now) ≤ length out.old }
    ensures { Stored out.old at (points_bytes points.now) out.new result }
{
    let [first, others @ ..] = points else {
        return at;
    };
    let mut next = put_point(*first, out, at);
    for &point in others {
        out[next] = 32;
        next = put_point(point, out, next + 1);
    }
    next
}
