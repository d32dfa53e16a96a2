//! On which side of each segment a point lies, by lanes and by plain loops.

use crate::lengths::LENGTHS;
use crate::rects::pt;
use geom::{COORDINATE_LIMIT, NoMemory, Pt, Seg, Source};
use lane_tests::{Half, Segs, sides};
use std::alloc::Global;

/// The sign of the determinant of b - a and z - a, of twice z - a.
fn plain_side(a: Pt, b: Pt, z: Half) -> i8 {
    let run = i64::from(b.x).wrapping_sub(i64::from(a.x));
    let rise = i64::from(b.y).wrapping_sub(i64::from(a.y));
    let along = i64::from(z.x2).wrapping_sub(i64::from(a.x).wrapping_mul(2));
    let up = i64::from(z.y2).wrapping_sub(i64::from(a.y).wrapping_mul(2));
    run.wrapping_mul(up)
        .wrapping_sub(rise.wrapping_mul(along))
        .signum() as i8
}

/// Adds a segment whose ends differ and are in the coordinate limit.
fn push_seg(segs: &mut Segs<Global>, a: Pt, b: Pt) -> Result<(), NoMemory> {
    if let Some(seg) = Seg::new(a, b, Source::A) {
        if seg.a.is_in_limit() && seg.b.is_in_limit() {
            segs.push(seg)?;
        }
    }
    Ok(())
}

/// Segments with one at a place and another at all others.
fn segs_with_one(
    alloc: Global,
    length: u32,
    place: u32,
    one: (Pt, Pt),
    other: (Pt, Pt),
) -> Result<Segs<Global>, NoMemory> {
    let mut segs = Segs::new(alloc);
    for at in 0..length {
        let (a, b) = if at == place { one } else { other };
        push_seg(&mut segs, a, b)?;
    }
    Ok(segs)
}

/// Whether one sign is at a place, and another at all others.
fn are_but_one(signs: &[i8], place: u32, one: i8, other: i8) -> bool {
    let mut at = 0u32;
    for sign in signs {
        if *sign != (if at == place { one } else { other }) {
            return false;
        }
        at = at.wrapping_add(1);
    }
    true
}

/// Whether the side of each of `length` segments, which are the same but for one, is that of the plain loop.
fn sides_agree(
    alloc: Global,
    length: u32,
    place: u32,
    one: (Pt, Pt),
    other: (Pt, Pt),
    z: Half,
) -> Result<bool, NoMemory> {
    if !z.is_near() {
        return Ok(false);
    }
    let segs = segs_with_one(alloc, length, place, one, other)?;
    let mut signs = vec![in alloc; 0i8; segs.len()]?;
    sides(&segs, z, &mut signs);
    let (unlike, like) = (plain_side(one.0, one.1, z), plain_side(other.0, other.1, z));
    Ok(segs.len() == length as usize && are_but_one(&signs, place, unlike, like))
}

#[test]
fn sides_of_the_table(rt: HostRuntime) {
    let z = Half { x2: 2, y2: 1 };
    let table = [
        (pt(0, 0), pt(2, 1), 0i8),
        (pt(0, 0), pt(2, 0), 1),
        (pt(2, 0), pt(0, 0), -1),
        (pt(0, 1), pt(2, 1), -1),
    ];
    for (a, b, sign) in table {
        let agree = sides_agree(rt.alloc(), 1, 0, (a, b), (b, a), z) == Ok(true);
        assert!(rt; agree && plain_side(a, b, z) == sign);
    }
}

#[test]
fn sides_at_every_length(rt: HostRuntime) {
    let limit = COORDINATE_LIMIT;
    let one = (pt(-limit, -limit), pt(limit, limit - 1));
    let other = (pt(limit, limit), pt(-limit, -limit));
    let most = 2 * limit + 1;
    for (x2, y2) in [(most, most), (-most, most), (0, 0), (0, -1)] {
        for length in LENGTHS {
            for place in 0..length.max(1) {
                let agree = sides_agree(rt.alloc(), length, place, one, other, Half { x2, y2 });
                assert!(rt; agree == Ok(true));
            }
        }
    }
}
