//! The set operations.

use geom::Op;

#[test]
fn tables(rt: HostRuntime) {
    let table = [
        (false, false, [false, false, false, false]),
        (true, false, [true, false, true, true]),
        (false, true, [true, false, false, true]),
        (true, true, [true, true, false, false]),
    ];
    for (a, b, row) in table {
        assert_eq!(rt; Op::Union.holds(a, b), row[0]);
        assert_eq!(rt; Op::Intersection.holds(a, b), row[1]);
        assert_eq!(rt; Op::Difference.holds(a, b), row[2]);
        assert_eq!(rt; Op::SymDifference.holds(a, b), row[3]);
    }
}
