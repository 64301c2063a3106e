use crate::{Maker, Payment};
use std::process::Abort;

// The next payments of a load are these.
fn expect<R: Abort>(rt: &R, maker: &mut Maker, wanted: [(u32, u32, u64); 6]) {
    for (from, to, amount) in wanted {
        assert_eq!(rt; maker.next(), Payment { from, to, amount });
    }
}

// The values were computed apart, by a program of PCG's public definition.
#[test]
fn loads_of_three_seeds(rt: HostRuntime) {
    let two = [
        (1, 0, 286),
        (0, 1, 94),
        (0, 1, 372),
        (0, 1, 587),
        (0, 1, 531),
        (1, 0, 433),
    ];
    expect(&rt, &mut Maker::new(7, 2), two);
    let many = [
        (9, 12, 286),
        (4, 0, 94),
        (4, 14, 372),
        (8, 0, 587),
        (0, 14, 531),
        (5, 0, 433),
    ];
    expect(&rt, &mut Maker::new(7, 16), many);
    let last = [
        (1, 0, 485),
        (1, 0, 897),
        (2, 1, 995),
        (0, 2, 18),
        (1, 2, 31),
        (2, 1, 730),
    ];
    expect(&rt, &mut Maker::new(u64::MAX, 3), last);
}
