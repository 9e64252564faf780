//! Orders that are whole, and orders that are not.
use join_groups::order_is_whole;

/// How many morsels there are, an order, and whether each of them stands in it just once.
type Case = (usize, &'static [u32], bool);

const CASES: [Case; 9] = [
    (0, &[], true),
    (0, &[0], false),
    (1, &[], false),
    (1, &[0], true),
    (3, &[2, 0, 1], true),
    (3, &[0, 0, 2], false),
    (3, &[2, 0], false),
    (3, &[2, 0, 1, 3], false),
    (3, &[2, 0, 1, 0], false),
];

#[test]
fn whole_orders(rt: HostRuntime) {
    for (count, order, is_whole) in CASES {
        assert!(rt; order_is_whole(count, order) == is_whole);
    }
}
