//! What generic code knows of the numbers of arrays.
ghost use Rattle.std.specs.Prelude.{◌≡◌, ◌↔◌, ◌<ℤ◌, ◌+ℤ◌, IsTrue};

use col_arrays::Native;
use std::process::Abort;

/// Whether a number is below another.
fn is_less<T: Native>(a: T, b: T) -> bool
    ensures { IsTrue result ↔ (T.value a <ℤ T.value b) }
{
    a < b
}

/// The sum, wrapped to the type.
fn add_wrapped<T: Native>(a: T, b: T) -> T
    ensures { T.value result ≡ T.wrap (T.value a +ℤ T.value b) }
{
    a.wrapping_add(&b)
}

#[test]
fn compared_and_added(rt: HostRuntime) {
    assert!(rt; is_less(-1i64, 0));
    assert!(rt; !is_less(7u64, 7));
    assert!(rt; add_wrapped(i8::MAX, 1) == i8::MIN);
    assert!(rt; add_wrapped(u64::MAX, 2) == 1);
}

/// The ends of a type's range.
fn expect_ends<T: Native>(rt: &impl Abort, least: i128, greatest: i128) {
    assert!(rt; T::min_value().to_whole() == least);
    assert!(rt; T::max_value().to_whole() == greatest);
}

#[test]
fn ends_of_types(rt: HostRuntime) {
    expect_ends::<i8>(&rt, -128, 127);
    expect_ends::<i64>(&rt, -9223372036854775808, 9223372036854775807);
    expect_ends::<u16>(&rt, 0, 65535);
    expect_ends::<u64>(&rt, 0, 18446744073709551615);
}
