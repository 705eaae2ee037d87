//! Values of which one may be unknown.

use ds_base::Value;

// Whether two values, in either order, have these as their `and` and their `or`.
fn give(left: Value, right: Value, both: Value, either: Value) -> bool {
    let ands = (left.and(right), right.and(left)) == (both, both);
    ands && (left.or(right), right.or(left)) == (either, either)
}

#[test]
fn an_unknown_value_is_known_where_it_does_not_matter(rt: HostRuntime) {
    let (zero, one, unknown) = (Value::Zero, Value::One, Value::Unknown);
    let known = give(one, one, one, one) && give(one, zero, zero, one);
    assert!(rt; known && give(unknown, zero, zero, unknown));
    let open = give(unknown, unknown, unknown, unknown) && give(unknown, one, unknown, one);
    assert!(rt; open && zero.not() == one && unknown.not() == unknown);
}
