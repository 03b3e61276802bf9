// Tests of the stamp orders.
use stamps::order::Order;
use stamps::route::Route;
use stamps::then::Then;
use stamps::tick::Tick;

// Both answers, each way round.
fn asked<S: Order>(a: S, b: S) -> (bool, bool, bool, bool) {
    (a.before(&b), a.not_after(&b), b.before(&a), b.not_after(&a))
}

const BEFORE: (bool, bool, bool, bool) = (true, true, false, false);

const LEVEL: (bool, bool, bool, bool) = (false, true, false, true);

const UNORDERED: (bool, bool, bool, bool) = (false, false, false, false);

fn route(aisles: &[u32]) -> Route {
    Route {
        aisles: aisles
            .iter()
            .fold(0, |mask, aisle| mask | 1 << (aisle % 64)),
    }
}

fn pair<X, Y>(first: X, second: Y) -> Then<X, Y> {
    Then { first, second }
}

#[test]
fn ticks_go_by_number(rt: HostRuntime) {
    assert_eq!(rt; asked(Tick(4), Tick(5)), BEFORE);
    assert_eq!(rt; asked(Tick(5), Tick(5)), LEVEL);
    assert_eq!(rt; asked(Tick(0), Tick(4_294_967_295)), BEFORE);
}

#[test]
fn routes_go_by_aisles(rt: HostRuntime) {
    assert_eq!(rt; asked(route(&[2, 5]), route(&[2, 5, 9])), BEFORE);
    assert_eq!(rt; asked(route(&[2]), route(&[5])), UNORDERED);
    assert_eq!(rt; asked(route(&[0, 63]), route(&[63, 0])), LEVEL);
    assert_eq!(rt; asked(route(&[]), route(&[63])), BEFORE);
    assert_eq!(rt; asked(route(&[2, 9]), route(&[2, 5])), UNORDERED);
}

#[test]
fn then_asks_the_second_where_the_first_are_level(rt: HostRuntime) {
    assert_eq!(rt;
        asked(pair(Tick(3), Tick(9)), pair(Tick(4), Tick(0))),
        BEFORE
    );
    assert_eq!(rt;
        asked(pair(Tick(3), Tick(1)), pair(Tick(3), Tick(2))),
        BEFORE
    );
    assert_eq!(rt;
        asked(pair(Tick(3), Tick(2)), pair(Tick(3), Tick(2))),
        LEVEL
    );
}

#[test]
fn then_stands_over_any_two_orders(rt: HostRuntime) {
    let low = pair(route(&[1]), route(&[4]));
    let high = pair(route(&[1, 2]), route(&[]));
    assert_eq!(rt; asked(low, high), BEFORE);
    assert_eq!(rt;
        asked(
            pair(route(&[1]), route(&[4])),
            pair(route(&[1]), route(&[4, 5])),
        ),
        BEFORE
    );
    assert_eq!(rt;
        asked(
            pair(route(&[1]), route(&[4])),
            pair(route(&[1]), route(&[5])),
        ),
        UNORDERED
    );
    assert_eq!(rt;
        asked(
            pair(route(&[1]), route(&[4])),
            pair(route(&[2]), route(&[4, 5])),
        ),
        UNORDERED
    );
    assert_eq!(rt; asked(pair(low, Tick(1)), pair(low, Tick(2))), BEFORE);
    assert_eq!(rt; asked(pair(low, Tick(9)), pair(high, Tick(2))), BEFORE);
}
