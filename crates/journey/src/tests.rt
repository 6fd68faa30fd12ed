// Document 01's floor of two sectors: the route over the open border, and with cell 49 of the border blocked before it, by a list of either form.
use super::numbers::route_after_numbers;
use super::*;

#[test]
fn the_last_route_is_of_the_changed_hall(rt: HostRuntime) {
    let open = Route {
        steps: 2,
        leg: 13,
        run: 5,
    };
    let around = Route {
        steps: 2,
        leg: 10,
        run: 2,
    };
    let close = [HallCall::Change {
        cell: 49,
        cost: 255,
    }];
    let (mut st, mut steps) = ([0; 420], [0; 12]);
    assert_eq!(rt;
        route_after(2, 1, 1, &[1; 200], &[], 0, 100, &mut st, &mut steps),
        Ok(Some(open))
    );
    assert_eq!(rt;
        route_after(2, 1, 1, &[1; 200], &close, 0, 100, &mut st, &mut steps),
        Ok(Some(around))
    );
    assert_eq!(rt;
        route_after_numbers(2, 1, 1, &[1; 200], &[], 0, 100, &mut st, &mut steps),
        Ok(Some(open))
    );
    assert_eq!(rt;
        route_after_numbers(
            2,
            1,
            1,
            &[1; 200],
            &[0, 49, 255],
            0,
            100,
            &mut st,
            &mut steps
        ),
        Ok(Some(around))
    );
}
