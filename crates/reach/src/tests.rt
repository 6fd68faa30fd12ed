// A hall of two sectors, and the calls of a list made on it, in both forms: cell 49 of the border is blocked, a route is asked for, and of two changes of cell 150 the later holds.
use super::numbers::reach_numbers;
use super::*;

#[test]
fn calls_are_made_in_turn(rt: HostRuntime) {
    let calls = [
        HallCall::Change {
            cell: 49,
            cost: 255,
        },
        HallCall::Route {
            source: 0,
            goal: 100,
        },
        HallCall::Change { cell: 150, cost: 7 },
        HallCall::Change { cell: 150, cost: 9 },
    ];
    let numbers = [0, 49, 255, 1, 0, 100, 0, 150, 7, 0, 150, 265, 0, 49];

    let (mut st, mut steps) = ([0; 420], [0; 12]);
    assert_eq!(rt;
        reach(2, 1, 1, &[1; 200], &calls, &mut st, &mut steps),
        Ok(())
    );
    assert_eq!(rt; (st[4 + 49], st[4 + 150]), (255, 9));
    assert_eq!(rt; steps, [0, 0, 19, 1, 9, 39, 1, 0, 0, 4, 0, 0]);

    let (mut lent, mut written) = ([0; 420], [0; 12]);
    assert_eq!(rt;
        reach_numbers(2, 1, 1, &[1; 200], &numbers, &mut lent, &mut written),
        Ok(())
    );
    assert_eq!(rt; (lent, written), (st, steps));
}
