// Small tables beside the registers that they need before and after, the lags left, and the verdict on fewer.
use engine::calls::{decide, fewest};
use engine::fault::TableFault;
use engine::link::Link;
use retiming::way::Way;

const fn link(driver: u16, driven: u16, count: u32, bundle: u16) -> Link {
    Link {
        driver,
        driven,
        count,
        bundle,
    }
}

// Two pinned gates drive the fourth, which drives the third pin.
fn joined(count: u32) -> [Link; 3] {
    [link(0, 3, count, 0), link(1, 3, count, 1), link(3, 2, 0, 3)]
}

// One pinned gate drives the fourth, which drives the other two pins.
fn forked(second: u16) -> [Link; 3] {
    [link(0, 3, 0, 0), link(3, 1, 1, 3), link(3, 2, 1, second)]
}

const PINS: [bool; 4] = [true, true, true, false];

#[test]
fn registers_of_two_wires_join_behind_the_gate(rt: HostRuntime) {
    let mut lags = [0i32; 4];
    assert_eq!(rt;
        fewest(Way::Forward, 4, &joined(1), &PINS, &mut lags),
        Ok((2, 1))
    );
    assert_eq!(rt; lags, [0, 0, 0, -1]);
    let mut shares = [9u16; 4];
    let mut flows = [9u16; 4];
    assert_eq!(rt;
        decide(4, &joined(1), &PINS, &lags, &mut shares, &mut flows),
        Ok(true)
    );
    assert_eq!(rt; shares, [1, 1, 1, 9]);
    assert!(rt; flows[0] <= 1 && flows[1] <= 1);
    assert_eq!(rt; (flows[0] + flows[1], flows[2], flows[3]), (1, 0, 9));
}

#[test]
fn fewer_registers_are_possible_at_the_start(rt: HostRuntime) {
    let mut shares = [9u16; 3];
    let mut flows = [9u16; 3];
    assert_eq!(rt;
        decide(4, &joined(1), &PINS, &[0; 4], &mut shares, &mut flows),
        Ok(false)
    );
    assert_eq!(rt; (shares, flows), ([9; 3], [9; 3]));
}

#[test]
fn a_fixed_gate_stays(rt: HostRuntime) {
    let mut lags = [0i32; 4];
    let mut shares = [0u16; 3];
    let mut flows = [0u16; 3];
    assert_eq!(rt;
        fewest(Way::Forward, 4, &joined(1), &[true; 4], &mut lags),
        Ok((2, 2))
    );
    assert_eq!(rt; lags, [0; 4]);
    assert_eq!(rt;
        decide(4, &joined(1), &[true; 4], &lags, &mut shares, &mut flows),
        Ok(true)
    );
}

#[test]
fn twice_the_registers_move_twice_as_far(rt: HostRuntime) {
    let mut lags = [0i32; 4];
    assert_eq!(rt;
        fewest(Way::Forward, 4, &joined(2), &PINS, &mut lags),
        Ok((4, 2))
    );
    assert_eq!(rt; lags, [0, 0, 0, -2]);
}

#[test]
fn sharing_decides_whether_back_helps(rt: HostRuntime) {
    let mut lags = [0i32; 4];
    assert_eq!(rt;
        fewest(Way::Back, 4, &forked(3), &PINS, &mut lags),
        Ok((1, 1))
    );
    assert_eq!(rt; lags, [0; 4]);
    assert_eq!(rt;
        fewest(Way::Back, 4, &forked(2), &PINS, &mut lags),
        Ok((2, 1))
    );
    assert_eq!(rt; lags, [0, 0, 0, 1]);
}

#[test]
fn registers_fall_off_a_gate_that_drives_nothing(rt: HostRuntime) {
    let mut lags = [0i32; 3];
    assert_eq!(rt;
        fewest(Way::Forward, 2, &[link(0, 1, 3, 0)], &[false; 2], &mut lags),
        Ok((3, 0))
    );
    assert_eq!(rt; lags, [0, -3, 0]);
    assert_eq!(rt; fewest(Way::Forward, 0, &[], &[], &mut []), Ok((0, 0)));
}

#[test]
fn an_unfit_table_is_refused(rt: HostRuntime) {
    let mut lags = [5i32, 0];
    assert_eq!(rt;
        fewest(Way::Back, 2, &[link(0, 1, 3, 0)], &[false; 2], &mut lags),
        Err(TableFault::Unfit)
    );
    assert_eq!(rt; lags, [5, 0]);
    assert_eq!(rt;
        fewest(Way::Back, 1, &[link(0, 1, 3, 0)], &[false; 2], &mut lags),
        Err(TableFault::Unfit)
    );
    assert_eq!(rt;
        decide(
            2,
            &[link(0, 1, 3, 0)],
            &[false; 2],
            &[0; 2],
            &mut [],
            &mut [0],
        ),
        Err(TableFault::ShortRow)
    );
}
