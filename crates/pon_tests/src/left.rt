use pon_cert::{Item, Level, is_problem, left_surplus};
use pon_units::Frac;

const LINE: u64 = 2_488_320;

fn item(weight: u64, cap: u64) -> Item {
    Item { weight, cap }
}

// Returns what the class leaves of the surplus; `None` if there is no problem.
fn left(level: Level, items: &[Item], surplus: u64) -> Option<u64> {
    if is_problem(items, surplus) {
        Some(left_surplus(&level, items, surplus))
    } else {
        None
    }
}

#[test]
fn what_a_class_leaves(rt: HostRuntime) {
    let items = [item(1, 10), item(2, 20)];
    for (surplus, wanted) in [(LINE, 2_488_290), (100, 70), (30, 0), (29, 0)] {
        assert!(rt;
            left(Level::All, &items, surplus) == Some(wanted),
            "all of {surplus}"
        );
        let level = Level::At(Frac::new(surplus, 3));
        assert!(rt;
            left(level, &items, surplus) == Some(0),
            "a level of {surplus}"
        );
    }
    assert!(rt; left(Level::All, &[], 100) == Some(100));
    let greatest = [item(LINE, LINE); 512];
    assert!(rt; left(Level::All, &greatest, LINE) == Some(0));
}
