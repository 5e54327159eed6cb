// Worked shares, problems at the limits, and `fill` compared with the definition of a certificate and with filling in
// rounds.
ghost use Rattle.std.specs.Prelude.{◌≡◌, ◌<◌, length};

use pon_cert::{Item, Level, is_problem};
use pon_fill::fill;
use pon_units::Frac;

const LINE: u64 = 2_488_320;

fn item(weight: u64, cap: u64) -> Item {
    Item { weight, cap }
}

fn at(num: u64, den: u64) -> Level
    requires { 0 < den }
{
    Level::At(Frac::new(num, den))
}

// Calls `fill`, and returns the level; `None` if there is no problem.
fn share(items: &[Item], surplus: u64, saturated: &mut [bool]) -> Option<Level>
    ensures { length saturated.new ≡ length saturated.old }
{
    if !is_problem(items, surplus) {
        return None;
    }
    if saturated.len() != items.len() {
        return None;
    }
    let mut scratch = [0; 512];
    Some(fill(items, surplus, &mut scratch[..items.len()], saturated))
}

// Returns the level of the shares, if these items are saturated.
fn level_with(items: &[Item], surplus: u64, flags: &[bool]) -> Option<Level> {
    if items.len() > 512 {
        return None;
    }
    let mut saturated = [true; 512];
    let saturated = &mut saturated[..items.len()];
    let level = share(items, surplus, saturated);
    if *saturated == *flags { level } else { None }
}

#[test]
fn worked_shares(rt: HostRuntime) {
    let capped = [item(1, 10), item(1, 100), item(2, 100)];
    let open = [item(3, 1000), item(4, 1000)];
    let met = [item(1, 10), item(1, 10), item(1, 20)];
    let small = [item(1, 0), item(1, 5)];
    for (items, surplus, level, flags) in [
        (
            capped.as_slice(),
            100,
            at(90, 3),
            [true, false, false].as_slice(),
        ),
        (&open, 100, at(100, 7), &[false, false]),
        (&met, 30, at(10, 1), &[true, true, false]),
        (&small, 0, at(0, 1), &[true, false]),
    ] {
        let told = level_with(items, surplus, flags);
        assert!(rt; told == Some(level), "{items:?}: {told:?}");
    }
}

#[test]
fn whole_surplus_covers_all_caps(rt: HostRuntime) {
    for surplus in [0, 1, LINE] {
        assert!(rt;
            level_with(&[], surplus, &[]) == Some(Level::All),
            "{surplus}"
        );
    }
    let items = [item(1, 10), item(2, 20)];
    for surplus in [100, 30] {
        let told = level_with(&items, surplus, &[true, true]);
        assert!(rt; told == Some(Level::All), "{surplus}: {told:?}");
    }
}

#[test]
fn greatest_problem(rt: HostRuntime) {
    let items = [item(LINE, LINE); 512];
    let told = level_with(&items, LINE, &[false; 512]);
    assert!(rt; told == Some(at(LINE, 512 * LINE)), "{told:?}");
}

// Computes the certificate in which these items are saturated, if there is one, from its definition.
fn certified(items: &[Item], saturated: &[bool], surplus: u64) -> Option<Level> {
    let mut weight = 0u64;
    let mut caps = 0u64;
    for (item, flag) in items.iter().zip(saturated) {
        if *flag {
            caps = caps.saturating_add(item.cap);
        } else {
            weight = weight.saturating_add(item.weight);
        }
    }
    let left = surplus.checked_sub(caps)?;
    if weight == 0 {
        return Some(Level::All);
    }
    if keeps_rules(items, saturated, left, weight) {
        Some(at(left, weight))
    } else {
        None
    }
}

fn product(a: u64, b: u64) -> u128 {
    u128::from(a) * u128::from(b)
}

// Returns whether the saturated items are exactly those whose caps are met at the level.
fn keeps_rules(items: &[Item], saturated: &[bool], left: u64, weight: u64) -> bool {
    for (item, flag) in items.iter().zip(saturated) {
        if *flag != (product(item.cap, weight) <= product(item.weight, left)) {
            return false;
        }
    }
    true
}

fn some_where(holds: bool, level: &Level) -> Option<Level> {
    if holds { Some(*level) } else { None }
}

// Returns whether, of all sets of at most three items, `fill` saturates the one that has a certificate.
fn is_the_certified_set(items: &[Item], surplus: u64) -> bool {
    if items.len() > 3 {
        return false;
    }
    let mut saturated = [false; 3];
    let saturated = &mut saturated[..items.len()];
    match share(items, surplus, saturated) {
        Some(level) => has_one_certificate(items, surplus, saturated, &level),
        None => false,
    }
}

// Returns whether these items have a certificate at the level, and no other set of the items has one.
fn has_one_certificate(items: &[Item], surplus: u64, saturated: &[bool], level: &Level) -> bool {
    if items.len() > 3 {
        return false;
    }
    let mut alone = true;
    for set in 0..1u8 << items.len() {
        let flags = [set & 1 != 0, set & 2 != 0, set & 4 != 0];
        let flags = &flags[..items.len()];
        let wanted = some_where(*flags == *saturated, level);
        alone = certified(items, flags, surplus) == wanted && alone;
    }
    alone
}

// Saturates each item whose cap is met at the level `left / weight`. Returns the sum of their caps, if there is one.
fn saturate(items: &[Item], left: u64, weight: u64, saturated: &mut [bool]) -> Option<u64>
    ensures { length saturated.new ≡ length saturated.old }
{
    let mut caps = None;
    for (item, flag) in items.iter().zip(saturated.iter_mut()) {
        if !*flag && product(item.cap, weight) <= product(item.weight, left) {
            *flag = true;
            caps = Some(caps.unwrap_or(0u64).saturating_add(item.cap));
        }
    }
    caps
}

// Returns the sum of the weights of the items that are not saturated.
fn open_weight(items: &[Item], saturated: &[bool]) -> u64 {
    let mut weight = 0u64;
    for (item, flag) in items.iter().zip(saturated) {
        if !*flag {
            weight = weight.saturating_add(item.weight);
        }
    }
    weight
}

// Fills in plain rounds, until a round saturates no item.
fn fill_in_rounds(items: &[Item], surplus: u64, saturated: &mut [bool]) -> Option<Level>
    ensures { length saturated.new ≡ length saturated.old }
{
    let mut left = surplus;
    for _round in 0..513u32 {
        let weight = open_weight(items, saturated);
        if weight == 0 {
            return Some(Level::All);
        }
        match saturate(items, left, weight, saturated) {
            None => return Some(at(left, weight)),
            Some(caps) => left = left.saturating_sub(caps),
        }
    }
    None
}

// Returns whether `fill` and filling in rounds return the same level and the same flags.
fn is_filled_in_rounds(items: &[Item], surplus: u64) -> bool {
    if items.len() > 512 {
        return false;
    }
    let mut saturated = [false; 512];
    let mut in_rounds = [false; 512];
    let saturated = &mut saturated[..items.len()];
    let in_rounds = &mut in_rounds[..items.len()];
    let level = share(items, surplus, saturated);
    let wanted = fill_in_rounds(items, surplus, in_rounds);
    level.is_some() && level == wanted && *saturated == *in_rounds
}

// Makes one of twelve items of weights 1 to 3 and caps 0 to 3.
fn small_item(n: u64) -> Item {
    item(1 + n % 3, n / 3 % 4)
}

#[test]
fn all_small_problems(rt: HostRuntime) {
    for n in 0..1728 {
        let items = [small_item(n), small_item(n / 12), small_item(n / 144)];
        for surplus in 0..=9 {
            for count in 0..=3 {
                let items = &items[..count];
                assert!(rt;
                    is_the_certified_set(items, surplus),
                    "{items:?}, {surplus}"
                );
                assert!(rt; is_filled_in_rounds(items, surplus), "{items:?}, {surplus}");
            }
        }
    }
}

// Returns the next number of a fixed pseudo-random sequence.
fn next_number(seed: &mut u64) -> u64 {
    *seed = seed
        .wrapping_mul(6364136223846793005)
        .wrapping_add(1442695040888963407);
    *seed >> 33
}

// Returns whether the shares of 512 items have a certificate.
fn is_certified(items: &[Item; 512]) -> bool {
    let mut saturated = [false; 512];
    let level = share(items, LINE, &mut saturated);
    level.is_some() && certified(items, &saturated, LINE) == level
}

#[test]
fn long_problems(rt: HostRuntime) {
    let mut seed = 1;
    for greatest_cap in [1, 100, 5_000, 10_000, 100_000, LINE] {
        let mut items = [item(1, 0); 512];
        for item in items.iter_mut() {
            item.weight = 1 + next_number(&mut seed) % LINE;
            item.cap = next_number(&mut seed) % greatest_cap;
        }
        assert!(rt; is_certified(&items), "caps up to {greatest_cap}");
    }
}

// Writes random weights and caps, most of them far below the maximum.
fn write_random(items: &mut [Item], seed: &mut u64) {
    let weights = LINE >> (next_number(seed) % 21);
    let caps = LINE >> (next_number(seed) % 21);
    for item in items.iter_mut() {
        item.weight = 1 + next_number(seed).checked_rem(weights).unwrap_or(0);
        item.cap = next_number(seed).checked_rem(caps).unwrap_or(0);
    }
}

#[test]
fn ten_thousand_random_problems(rt: HostRuntime) {
    let mut seed = 1;
    let mut items = [item(1, 0); 512];
    for problem in 0..10_000u32 {
        let count = (next_number(&mut seed) % 513) as usize;
        let items = &mut items[..count];
        write_random(items, &mut seed);
        let surplus = next_number(&mut seed) % (LINE + 1);
        assert!(rt; is_filled_in_rounds(items, surplus), "problem {problem}");
    }
}
