ghost use Rattle.std.specs.Prelude.{◌≡◌, ◌≤◌, ◌==◌, ◌*◌, ◌/◌, find, length, sum_by};
ghost use Rattle.pon_sure.specs.Sure.{class_weight, longest_wait, most_before_best_effort, sure_of, sure_of_row, sure_part, sure_surplus, weight_of, weight_within};

use pon_admit::{Roster, Row};
use pon_descr::Class;
use pon_units::{AllocId, Kbps, LINE_RATE, MAX_STRUCTURES, WORD_RATE};

/// What is sure for an admitted Alloc-ID, whatever others report.
#[derive(Clone, Copy, Debug, PartialEq, Eq)]
pub struct Sure {
    /// Its fixed and assured rate together, 0 to 2,488,320 kbit/s: granted if as much is reported.
    pub guaranteed: Kbps,
    /// The whole kbit/s of its sure part of the surplus, 0 to 2,488,320: granted beyond the guaranteed rate if as much is
    /// reported.
    pub surplus: u64,
    /// The number of maps in which the guaranteed rate makes a word, 1 to 256; `None` if that rate is 0.
    pub wait: Option<u64>,
}

// Computes the weight of a row in its class, in kbit/s.
fn weight_of(row: &Row) -> u64
    ensures value { result ≡ weight_of row.now }
    ensures range { result ≤ LINE_RATE }
{
    let promised = row.descriptor.promised();
    prove!(promised <= row.descriptor.max());
    let weight = match row.descriptor.class() {
        Class::BestEffort => row.descriptor.max().get() - promised.get(),
        Class::Plain | Class::NonAssured => promised.get(),
    };
    u64::from(weight)
}

// Returns the weight of a row in a class, 0 if it is of another.
fn weight_within(row: &Row, class: Class) -> u64
    ensures value { result ≡ weight_within class row.now }
    ensures range { result ≤ LINE_RATE }
{
    if row.descriptor.class() == class {
        weight_of(row)
    } else {
        0
    }
}

// Computes the weight of all members of a class.
fn class_weight(rows: &[Row], class: Class) -> u64
    requires { length rows.now ≤ MAX_STRUCTURES }
    ensures { result ≡ class_weight class rows.now }
{
    let mut sum = 0;
    for row in rows {
        sum += weight_within(row, class);
    }
    sum
}

// Returns the most that a row can take before best effort shares, in kbit/s.
fn most_before(row: &Row) -> u64
    ensures value { result ≡ most_before_best_effort row.now }
    ensures range { result ≤ LINE_RATE }
{
    let most = match row.descriptor.class() {
        Class::NonAssured => row.descriptor.max(),
        Class::Plain | Class::BestEffort => row.descriptor.promised(),
    };
    u64::from(most.get())
}

// Computes the most that all rows can take before best effort shares.
fn all_before(rows: &[Row]) -> u64
    requires { length rows.now ≤ MAX_STRUCTURES }
    ensures { result ≡ sum_by most_before_best_effort rows.now }
{
    let mut sum = 0;
    for row in rows {
        sum += most_before(row);
    }
    sum
}

// Computes the surplus that no reports can take from a class, in kbit/s.
fn sure_surplus(roster: &Roster, class: Class) -> u64
    ensures value { result ≡ sure_surplus class roster.now.rule roster.now.gap roster.now.rows }
    ensures range { result ≤ LINE_RATE }
{
    let capacity = WORD_RATE * u64::from(roster.capacity().get());
    match class {
        Class::Plain => 0,
        Class::NonAssured => capacity.saturating_sub(u64::from(roster.guaranteed_sum().get())),
        Class::BestEffort => capacity.saturating_sub(all_before(roster.rows())),
    }
}

// Computes the whole kbit/s of the weighted part of a row in a surplus; 0 if no row of its class has a weight.
fn part_of(surplus: u64, weight: u64, all: u64) -> u64
    requires surplus { surplus ≤ LINE_RATE }
    requires weight { weight ≤ LINE_RATE }
    ensures { result ≡ surplus * weight / all }
{
    if all == 0 { 0 } else { surplus * weight / all }
}

// Computes the longest wait for a word at a rate, in maps.
fn longest_wait(rate: Kbps) -> Option<u64>
    ensures { result ≡ longest_wait rate }
{
    let rate = u64::from(rate.get());
    if rate == 0 {
        None
    } else {
        Some((WORD_RATE + rate - 1) / rate)
    }
}

// Computes the whole kbit/s of the sure part of a row in the surplus of its class, up to its maximum rate.
fn sure_part(roster: &Roster, row: &Row) -> u64
    ensures { result ≡ sure_part row.now.descriptor.class roster.now.rule roster.now.gap
        roster.now.rows row.now }
{
    let class = row.descriptor.class();
    let all = class_weight(roster.rows(), class);
    let promised = row.descriptor.promised();
    prove!(promised <= row.descriptor.max());
    let room = u64::from(row.descriptor.max().get() - promised.get());
    room.min(part_of(sure_surplus(roster, class), weight_of(row), all))
}

// Computes what is sure for a row of a roster.
fn sure_of_row(roster: &Roster, row: &Row) -> Sure
    ensures { result ≡ sure_of_row roster.now row.now }
{
    let guaranteed = row.descriptor.promised();
    Sure {
        guaranteed,
        surplus: sure_part(roster, row),
        wait: longest_wait(guaranteed),
    }
}

// Returns the row of an Alloc-ID.
fn row_of(rows: &[Row], alloc_id: AllocId) -> Option<Row>
    ensures { result ≡ find (λ r. r.alloc_id == alloc_id) rows.now }
{
    for row in rows {
        if row.alloc_id == alloc_id {
            return Some(*row);
        }
    }
    None
}

/// Returns what is sure for an Alloc-ID of a roster, whatever others report; `None` if it is not admitted. It takes no
/// memory, and looks at each row of the roster three times at most.
pub fn sure_of(roster: &Roster, alloc_id: AllocId) -> Option<Sure>
    ensures { result ≡ sure_of roster.now alloc_id }
{
    match row_of(roster.rows(), alloc_id) {
        None => None,
        Some(row) => Some(sure_of_row(roster, &row)),
    }
}
