//! What was sold to an Alloc-ID over maps, and what it got of it.

ghost use Rattle.std.specs.Prelude.{◌≡◌, ◌-◌, ◌/◌, IfSome, max};
ghost use Rattle.pon_units.specs.declared.limits.TheConstants.{WORD_RATE};
ghost use Rattle.pon_sure.specs.Sure.{longest_wait};
ghost use Rattle.pon_sold.specs.Watches.{after_other, after_owed, after_row, after_sold, crossing_debt, crossing_wait, debt_after, is_sold, joined, lesser, restarted, run_after, stopped};

use crate::head::Head;
use pon_admit::Row;
use pon_bwmap::Alloc;
use pon_units::WORD_RATE;
use pon_why::RowRates;

/// What was sold to an Alloc-ID over maps, and what it got of it. A map counts as sold if the Alloc-ID has a fixed or an
/// assured rate, and at least both together were reported before the map. All numbers are below 2^64.
#[derive(Clone, Copy, Debug, PartialEq, Eq)]
pub struct Sold {
    /// The sum of the fixed and assured rates of the sold maps, in kbit/s.
    pub rate: u64,
    /// The payload words of 4 bytes that the sold maps granted.
    pub words: u64,
    /// The most by which the guaranteed rates of maps in a row were above their words, in kbit/s, 256 for a word.
    pub shortfall: u64,
    /// The number of sold maps in a row after which a word came at the latest: 1 more than the most that granted none; 0
    /// without a sold map.
    pub wait: u64,
    /// The least fixed and assured rate together of a sold map, in kbit/s; 0 without a sold map.
    pub least: u64,
}

impl Sold {
    /// Returns the whole words of the sold rates.
    pub fn sold_words(&self) -> u64
        ensures { result ≡ self.now.rate / WORD_RATE }
    {
        self.rate / WORD_RATE
    }

    /// Returns the whole words of the greatest shortfall over maps in a row.
    pub fn short_words(&self) -> u64
        ensures { result ≡ self.now.shortfall / WORD_RATE }
    {
        self.shortfall / WORD_RATE
    }

    /// Returns the bound of the wait, in maps, 1 to 256: the number of maps in which the least sold rate makes a word.
    /// `None` without a sold map.
    pub fn wait_bound(&self) -> Option<u64>
        ensures { result ≡ longest_wait self.now.least }
    {
        if self.least == 0 {
            None
        } else {
            Some((WORD_RATE - 1) / self.least + 1)
        }
    }
}

/// What was sold over maps, and what the last of them leave to the next one.
#[derive(Clone, Copy, Debug, PartialEq, Eq)]
pub(crate) struct Watch {
    pub sold: Sold,
    /// The most by which the guaranteed rates of the last maps in a row are above their words, in kbit/s.
    pub debt: u64,
    /// The number of the last sold maps in a row that granted no word.
    pub run: u64,
    /// What the first maps add to runs of maps that began before them.
    pub head: Head,
}

// Returns the lesser of two rates, of which 0 is none.
fn lesser(a: u64, b: u64) -> u64
    ensures { result ≡ lesser a b }
{
    if a == 0 {
        b
    } else if b == 0 {
        a
    } else {
        a.min(b)
    }
}

// Returns whether something is sold, and at least that is reported.
fn is_sold(rate: u64, load: u64) -> bool
    ensures { result ≡ is_sold rate load }
{
    rate > 0 && rate <= load
}

// Returns the payload words of a structure: one less than its grant, 0 for a grant of 0.
fn words_of(structure: &Alloc) -> u64
    ensures { result ≡ structure.now.grant - 1 }
{
    u64::from(structure.grant().saturating_sub(1))
}

// Returns the sold maps in a row that granted no word, after one with these words. `None` if there are 2^64 or more.
fn run_after(words: u64, run: u64) -> Option<u64>
    ensures { IfSome result (λ after. after ≡ run_after words run) }
{
    if words == 0 {
        run.checked_add(1)
    } else {
        Some(0)
    }
}

// Returns by how much guaranteed rates are above words, after a debt. `None` if a sum is 2^64 or more.
fn debt_after(guaranteed: u64, words: u64, debt: u64) -> Option<u64>
    ensures { IfSome result (λ after. after ≡ debt_after guaranteed words debt) }
{
    let owed = debt.checked_add(guaranteed)?;
    Some(owed.saturating_sub(words.checked_mul(WORD_RATE)?))
}

// Returns the greatest shortfall over maps that begin before later ones. `None` if it is 2^64 or more.
fn crossing_debt(debt: u64, peak: u64) -> Option<u64>
    ensures { IfSome result (λ most. most ≡ crossing_debt debt peak) }
{
    if peak == 0 {
        Some(0)
    } else {
        debt.checked_add(peak)
    }
}

// Returns the wait over sold maps that begin before later ones, of which the first `more` granted no word. `None` if it is
// 2^64 or more.
fn crossing_wait(run: u64, more: u64) -> Option<u64>
    ensures { IfSome result (λ wait. wait ≡ crossing_wait run more) }
{
    if more == 0 {
        Some(0)
    } else {
        run.checked_add(more)?.checked_add(1)
    }
}

// Returns the greatest of three numbers.
fn greatest(a: u64, b: u64, c: u64) -> u64
    ensures { result ≡ max (max a b) c }
{
    a.max(b).max(c)
}

impl Watch {
    /// What is known before the first map.
    pub(crate) const NOTHING: Watch = Watch {
        sold: Sold {
            rate: 0,
            words: 0,
            shortfall: 0,
            wait: 0,
            least: 0,
        },
        debt: 0,
        run: 0,
        head: Head::NONE,
    };

    /// No run of maps goes on.
    pub(crate) fn stop(&mut self)
        ensures { self.new ≡ stopped self.old }
    {
        self.debt = 0;
        self.run = 0;
    }

    /// The run of maps ends, and the first maps in a row do.
    pub(crate) fn restart(&mut self)
        ensures { self.new ≡ restarted self.old }
    {
        self.stop();
        self.head.close();
    }

    // Adds what the guaranteed rate of a map is above its words. `None` if the sum is 2^64 or more.
    fn add_owed(&mut self, guaranteed: u64, words: u64) -> Option<()>
        ensures { IfSome result (λ done. self.new ≡ after_owed guaranteed words self.old) }
    {
        self.debt = debt_after(guaranteed, words, self.debt)?;
        self.sold.shortfall = self.sold.shortfall.max(self.debt);
        self.head.add_owed(guaranteed, words)
    }

    // Adds a map that is sold at a rate, and grants these words. `None` if a sum is 2^64 or more.
    fn add_sold(&mut self, rate: u64, words: u64) -> Option<()>
        ensures { IfSome result (λ done. self.new ≡ after_sold rate words self.old) }
    {
        self.run = run_after(words, self.run)?;
        self.sold.rate = self.sold.rate.checked_add(rate)?;
        self.sold.words = self.sold.words.checked_add(words)?;
        self.sold.wait = self.sold.wait.max(self.run.checked_add(1)?);
        self.sold.least = lesser(self.sold.least, rate);
        self.head.note_sold(words)
    }

    // Notes a map that is not sold.
    fn note_other(&mut self)
        ensures { self.new ≡ after_other self.old }
    {
        self.run = 0;
        self.head.note_other();
    }

    /// Adds the next map: the row, its rates and its structure. `None` if a sum is 2^64 or more.
    pub(crate) fn add_map(&mut self, row: &Row, rates: &RowRates, structure: &Alloc) -> Option<()>
        ensures { IfSome result (λ done. self.new
            ≡ after_row row.now rates.now structure.now self.old) }
    {
        let words = words_of(structure);
        self.add_owed(u64::from(rates.guaranteed.get()), words)?;
        let rate = u64::from(row.descriptor.promised().get());
        if is_sold(rate, u64::from(rates.load.get())) {
            return self.add_sold(rate, words);
        }
        self.note_other();
        Some(())
    }

    // Returns the debt after later maps. `None` if a sum is 2^64 or more.
    fn debt_after_all(&self, later: &Watch) -> Option<u64>
        ensures { IfSome result (λ debt. debt ≡ (joined self.now later.now).debt) }
    {
        let Head {
            guaranteed,
            words,
            is_open,
            ..
        } = later.head;
        if is_open {
            let crossing = debt_after(guaranteed, words, self.debt)?;
            Some(later.debt.max(crossing))
        } else {
            Some(later.debt)
        }
    }

    // Returns the run of maps without a word after later maps. `None` if it has 2^64 or more.
    fn run_after_all(&self, later: &Watch) -> Option<u64>
        ensures { IfSome result (λ run. run ≡ (joined self.now later.now).run) }
    {
        if later.head.is_waiting {
            self.run.checked_add(later.head.run)
        } else {
            Some(later.run)
        }
    }

    /// Adds the maps of later chapters, which go on with the runs of maps. `None` if a sum is 2^64 or more.
    pub(crate) fn add(&mut self, later: &Watch) -> Option<()>
        ensures { IfSome result (λ done. self.new ≡ joined self.old later.now) }
    {
        self.sold.rate = self.sold.rate.checked_add(later.sold.rate)?;
        self.sold.words = self.sold.words.checked_add(later.sold.words)?;
        let Head { peak, run, .. } = later.head;
        self.sold.shortfall = greatest(
            self.sold.shortfall,
            later.sold.shortfall,
            crossing_debt(self.debt, peak)?,
        );
        self.sold.wait = greatest(
            self.sold.wait,
            later.sold.wait,
            crossing_wait(self.run, run)?,
        );
        self.sold.least = lesser(self.sold.least, later.sold.least);
        self.debt = self.debt_after_all(later)?;
        self.run = self.run_after_all(later)?;
        Some(())
    }
}
