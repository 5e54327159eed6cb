//! Laws of settlements, over the definitions alone.

ghost use Rattle.std.specs.Prelude.{ℕ, ◌≡◌, ◌<◌, List, map, slice_get, Some};
ghost use Rattle.pon_desk.specs.Receipts.{Receipt};
ghost use Rattle.pon_desk.specs.Settling.{IsEarlier, IsOnlyPost, IsSettled, PortHistory, TellsUnsettled, all_placed, posts_of};
ghost use Rattle.pon_desk.specs.declared.unsettled.Unsettled.{Unsettled};

/// The receipts that settle a port are those of all its entries in order, each with its place, event and reply.
pub fn settled_receipts_are_all_entries()
    ensures { (h : PortHistory) (port : ℕ) (receipts : List Receipt) → IsSettled h port receipts
        → map (λ r. r.placed) receipts ≡ all_placed h }
{}

/// A settled port has no fault.
pub fn settled_ports_have_no_fault()
    ensures { (h : PortHistory) (port : ℕ) (receipts : List Receipt) (why : Unsettled)
        → IsSettled h port receipts → TellsUnsettled h port receipts why → ⊥ }
{}

/// A port that is not settled has one fault.
pub fn unsettled_ports_have_one_fault()
    ensures { (h : PortHistory) (port : ℕ) (receipts : List Receipt) (why other : Unsettled)
        → TellsUnsettled h port receipts why → TellsUnsettled h port receipts other → why ≡ other }
{}

/// Of two receipts of a seat that settle a port with others, the one with the smaller `nth` has the earlier place.
pub fn places_of_a_seat_rise()
    ensures { (h : PortHistory) (port : ℕ) (receipts : List Receipt) → IsSettled h port receipts
        → (i j : ℕ) (r s : Receipt) → slice_get receipts i ≡ Some r → slice_get receipts j ≡ Some s
        → r.seat ≡ s.seat → r.nth < s.nth → IsEarlier r.placed s.placed }
{}

/// Among receipts that settle a port, each `nth` below the number of receipts of a seat occurs once for that seat, and
/// no other occurs.
pub fn each_nth_of_a_seat_occurs_once()
    ensures once { (h : PortHistory) (port : ℕ) (receipts : List Receipt) → IsSettled h port receipts
        → (seat nth : ℕ) → nth < posts_of seat receipts → (k : ℕ) × IsOnlyPost receipts seat nth k }
    ensures no_other { (h : PortHistory) (port : ℕ) (receipts : List Receipt)
        → IsSettled h port receipts → (k : ℕ) (r : Receipt) → slice_get receipts k ≡ Some r
        → r.nth < posts_of r.seat receipts }
{}
