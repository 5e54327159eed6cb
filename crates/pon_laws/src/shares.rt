//! One map: each Alloc-ID beside its class, and the classes beside the capacity.

ghost use Rattle.std.specs.Prelude.{Contains, List, Some, slice_get, ℕ, ◌≡◌, ◌≢◌, ◌+◌, ◌≤◌, ◌⊎◌};
ghost use Rattle.pon_descr.specs.declared.class.Class.{Class};
ghost use Rattle.pon_admit.specs.Roster.{IsAdmitted};
ghost use Rattle.pon_admit.specs.declared.row.Row.{Row};
ghost use Rattle.pon_guar.specs.Book.{load_of};
ghost use Rattle.pon_guar.specs.declared.account.Account.{Account};
ghost use Rattle.pon_cert.specs.declared.cert.MapCert.{MapCert};
ghost use Rattle.pon_demand.specs.Input.{Input};
ghost use Rattle.pon_demand.specs.Rates.{guaranteed_rate};
ghost use Rattle.pon_demand.specs.Sharing.{IsCertified, item_of, members, surplus_rate};
ghost use Rattle.pon_state.specs.Entry.{Entry};
ghost use Rattle.pon_state.specs.State.{input_of};
ghost use Rattle.pon_state.specs.declared.reply.Reply.{Reply};
ghost use Rattle.pon_state.specs.declared.reply.MadeMap.{MadeMap};
ghost use Rattle.pon_history.specs.Chapters.{Chapter, IsLawfulChapter, state_before};
ghost use Rattle.pon_laws.specs.Shares.{AssignsAll, GetsLess, GrantsAll, HasPart, IsMoreOfOthers, IsNoMore, IsOnlyMore, ServesAll, class_surplus, rate_of, IsSureOf, with_reports};
ghost use Rattle.pon_sure.specs.Sure.{class_weight, sure_surplus, weight_of};
ghost use Rattle.pon_sure.specs.declared.sure.Sure.{Sure};
ghost use Rattle.pon_laws.specs.Exact.{IsAtLeast};
ghost use Rattle.pon_laws.specs.Growth.{IsUpTo};

/// Guaranteed rate, weight and cap of an Alloc-ID depend on its own descriptor and load alone.
pub fn own_rates_are_of_own_reports()
    ensures guaranteed { (s t : Input) (r : Row)
        → load_of s.book r.alloc_id ≡ load_of t.book r.alloc_id
        → guaranteed_rate s r ≡ guaranteed_rate t r }
    ensures item { (s t : Input) (r : Row)
        → load_of s.book r.alloc_id ≡ load_of t.book r.alloc_id → item_of s r ≡ item_of t r }
{}

/// An Alloc-ID that gets less than it can use gets at least its weighted part of the surplus of its class, and of the
/// surplus that no reports can take from the class.
pub fn no_report_takes_a_weighted_part()
    ensures part { (s : Input) (cert : MapCert) → IsAdmitted s.rule s.gap s.roster
        → IsCertified s cert → (class : Class) (r : Row) → Contains (members class s.roster) r
        → GetsLess s cert r
        → HasPart (class_surplus class s cert) (weight_of r) (class_weight class s.roster) (surplus_rate s cert r) }
    ensures sure { (s : Input) (cert : MapCert) → IsAdmitted s.rule s.gap s.roster
        → IsCertified s cert → (class : Class) (r : Row) → Contains (members class s.roster) r
        → GetsLess s cert r
        → HasPart (sure_surplus class s.rule s.gap s.roster) (weight_of r) (class_weight class s.roster) (surplus_rate s cert r) }
{}

/// What `sure_of` of `pon_sure` says of an Alloc-ID is granted if as much is reported: the guaranteed rate; and guaranteed
/// rate and surplus together.
pub fn what_is_sure_is_granted()
    ensures guaranteed { (s : Input) (r : Row) (x : Sure) → IsAdmitted s.rule s.gap s.roster
        → Contains s.roster r → IsSureOf s r x
        → x.guaranteed ≤ load_of s.book r.alloc_id → guaranteed_rate s r ≡ x.guaranteed }
    ensures together { (s : Input) (cert : MapCert) (class : Class) (r : Row) (x : Sure)
        → IsAdmitted s.rule s.gap s.roster → IsCertified s cert
        → Contains (members class s.roster) r → Contains s.roster r → IsSureOf s r x
        → x.guaranteed + x.surplus ≤ load_of s.book r.alloc_id
        → IsAtLeast (rate_of s cert r) (x.guaranteed + x.surplus) 0 }
{}

/// No member of a class gets more for its weight than a member that gets less than it can use.
pub fn nobody_who_waits_is_outdone()
    ensures { (s : Input) (cert : MapCert) → IsAdmitted s.rule s.gap s.roster
        → IsCertified s cert → (class : Class) (q r : Row)
        → Contains (members class s.roster) q → Contains (members class s.roster) r
        → GetsLess s cert r
        → IsNoMore (weight_of q) (surplus_rate s cert q) (weight_of r) (surplus_rate s cert r) }
{}

/// If an Alloc-ID of a class that shares gets less than it can use, all of the capacity is assigned. So each Alloc-ID of
/// both classes gets exactly what it can use, or the rates together are the capacity.
pub fn nothing_is_idle_while_one_waits()
    ensures either { (s : Input) (cert : MapCert) → IsAdmitted s.rule s.gap s.roster
        → IsCertified s cert → ServesAll s cert ⊎ AssignsAll s cert }
    ensures waits { (s : Input) (cert : MapCert) → IsAdmitted s.rule s.gap s.roster
        → IsCertified s cert → (class : Class) (r : Row) → Contains (members class s.roster) r
        → class ≢ Class.Plain → GetsLess s cert r → AssignsAll s cert }
{}

/// The premises of these laws hold at each map of a lawful chapter, for the state before it and its certificate.
pub fn they_hold_at_each_map()
    ensures { (c : Chapter) → IsLawfulChapter c → (k : ℕ) (e : Entry) (made : MadeMap)
        → slice_get c.entries k ≡ Some e → e.reply ≡ Reply.Map made
        → IsAdmitted (state_before c k).rule (state_before c k).gap (state_before c k).roster
        × IsCertified (input_of (state_before c k)) made.cert }
{}

/// An Alloc-ID that reports more, while the loads of all others stay, gets no lower rate in the map.
pub fn to_report_more_never_gives_less()
    ensures { (s : Input) (book : List Account) (m n : MapCert) → IsAdmitted s.rule s.gap s.roster
        → IsCertified s m → IsCertified (with_reports s book) n
        → (class : Class) (r : Row) → Contains (members class s.roster) r
        → IsOnlyMore s book r.alloc_id
        → IsUpTo (rate_of s m r) (rate_of (with_reports s book) n r) }
{}

/// An Alloc-ID whose own load stays, while that of no other falls, gets no higher rate in the map.
pub fn others_who_report_more_never_give_more()
    ensures { (s : Input) (book : List Account) (m n : MapCert) → IsAdmitted s.rule s.gap s.roster
        → IsCertified s m → IsCertified (with_reports s book) n
        → (class : Class) (r : Row) → Contains (members class s.roster) r
        → IsMoreOfOthers s book r.alloc_id
        → IsUpTo (rate_of (with_reports s book) n r) (rate_of s m r) }
{}

/// In a map of a lawful chapter each Alloc-ID of both classes gets what it can use, or the payload words are the capacity,
/// but for less than a word for each Alloc-ID.
pub fn a_map_grants_all_its_words()
    ensures { (c : Chapter) → IsLawfulChapter c → (k : ℕ) (e : Entry) (made : MadeMap)
        → slice_get c.entries k ≡ Some e → e.reply ≡ Reply.Map made
        → ServesAll (input_of (state_before c k)) made.cert ⊎ GrantsAll (state_before c k) made }
{}
