//! Laws of what the records of a feed mean.

ghost use Rattle.std.specs.Prelude.{◌≡◌, ◌⊎◌, ◌-◌, length, ℕ, List, [], Option, Some, None, Result, Ok, Err};
ghost use Rattle.route_model.specs.Admission.{Admitted};
ghost use Rattle.route_model.specs.Prefix.{IpPrefix};
ghost use Rattle.mrt_records.specs.Entries.{Entry};
ghost use Rattle.mrt_records.specs.Values.{Reported, Read, Rib};
ghost use Rattle.mrt_records.specs.declared.neighbor.Neighbor.{Neighbor};
ghost use Rattle.resolve.specs.declared.fault.ResolveFault.{ResolveFault};
ghost use Rattle.resolve.specs.declared.without_hop.WithoutHop.{WithoutHop};
ghost use Rattle.resolve.specs.Entries.{AreOthers, IsLeftOut};
ghost use Rattle.resolve.specs.Tables.{LastTable};
ghost use Rattle.resolve.specs.Records.{Gives, left_out};
ghost use Rattle.resolve.specs.Meanings.{Means};

/// After any records a feed has one peer table, and the records of a feed mean one list of results, however entries without a next hop are taken.
pub fn feeds_have_one_meaning()
    ensures some { (records : List Reported) → (table : Option (List Neighbor)) × LastTable records table }
    ensures one { (records : List Reported) (x y : Option (List Neighbor)) → LastTable records x → LastTable records y → x ≡ y }
    ensures meaning { (rule : WithoutHop) (c : ℕ) (records : List Reported) (x y : List (Result (Option Admitted) ResolveFault)) → Means rule c records x → Means rule c records y → x ≡ y }
{}

/// If entries without a next hop are left out, a RIB record means what the record of its other entries alone means; one
/// that has no other means nothing. If such a record isn't refused, as many are counted as there are beyond the others. Only out of memory is
/// returned at any record.
pub fn records_mean_what_their_other_entries_mean()
    ensures others { (c : ℕ) (peers : List Neighbor) (time : ℕ) (prefix : IpPrefix) (entries others : List Entry) (result : Result (Option Admitted) ResolveFault) → AreOthers (IsLeftOut WithoutHop.LeftOut peers) entries others → (others ≡ [] → entries ≡ []) → Gives WithoutHop.LeftOut c (Some peers) (Read (Rib time prefix entries)) result → Gives WithoutHop.Refused c (Some peers) (Read (Rib time prefix others)) result }
    ensures nothing { (c : ℕ) (peers : List Neighbor) (time : ℕ) (prefix : IpPrefix) (entries : List Entry) (result : Result (Option Admitted) ResolveFault) → AreOthers (IsLeftOut WithoutHop.LeftOut peers) entries [] → (entries ≡ [] → ⊥) → Gives WithoutHop.LeftOut c (Some peers) (Read (Rib time prefix entries)) result → (result ≡ Ok None) ⊎ (result ≡ Err ResolveFault.OutOfMemory) }
    ensures counted { (c : ℕ) (peers : List Neighbor) (time : ℕ) (prefix : IpPrefix) (entries others : List Entry) (meaning : Option Admitted) → AreOthers (IsLeftOut WithoutHop.LeftOut peers) entries others → Gives WithoutHop.LeftOut c (Some peers) (Read (Rib time prefix entries)) (Ok meaning) → left_out (Read (Rib time prefix entries)) (Ok meaning) ≡ length entries - length others }
{}
