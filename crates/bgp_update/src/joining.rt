//! Merges AS4_PATH with AS_PATH (RFC 6793 section 4.2.3).

ghost use Rattle.std.specs.Prelude.{◌≡◌, ◌<◌, ◌≤◌, ◌++◌, ◌∷◌, List, length, take, drop, OnOk, IfOk};
ghost use Rattle.route_model.specs.declared.path.Segment.{Segment};
ghost use Rattle.bgp_update.specs.Joining.{weight, count, leading, first_numbers, joined_path};

use route_model::{AsNumbers, Segment};
use std::alloc::{AllocError, Global};

/// How many AS numbers a segment counts: a set counts one.
fn weight_of(s: &Segment) -> usize
    ensures weight { result ≡ weight s.now }
    ensures few { result < 256 }
{
    match s {
        Segment::Set(_) => 1,
        Segment::Sequence(numbers) => numbers.as_slice().len(),
    }
}

/// How many AS numbers a path counts.
pub(crate) fn count_of(path: &[Segment]) -> usize
    requires { length path.now < 65536 }
    ensures { result ≡ count path.now }
{
    let mut sum = 0;
    for s in path {
        sum += weight_of(s);
    }
    sum
}

/// The leading part that counts `needed`: how many whole segments it has, and how many numbers of the next one.
fn place_of(path: &[Segment], needed: usize) -> (usize, usize)
    ensures within { result.0 ≤ length path.now }
    ensures leading { leading path.now needed ≡ take result.0 path.now ++ leading (drop result.0 path.now) result.1 }
    ensures cut { (s : Segment) (after : List Segment) → drop result.0 path.now ≡ s ∷ after → result.1 < weight s }
{
    let mut left = needed;
    for (i, s) in path.iter().enumerate() {
        let weight = weight_of(s);
        if left < weight {
            return (i, left);
        }
        left -= weight;
    }
    (path.len(), left)
}

/// The first `needed` numbers of a segment.
fn first_of(alloc: Global, s: &Segment, needed: usize) -> Result<Segment, AllocError>
    requires { (0 < needed) × (needed < weight s.now) }
    ensures { IfOk result (λ x. x ≡ first_numbers needed s.now) }
{
    match s {
        Segment::Set(_) => unreachable!(),
        Segment::Sequence(numbers) => {
            let front = numbers.as_slice().split_at(needed).0;
            Ok(Segment::Sequence(AsNumbers::new(Vec::from_slice(alloc, front)?)))
        }
    }
}

/// Cuts a path to its leading part that counts `needed`.
fn cut(alloc: Global, path: &mut Vec<Segment>, needed: usize) -> Result<(), AllocError>
    ensures { OnOk result (path.new.items ≡ leading path.old.items needed) }
{
    let (whole, left) = place_of(path, needed);
    if whole == path.len() || left == 0 {
        path.truncate(whole);
        return Ok(());
    }
    let last = first_of(alloc, &path[whole], left)?;
    path.truncate(whole);
    path.push(last)?;
    Ok(())
}

/// The path with the other in place of its end, if the other counts no more. The steps of RFC 6793 section 4.2.3:
///
/// 1. The AS numbers of both are counted, a set as one (RFC 4271 section 9.1.2.2).
/// 2. If AS_PATH counts fewer than AS4_PATH, AS_PATH is the path.
/// 3. Otherwise as many leading numbers of AS_PATH are kept as it counts more: whole segments, and then part of a sequence.
/// 4. AS4_PATH follows them, so the path counts as many numbers as AS_PATH.
pub(crate) fn join(
    alloc: Global,
    own: Vec<Segment>,
    longer: Vec<Segment>,
) -> Result<Vec<Segment>, AllocError>
    requires { (length own.items < 65536) × (length longer.items < 65536) }
    ensures path { IfOk result (λ v. v.items ≡ joined_path own.items longer.items) }
{
    let own_count = count_of(&own);
    let longer_count = count_of(&longer);
    let mut path = own;
    if own_count < longer_count {
        return Ok(path);
    }
    cut(alloc, &mut path, own_count - longer_count)?;
    let mut beyond = longer;
    path.append(&mut beyond)?;
    Ok(path)
}
