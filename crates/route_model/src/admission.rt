//! Admissions: what a collector's record said at one time.

ghost use Rattle.std.specs.Prelude.{◌≡◌, ◌<◌, false, IfOk, IfSome, IfNone, IsTrue, Any};
ghost use Rattle.std.specs.List.{AllByRecursion};
ghost use Rattle.route_model.specs.Admission.{IsChange, IsLarge, EncodesAdmission};

use crate::admission_measuring::measure;
use crate::admission_reading::read_admission;
use crate::admission_writing::encode;
use crate::change::Change;
use crate::fault::ReadError;
use crate::moment::Moment;
use crate::peer::peer_len;
use std::alloc::{AllocError, Global};
use std::marker::Model;
use thiserror::Error;

/// The maximum length in octets of the encoding of a route in an admission.
pub const MAX_ROUTE_LEN: usize = 3_072;

/// The maximum length in octets of an admission's encoding.
pub const MAX_ADMISSION_LEN: usize = 131_072;

/// Why changes aren't an admission.
#[derive(Clone, Copy, Debug, PartialEq, Eq, Error)]
pub enum AdmissionError {
    /// The encoding of a route has more than [`MAX_ROUTE_LEN`] octets.
    #[error("a route is larger than 3072 octets")]
    RouteTooLarge,
    /// The encoding of the whole has more than [`MAX_ADMISSION_LEN`] octets.
    #[error("an admission is larger than 131072 octets")]
    AdmissionTooLarge,
}

/// What a collector's record said at one time: changes in their order.
#[derive(Debug, Drop)]
pub struct Admission {
    time: Moment,
    changes: Vec<Change>,
    encoded_len: usize,
}

impl Model for Admission {
    ghost use Rattle.std.specs.Prelude.{◌≡◌, length};
    ghost use Rattle.route_model.specs.Admission.{Admitted};

    ghost Value = { Admitted };

    ghost use Rattle.route_model.specs.Admission.{admission_octets, IsAdmission};

    ghost view = { λ a. record { time = a.time; changes = a.changes.items } };

    ghost invariant = { λ a. IsAdmission (record { time = a.time; changes = a.changes.items }) × (a.encoded_len ≡ length (admission_octets (record { time = a.time; changes = a.changes.items }))) };
}

impl Admission {
    ghost use Rattle.std.specs.Prelude.{◌≡◌, ◌<◌, ◌≤◌, ◌↔◌, IfOk, IfSome, Some, Any, length};
    ghost use Rattle.route_model.specs.Admission.{Admitted, IsAdmission, IsLarge, IsTooLarge, admission_octets, EncodesAdmission};

    /// An admission of these changes at this time. A route of more than [`MAX_ROUTE_LEN`] octets is
    /// reported before an admission of more than [`MAX_ADMISSION_LEN`]. No memory is needed, so
    /// nothing else is refused.
    pub fn new(time: Moment, changes: Vec<Change>) -> Result<Admission, AdmissionError>
        ensures admission { IfOk result (λ a. a ≡ record { time = time; changes = changes.items }) }
        ensures valid { IfOk result IsAdmission }
        ensures route_too_large { (result ≡ Err AdmissionError.RouteTooLarge) ↔ Any IsLarge changes.items }
        ensures admission_too_large { (result ≡ Err AdmissionError.AdmissionTooLarge) ↔ IsTooLarge (record { time = time; changes = changes.items }) }
    {
        if !all_fit(changes.as_slice()) {
            return Err(AdmissionError::RouteTooLarge);
        }
        let alloc = *changes.allocator();
        let Some(encoded_len) = measure(alloc, changes.as_slice()) else {
            return Err(AdmissionError::AdmissionTooLarge);
        };
        Ok(Admission {
            time,
            changes,
            encoded_len,
        })
    }

    /// When it was said.
    pub fn time(&self) -> Moment
        ensures time { result ≡ self.now.time }
    {
        self.time
    }

    /// The same changes, said at another time.
    pub fn at(self, time: Moment) -> Admission
        ensures admission { result ≡ record { time = time; changes = self.changes } }
    {
        Admission { time, ..self }
    }

    /// What was said, in order.
    pub fn changes(&self) -> &[Change]
        ensures changes { result.now ≡ self.now.changes }
        ensures valid { IsAdmission self.now }
    {
        self.changes.as_slice()
    }

    /// The same admission; its routes are shared.
    pub fn share(&self, alloc: Global) -> Result<Admission, AllocError>
        ensures same { IfOk result (λ admission. admission ≡ self.now) }
    {
        Ok(Admission {
            time: self.time,
            changes: share_all(alloc, self.changes.as_slice())?,
            encoded_len: self.encoded_len,
        })
    }

    /// The length of the encoding in octets, at most [`MAX_ADMISSION_LEN`]. It is known beforehand.
    pub fn encoded_len(&self) -> usize
        ensures len { result ≡ length (admission_octets self.now) }
        ensures few { result ≤ 131072 }
    {
        self.encoded_len
    }

    /// The unique encoding of the admission.
    pub fn encode(&self, alloc: Global) -> Result<Vec<u8>, AllocError>
        ensures encoding { IfOk result (λ v. EncodesAdmission self.now v.items) }
    {
        let time = self.time.number();
        let encoding = encode(alloc, self.encoded_len, time, self.changes.as_slice())?;
        Ok(encoding)
    }

    /// The admission that these octets encode, or none.
    pub fn decode(alloc: Global, octets: &[u8]) -> Result<Option<Admission>, AllocError>
        ensures found { IfOk result (λ o. IfSome o (λ a. EncodesAdmission a octets.now)) }
        ensures only { (a : Admitted) → EncodesAdmission a octets.now → IfOk result (λ o. o ≡ Some a) }
    {
        match read_admission(alloc, octets) {
            Ok((time, changes)) => encoded_so(alloc, time, changes, octets),
            Err(ReadError::Unencoded) => Ok(None),
            Err(ReadError::Memory) => Err(AllocError),
        }
    }
}

/// The admission, where the octets are its encoding.
fn encoded_so(
    alloc: Global,
    time: u64,
    changes: Vec<Change>,
    octets: &[u8],
) -> Result<Option<Admission>, AllocError>
    ensures found { IfOk result (λ o. IfSome o (λ a. EncodesAdmission a octets.now)) }
    ensures same { IfOk result (λ o. IfSome o (λ a. a ≡ record { time = time; changes = changes.items })) }
    ensures none { IfOk result (λ o. IfNone o (EncodesAdmission (record { time = time; changes = changes.items }) octets.now → ⊥)) }
{
    let Some(time) = Moment::new(time) else {
        return Ok(None);
    };
    if octets.len() > MAX_ADMISSION_LEN || !all_fit(changes.as_slice()) {
        return Ok(None);
    }
    let encoding = encode(alloc, octets.len(), time.number(), changes.as_slice())?;
    if encoding.as_slice() != octets {
        return Ok(None);
    }
    Ok(Some(Admission {
        time,
        changes,
        encoded_len: octets.len(),
    }))
}

/// The same changes; their routes are shared.
fn share_all(alloc: Global, changes: &[Change]) -> Result<Vec<Change>, AllocError>
    ensures { IfOk result (λ shared. shared.items ≡ changes.now) }
{
    let mut shared = Vec::with_capacity(alloc, changes.len())?;
    for change in changes {
        shared.push(change.share()?)?;
    }
    Ok(shared)
}

/// Whether the change's route is within an admission's limit.
fn fits(c: &Change) -> bool
    ensures valid { IsTrue result → IsChange c.now }
    ensures large { result ≡ false → IsLarge c.now }
{
    let _peer = peer_len(&c.peer());
    match c {
        Change::Announce(_, prefix, route) => {
            let _prefix = prefix.front();
            route.encoding().len() <= MAX_ROUTE_LEN
        }
        Change::Withdraw(_, prefix) => {
            let _prefix = prefix.front();
            true
        }
        Change::Down(_) => true,
    }
}

fn all_fit(changes: &[Change]) -> bool
    ensures valid { IsTrue result → AllByRecursion IsChange changes.now }
    ensures large { result ≡ false → Any IsLarge changes.now }
{
    for c in changes {
        if !fits(c) {
            return false;
        }
    }
    true
}
