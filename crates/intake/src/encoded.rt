//! An admission with its encoding.
use route_model::{Admission, Moment, encodings_are_one};
use std::alloc::{AllocError, Global};
use std::marker::Model;

/// An admission that was decoded, with its encoding. A caller who reads a ring's front again and again keeps it: if the same octets still stand
/// there, they aren't decoded again. The encoding may have another time than the admission: that of an older unit.
#[derive(Drop)]
pub struct Encoded {
    admission: Admission,
    encoded: Moment,
    octets: Vec<u8>,
}

impl Model for Encoded {
    ghost use Rattle.route_model.specs.Admission.{Admitted, EncodesAdmission};

    ghost Value = { Admitted };

    ghost view = { λ a. a.admission };

    ghost invariant = { λ a. EncodesAdmission (record { time = a.encoded; changes = a.admission.changes }) a.octets.items };
}

impl Encoded {
    ghost use Rattle.std.specs.Prelude.{◌≡◌, Some, IfOk, IfSome};
    ghost use Rattle.route_model.specs.Admission.{Admitted, EncodesAdmission};

    /// The admission.
    pub fn admission(&self) -> &Admission
        ensures { result.now ≡ self.now }
    {
        &self.admission
    }

    /// The same admission at another time than its encoding has.
    pub fn at(self, time: Moment) -> Encoded
        ensures admission { result ≡ record { time = time; changes = self.changes } }
    {
        let Encoded {
            admission,
            encoded,
            octets,
        } = self;
        Encoded {
            admission: admission.at(time),
            encoded,
            octets,
        }
    }

    /// The admission that these octets encode, or none. It is the kept one, if they are its own.
    pub(crate) fn decode(
        alloc: Global,
        octets: Vec<u8>,
        kept: Option<Encoded>,
    ) -> Result<Option<Encoded>, AllocError>
        ensures found { IfOk result (λ o. IfSome o (λ a. EncodesAdmission a octets.items)) }
        ensures only { (a : Admitted) → EncodesAdmission a octets.items → IfOk result (λ o. o ≡ Some a) }
    {
        if let Some(kept) = kept {
            if kept.octets == octets {
                encodings_are_one();
                let encoded = kept.encoded;
                return Ok(Some(kept.at(encoded)));
            }
        }
        let Some(admission) = Admission::decode(alloc, octets.as_slice())? else {
            return Ok(None);
        };
        let encoded = admission.time();
        Ok(Some(Encoded {
            admission,
            encoded,
            octets,
        }))
    }
}
