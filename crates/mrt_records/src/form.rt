//! The types and subtypes of records that are read (RFC 6396 section 4, and section 3 for type 17).

ghost use Rattle.std.specs.Prelude.{◌≡◌, IfSome, IfNone};
ghost use Rattle.mrt_records.specs.Bodies.{IsListedType};
ghost use Rattle.mrt_records.specs.declared.form.Form.{Form};

use route_model::wire::{AsWidth, Family};

/// What a record of a listed type and subtype represents.
#[derive(Clone, Copy, Debug, PartialEq, Eq)]
pub enum Form {
    StateChange(AsWidth),
    Message(AsWidth),
    PeerTable,
    Rib(Family),
}

const TABLE_DUMP_V2: u16 = 13;

const BGP4MP: u16 = 16;

const BGP4MP_ET: u16 = 17;

/// The form of a record of this type and subtype, or none if these aren't read.
pub(crate) fn form_of(kind: u16, subtype: u16) -> Option<Form>
    ensures listed { IfSome result (λ form. IsListedType kind subtype form) }
    ensures other { IfNone result ((form : Form) → IsListedType kind subtype form → ⊥) }
{
    match kind {
        BGP4MP | BGP4MP_ET => session_form(subtype),
        TABLE_DUMP_V2 => table_form(subtype),
        _ => None,
    }
}

fn session_form(subtype: u16) -> Option<Form>
    ensures listed { IfSome result (λ form. IsListedType 16 subtype form × IsListedType 17 subtype form) }
    ensures other { IfNone result ((form : Form) → (IsListedType 16 subtype form → ⊥) × (IsListedType 17 subtype form → ⊥)) }
{
    match subtype {
        0 => Some(Form::StateChange(AsWidth::Two)),
        1 => Some(Form::Message(AsWidth::Two)),
        4 => Some(Form::Message(AsWidth::Four)),
        5 => Some(Form::StateChange(AsWidth::Four)),
        _ => None,
    }
}

fn table_form(subtype: u16) -> Option<Form>
    ensures listed { IfSome result (λ form. IsListedType 13 subtype form) }
    ensures other { IfNone result ((form : Form) → IsListedType 13 subtype form → ⊥) }
{
    match subtype {
        1 => Some(Form::PeerTable),
        2 => Some(Form::Rib(Family::Ipv4)),
        4 => Some(Form::Rib(Family::Ipv6)),
        _ => None,
    }
}
