//! Values from outside: worked examples, and octets that encode nothing by kind of fault.

mod admissions;
mod keys;
pub(crate) mod routes;
mod small;
mod wire;
