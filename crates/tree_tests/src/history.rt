//! Questions over small stores of versions, in turns and errands, against worked answers and the plain program.

mod asking;
mod examples;
mod generated;
mod said;
mod store;
