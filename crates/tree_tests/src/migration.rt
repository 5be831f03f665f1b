//! Leaves and pasts of columns that become blocks, asked at each stamp beside a plain list.

mod asking;
mod columns;
mod leaves;
mod refusals;
mod rows;
