//! Looks that begin at current pages of a tree built by hand, and go on in its blocks.

mod blocks;
mod borders;
mod pages;
mod tree;
