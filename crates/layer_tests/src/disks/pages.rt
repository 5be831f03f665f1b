//! Pages and blocks, each call once.

use crate::be;
use disk_models::{BLOCK_SIZE, Block, Fault, PAGE_SIZE, Page};

/// Whether octets begin with one and end with another.
fn are_ends(octets: &[u8], first: u8, last: u8) -> bool {
    octets.len() == 16_384 && octets.first() == Some(&first) && octets.last() == Some(&last)
}

fn are_zeros(octets: &[u8]) -> bool {
    octets.iter().all(|octet| *octet == 0)
}

#[test]
fn pages(rt: HostRuntime) {
    let mut page = Page::new(rt.alloc()).expect(&rt, "a page");
    be(
        &rt,
        PAGE_SIZE == 16_384 && are_ends(page.octets(), 0, 0),
        "a page of zeros",
    );
    page.put(16_380, b"last");
    page.octets_mut()[0] = 9;
    be(&rt, page.octets().ends_with(b"\0last"), "the last octets");
    let copy = page.clone().expect(&rt, "a copy");
    page.copy_from(&Page::from_slice(rt.alloc(), &[1; 16_384]).expect(&rt, "ones"));
    be(
        &rt,
        are_ends(page.octets(), 1, 1) && are_ends(copy.octets(), 9, b't'),
        "a copy stays",
    );
    page.clear();
    be(&rt, are_zeros(page.octets()), "a page that is cleared");
}

#[test]
fn blocks(rt: HostRuntime) {
    let mut block = Block::new(rt.alloc()).expect(&rt, "a block");
    be(
        &rt,
        BLOCK_SIZE == 16_384 && are_ends(block.octets(), 0, 0),
        "a block of zeros",
    );
    block.put(16_380, b"last");
    block.octets_mut()[0] = 9;
    be(&rt, block.octets().ends_with(b"\0last"), "the last octets");
    let copy = block.clone().expect(&rt, "a copy");
    block.copy_from(&Block::from_slice(rt.alloc(), &[1; 16_384]).expect(&rt, "ones"));
    be(
        &rt,
        are_ends(block.octets(), 1, 1) && are_ends(copy.octets(), 9, b't'),
        "a copy stays",
    );
    block.clear();
    be(&rt, are_zeros(block.octets()), "a block that is cleared");
}

#[test]
fn a_fault_has_a_text(rt: HostRuntime) {
    let text = format!(in rt.alloc(); "{}", Fault).expect(&rt, "a text");
    be(&rt, text.as_str() == "the device failed", "the text");
}
