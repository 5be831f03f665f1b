//! Images of a ring's pages, into which a batch is encoded before they are laid.
ghost use Rattle.std.specs.Prelude.{◌≡◌, ◌<◌, ◌≤◌, ◌↔◌, ◌+◌, ◌*◌, ◌/◌, ◌++◌, ◌∷◌, [], ℕ, List, length, take, drop, flat_map, slice_get, slice_set, OnOk, IfOk, IfErr, IsErrOf, IsTrue, Some};
ghost use Rattle.std.specs.List.{AllByRecursion};
ghost use Rattle.route_model.specs.Admission.{IsAdmission};
ghost use Rattle.page_journal.specs.Layout.{Image, pages_of};
ghost use Rattle.page_journal.specs.Recovers.{laid, IsListed};
ghost use Rattle.page_tx.specs.Start.{Start};
ghost use Rattle.intake.specs.Ring.{page_at, wrapped, entry, octets_for, size_of, IsRing, HasOctets, HasPlaceAfter};
ghost use Rattle.intake.specs.Calls.{OnlyReads, PageRefusal, most_pages};
ghost use Rattle.intake.specs.inner.Drafts.{numbers_from, image_of, AreFrom, Covers, Fills, Writes};

use crate::ring::{PAGE, Ring, wrap};
use disk_models::Page;
use page_tx::{PageError, Pages};
use route_model::Admission;
use std::alloc::{AllocError, Global};

// A copy of a page as it is shown.
fn copy_of<P: Pages>(pages: &mut P, n: u64) -> Result<Page, PageError>
    requires { n < P.homes pages.old }
    ensures copy { IfOk result (λ page. (start : Start) (shown : List (List ℕ)) → P.shows pages.old start shown → page ≡ page_at shown n) }
    ensures refused { IfErr result (PageRefusal (P.down pages.old)) }
    ensures same { OnlyReads P.Pages pages.old pages.new (IsErrOf result PageError.Fault) }
{
    pages.fetch(n)?;
    let Some(page) = pages.page(n) else {
        unreachable!();
    };
    Ok(page.clone()?)
}

// Puts one more image at the end.
fn add_image(images: &mut Vec<(u64, Page)>, n: u64, page: Page) -> Result<(), AllocError>
    ensures { OnOk result (images.new.items ≡ images.old.items ++ (n, page) ∷ []) }
{
    images.push((n, page))?;
    Ok(())
}

// Whether octets are all that the k-th page has on which they lie, from a place in the first of these pages on.
fn is_filled(from: u64, octets: u64, k: u64) -> bool
    requires from { from < 16384 }
    requires few { octets ≤ 16384 * 65535 }
    requires page { k < 65535 }
    ensures { IsTrue result ↔ Fills from octets k }
{
    from <= PAGE * k && PAGE * (k + 1) <= from + octets
}

// A page to be drafted: of zeros where all of its octets will be put, and else a copy of the one that is shown.
fn begun_page<P: Pages>(
    alloc: Global,
    pages: &mut P,
    n: u64,
    filled: bool,
) -> Result<Page, PageError>
    requires { n < P.homes pages.old }
    ensures copy { IfOk result (λ page. (IsTrue filled → ⊥) → (start : Start) (shown : List (List ℕ)) → P.shows pages.old start shown → page ≡ page_at shown n) }
    ensures refused { IfErr result (PageRefusal (P.down pages.old)) }
    ensures same { OnlyReads P.Pages pages.old pages.new (IsErrOf result PageError.Fault) }
{
    if filled {
        return Ok(Page::new(alloc)?);
    }
    copy_of(pages, n)
}

// Images of `count` pages of a ring, from the one on that has the place after the used octets. Those pages aren't copied
// whose octets are all among the first `octets` after the used ones.
fn images_from<P: Pages>(
    alloc: Global,
    pages: &mut P,
    ring: Ring,
    at: u64,
    octets: u64,
    count: u64,
) -> Result<Vec<(u64, Page)>, PageError>
    requires ring { IsRing (P.homes pages.old) ring }
    requires at { at ≡ wrapped (size_of ring) (ring.first + ring.used) }
    requires room { ring.used + octets ≤ size_of ring }
    requires few { count ≤ ring.count }
    ensures numbers { IfOk result (λ images. pages_of images.items ≡ numbers_from ring.low ring.count (at / 16384) count) }
    ensures stood { IfOk result (λ images. (start : Start) (shown : List (List ℕ)) (stood : List ℕ) → P.shows pages.old start shown → length stood ≡ ring.used → HasOctets shown ring stood → HasOctets (laid images.items shown) ring stood) }
    ensures refused { IfErr result (PageRefusal (P.down pages.old)) }
    ensures same { OnlyReads P.Pages pages.old pages.new (IsErrOf result PageError.Fault) }
{
    let begun = at / PAGE;
    let mut images = Vec::with_capacity(alloc, count as usize)?;
    for k in 0..count {
        let number = ring.low + wrap(ring.count, begun + k);
        let filled = is_filled(at % PAGE, octets, k);
        let page = begun_page(alloc, pages, number, filled)?;
        add_image(&mut images, number, page)?;
    }
    Ok(images)
}

// Which of the images of a ring's pages from one on is that of a page.
fn place_of(count: u64, begun: u64, page: u64) -> usize
    requires few { count ≤ 65535 }
    requires begun { begun < count }
    requires page { page < count }
    ensures { result ≡ image_of count begun page }
{
    if page < begun {
        (page + count - begun) as usize
    } else {
        (page - begun) as usize
    }
}

// Puts octets into an image.
fn put_into(images: &mut Vec<(u64, Page)>, k: usize, from: usize, octets: &[u8])
    requires inside { k < length images.old.items }
    requires room { from + length octets.now ≤ 16384 }
    ensures whole { (image : Image) → slice_get images.old.items k ≡ Some image → length image.1 ≡ 16384 }
    ensures put { (image : Image) → slice_get images.old.items k ≡ Some image → images.new.items ≡ slice_set images.old.items k (image.0, take from image.1 ++ octets.now ++ drop (from + length octets.now) image.1) }
{
    let _whole = images[k].1.octets();
    images[k].1.put(from, octets);
}

// Puts a first piece of the octets into the image of the page with the place after the used octets. Returns how many that are.
fn put_piece(images: &mut Vec<(u64, Page)>, ring: Ring, begun: u64, octets: &[u8]) -> usize
    requires few { ring.count ≤ 65535 }
    requires start { ring.first < size_of ring }
    requires begun { begun < ring.count }
    requires some { 0 < length octets.now }
    requires room { ring.used + length octets.now ≤ size_of ring }
    requires numbers { AreFrom ring.low ring.count begun (pages_of images.old.items) }
    requires covers { Covers ring begun (length (pages_of images.old.items)) (length octets.now) }
    ensures some { 0 < result }
    ensures few { result ≤ length octets.now }
    ensures numbers { pages_of images.new.items ≡ pages_of images.old.items }
    ensures written { Writes ring (take result octets.now) images.old.items images.new.items }
{
    let at = wrap(PAGE * ring.count, ring.first + ring.used);
    let from = (at % PAGE) as usize;
    let len = octets.len().min(16_384 - from);
    let k = place_of(ring.count, begun, at / PAGE);
    put_into(images, k, from, &octets[..len]);
    len
}

// Puts octets into the images, after the used ones.
fn put_octets(images: &mut Vec<(u64, Page)>, ring: Ring, begun: u64, octets: &[u8])
    requires few { ring.count ≤ 65535 }
    requires start { ring.first < size_of ring }
    requires begun { begun < ring.count }
    requires room { ring.used + length octets.now ≤ size_of ring }
    requires numbers { AreFrom ring.low ring.count begun (pages_of images.old.items) }
    requires covers { Covers ring begun (length (pages_of images.old.items)) (length octets.now) }
    ensures numbers { pages_of images.new.items ≡ pages_of images.old.items }
    ensures written { Writes ring octets.now images.old.items images.new.items }
{
    let mut done = 0;
    while done < octets.len() {
        let beyond = Ring {
            used: ring.used + done as u64,
            ..ring
        };
        done += put_piece(images, beyond, begun, &octets[done..]);
    }
}

// Puts an admission into the images, after the used octets.
fn put_entry(
    alloc: Global,
    images: &mut Vec<(u64, Page)>,
    ring: Ring,
    begun: u64,
    admission: &Admission,
) -> Result<(), AllocError>
    requires few { ring.count ≤ 65535 }
    requires start { ring.first < size_of ring }
    requires begun { begun < ring.count }
    requires room { ring.used + length (entry admission.now) ≤ size_of ring }
    requires numbers { AreFrom ring.low ring.count begun (pages_of images.old.items) }
    requires covers { Covers ring begun (length (pages_of images.old.items)) (length (entry admission.now)) }
    ensures numbers { OnOk result (pages_of images.new.items ≡ pages_of images.old.items) }
    ensures written { OnOk result (Writes ring (entry admission.now) images.old.items images.new.items) }
    ensures valid { OnOk result (IsAdmission admission.now) }
{
    let octets = admission.encode(alloc)?;
    let len = admission.encoded_len() as u32;
    put_octets(images, ring, begun, &len.to_be_bytes());
    let beyond = Ring {
        used: ring.used + 4,
        ..ring
    };
    put_octets(images, beyond, begun, &octets);
    Ok(())
}

// Puts a batch into the images, after the used octets.
fn put_batch(
    alloc: Global,
    images: &mut Vec<(u64, Page)>,
    ring: Ring,
    begun: u64,
    batch: &[Admission],
) -> Result<(), AllocError>
    requires few { ring.count ≤ 65535 }
    requires start { ring.first < size_of ring }
    requires begun { begun < ring.count }
    requires room { ring.used + octets_for batch.now ≤ size_of ring }
    requires numbers { AreFrom ring.low ring.count begun (pages_of images.old.items) }
    requires covers { Covers ring begun (length (pages_of images.old.items)) (octets_for batch.now) }
    ensures numbers { OnOk result (pages_of images.new.items ≡ pages_of images.old.items) }
    ensures written { OnOk result (Writes ring (flat_map entry batch.now) images.old.items images.new.items) }
    ensures valid { OnOk result (AllByRecursion IsAdmission batch.now) }
{
    let mut used = ring.used;
    for admission in batch {
        put_entry(alloc, images, Ring { used, ..ring }, begun, admission)?;
        used += 4 + admission.encoded_len() as u64;
    }
    Ok(())
}

// The number of pages that `octets` octets lie on, from a place in the first of them on.
fn page_count(from: u64, octets: u64) -> u64
    requires from { from < 16384 }
    requires few { octets ≤ 16384 * 65535 }
    ensures all { 0 < octets → from + octets ≤ 16384 * result }
    ensures least { 0 < octets → 16384 * result < 16384 + (from + octets) }
    ensures none { octets ≡ 0 → result ≡ 0 }
    ensures few { result ≤ most_pages octets }
{
    if octets == 0 {
        0
    } else {
        (from + octets - 1) / PAGE + 1
    }
}

// Images of the pages of a ring on which a batch lies, with the batch after the used octets. It takes `octets` octets.
pub fn draft<P: Pages>(
    alloc: Global,
    pages: &mut P,
    ring: Ring,
    octets: u64,
    batch: &[Admission],
) -> Result<Vec<(u64, Page)>, PageError>
    requires ring { IsRing (P.homes pages.old) ring }
    requires octets { octets ≡ octets_for batch.now }
    requires room { ring.used + octets ≤ size_of ring }
    ensures numbers { IfOk result (λ images. (begun : ℕ) × (begun < ring.count) × AreFrom ring.low ring.count begun (pages_of images.items)) }
    ensures beyond { IfOk result (λ images. (n : ℕ) → IsListed n (pages_of images.items) ↔ HasPlaceAfter ring octets n) }
    ensures few { IfOk result (λ images. length images.items ≤ most_pages octets) }
    ensures represents_all { IfOk result (λ images. (start : Start) (shown : List (List ℕ)) (stood : List ℕ) → P.shows pages.old start shown → length stood ≡ ring.used → HasOctets shown ring stood → HasOctets (laid images.items shown) ring (stood ++ flat_map entry batch.now)) }
    ensures valid { OnOk result (AllByRecursion IsAdmission batch.now) }
    ensures refused { IfErr result (PageRefusal (P.down pages.old)) }
    ensures same { OnlyReads P.Pages pages.old pages.new (IsErrOf result PageError.Fault) }
{
    let at = wrap(PAGE * ring.count, ring.first + ring.used);
    let count = page_count(at % PAGE, octets).min(ring.count);
    let mut images = images_from(alloc, pages, ring, at, octets, count)?;
    put_batch(alloc, &mut images, ring, at / PAGE, batch)?;
    Ok(images)
}
