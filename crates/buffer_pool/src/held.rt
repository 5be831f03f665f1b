//! Pages in memory under their numbers.
ghost use Rattle.std.specs.Prelude.{◌≡◌, ◌<◌, ◌↔◌, ◌⊎◌, ℕ, List, Some, IfSome, IsSome, IsTrue, OnErr, OnOk, length, nat_eq, slice_get, slice_set};
ghost use Rattle.std.specs.Ordering.{nat_cmp};
ghost use Rattle.std.specs.BTreeMap.{get};
ghost use Rattle.std.specs.Map.{lookup};
ghost use Rattle.page_journal.specs.Layout.{pages_of};
ghost use Rattle.page_journal.specs.Recovers.{laid, AreBelow, IsListed};
ghost use Rattle.buffer_pool.specs.Held.{AreCommitted, CachesPages};
ghost use Rattle.buffer_pool.specs.inner.Taking.{Has, IsDropped};

use disk_models::Page;
use lru::LruCache;
use std::alloc::AllocError;
use std::collections::BTreeMap;

// Adds a page under its number, in place of an older one. If memory runs out, there is none afterwards.
fn take_in(pages: &mut BTreeMap<u64, Page>, n: u64, page: Page)
    ensures has { (m : ℕ) → IfSome (get nat_cmp pages.new m) (Has pages.old n page m) }
    ensures waits { (m : ℕ) → IsSome (get nat_cmp pages.old m) → IsSome (get nat_cmp pages.new m) }
    ensures only { (m : ℕ) → IsSome (get nat_cmp pages.new m) → (m ≡ n) ⊎ IsSome (get nat_cmp pages.old m) }
{
    pages.insert(n, page).ok();
}

// Drops a page. The contract of the cache's `len` implies that no other one has the number.
fn drop_page(pages: &mut LruCache<u64, Page>, n: u64)
    ensures dropped { IsDropped n pages.old pages.new }
    ensures capacity { pages.new.cap ≡ pages.old.cap }
{
    let _distinct = pages.len();
    pages.pop(&n);
}

// Keeps a committed page. If memory runs out, the pages stay as they were.
pub fn keep(pages: &mut LruCache<u64, Page>, n: u64, page: Page) -> Result<(), AllocError>
    ensures kept { OnOk result (IsSome (lookup (nat_eq n) pages.new.entries)) }
    ensures unchanged { OnErr result (pages.new ≡ pages.old) }
    ensures shown { (map : List (List ℕ)) → AreCommitted pages.old map → slice_get map n ≡ Some page → AreCommitted pages.new map }
    ensures capacity { pages.new.cap ≡ pages.old.cap }
{
    pages.put(n, page)?;
    Ok(())
}

// Makes a page the most recently used one. Returns whether it is there.
pub fn promote(pages: &mut LruCache<u64, Page>, n: u64) -> bool
    ensures found { IsTrue result ↔ IsSome (lookup (nat_eq n) pages.old.entries) }
    ensures kept { IsTrue result → IsSome (lookup (nat_eq n) pages.new.entries) }
    ensures shown { (map : List (List ℕ)) → AreCommitted pages.old map → AreCommitted pages.new map }
    ensures capacity { pages.new.cap ≡ pages.old.cap }
{
    pages.promote(&n)
}

// Replaces a committed page.
fn take_page(
    committed: &mut BTreeMap<u64, Page>,
    cached: &mut LruCache<u64, Page>,
    n: u64,
    page: Page,
)
    ensures holds { (map : List (List ℕ)) → n < length map → CachesPages committed.old cached.old map → CachesPages committed.new cached.new (slice_set map n page) }
    ensures waits { (m : ℕ) → IsSome (get nat_cmp committed.old m) → IsSome (get nat_cmp committed.new m) }
    ensures only { (m : ℕ) → IsSome (get nat_cmp committed.new m) → (m ≡ n) ⊎ IsSome (get nat_cmp committed.old m) }
    ensures capacity { cached.new.cap ≡ cached.old.cap }
{
    drop_page(cached, n);
    take_in(committed, n, page);
}

// Replaces committed pages.
pub fn take_all(
    committed: &mut BTreeMap<u64, Page>,
    cached: &mut LruCache<u64, Page>,
    images: Vec<(u64, Page)>,
)
    ensures holds { (map : List (List ℕ)) → AreBelow (length map) (pages_of images.items) → CachesPages committed.old cached.old map → CachesPages committed.new cached.new (laid images.items map) }
    ensures waits { (m : ℕ) → IsSome (get nat_cmp committed.old m) → IsSome (get nat_cmp committed.new m) }
    ensures only { (m : ℕ) → IsSome (get nat_cmp committed.new m) → IsListed m (pages_of images.items) ⊎ IsSome (get nat_cmp committed.old m) }
    ensures capacity { cached.new.cap ≡ cached.old.cap }
{
    for (n, page) in images {
        take_page(committed, cached, n, page);
    }
}
