//! What a new archive begins with, in memory: its head, and its first pages.

ghost use Rattle.std.specs.Prelude.{◌≡◌, ◌≤◌, ◌<◌, ◌+◌, ◌^◌, ℕ, List, length, replicate, IfOk};
ghost use Rattle.disk_models.specs.Once.{OnceState, settled_in};
ghost use Rattle.page_journal.specs.Layout.{pages_of};
ghost use Rattle.page_journal.specs.Recovers.{laid, AreBelow};
ghost use Rattle.interleaving_core.specs.Steps.{empty};
ghost use Rattle.archive_head.specs.Head.{IsHead};
ghost use Rattle.archive_pages.specs.Places.{AreSettings, tree_low};
ghost use Rattle.disk_archive.specs.Mirrors.{Mirrors};
ghost use Rattle.disk_archive.specs.inner.Creating.{bare_head, bare_lane};
ghost use Rattle.disk_archive.specs.inner.Planning.{Headed};

use archive_head::{Head, Lane};
use archive_pages::Settings;
use disk_models::Page;
use route_model::{Mark, Moment};
use sequencer::Sequencer;
use std::alloc::{AllocError, Global};
use tsb_tree::first_images;

/// All that a new archive has in memory.
#[derive(Drop)]
pub(crate) struct Empty {
    pub(crate) head: Head,
    pub(crate) sequencer: Sequencer,
    /// Images of the pages that aren't as they were on the disk: two of the tree, and the head's.
    pub(crate) images: Vec<(u64, Page)>,
}

// What the head has of `collectors` collectors that gave nothing.
fn make_lanes(alloc: Global, collectors: u8) -> Result<Vec<Lane>, AllocError>
    ensures lanes { IfOk result (λ lanes. lanes.items ≡ replicate collectors bare_lane) }
{
    let mut lanes = Vec::with_capacity(alloc, usize::from(collectors))?;
    for _ in 0..collectors {
        lanes.push(Lane {
            offered: 0,
            admitted: 0,
            mark: Mark::at(Moment::from(0u32)),
            first: 0,
            used: 0,
            since: 0,
        })?;
    }
    Ok(lanes)
}

// The head of an archive to which nothing was given.
fn make_head(alloc: Global, settings: Settings, block: u64) -> Result<Head, AllocError>
    requires settings { AreSettings settings }
    ensures head { IfOk result (λ head. head ≡ bare_head settings block) }
    ensures valid { IfOk result (λ head. IsHead head) }
{
    let low = settings.tree_low();
    let lanes = make_lanes(alloc, settings.collectors)?;
    Ok(Head {
        applied: 0,
        last: Moment::from(0u32),
        begun: 0,
        fresh: low + 2,
        block,
        root: low,
        lanes,
    })
}

// The pages of a tree of no version, and that of the head.
fn make_images(
    alloc: Global,
    settings: Settings,
    head: &Head,
) -> Result<Vec<(u64, Page)>, AllocError>
    requires settings { AreSettings settings }
    requires valid { IsHead head.now }
    requires empty { (block : ℕ) × (head.now ≡ bare_head settings block) }
    ensures below { IfOk result (λ images. (homes : ℕ) → tree_low settings + 2 ≤ homes → AreBelow homes (pages_of images.items)) }
    ensures headed { IfOk result (λ images. (count : ℕ) (o : OnceState) (shown : List (List ℕ)) → tree_low settings + 2 ≤ length shown → Headed count settings (settled_in o) head.now (laid images.items shown) (empty settings.collectors)) }
{
    let mut images = first_images(alloc, settings.tree_low())?;
    let page = head.write(alloc)?;
    images.push((0, page))?;
    Ok(images)
}

/// What an archive of these settings begins with, if no block before this one is blank.
pub(crate) fn make_empty(alloc: Global, settings: Settings, block: u64) -> Result<Empty, AllocError>
    requires settings { AreSettings settings }
    ensures head { IfOk result (λ made. made.head ≡ bare_head settings block) }
    ensures below { IfOk result (λ made. (homes : ℕ) → tree_low settings + 2 ≤ homes → AreBelow homes (pages_of made.images.items)) }
    ensures headed { IfOk result (λ made. (count : ℕ) (o : OnceState) (shown : List (List ℕ)) → tree_low settings + 2 ≤ length shown → Headed count settings (settled_in o) made.head (laid made.images.items shown) (empty settings.collectors)) }
    ensures lanes { IfOk result (λ made. length made.head.lanes ≡ settings.collectors) }
    ensures numbers { IfOk result (λ made. length made.sequencer ≡ settings.collectors) }
    ensures mirrors { IfOk result (λ made. Mirrors made.sequencer (empty settings.collectors)) }
{
    let head = make_head(alloc, settings, block)?;
    let images = make_images(alloc, settings, &head)?;
    let sequencer = Sequencer::new(alloc, settings.collectors)?;
    Ok(Empty {
        head,
        sequencer,
        images,
    })
}
