//! A tree as a store of versions that is looked into.
ghost use Rattle.std.specs.Prelude.{◌≡◌, ◌≤◌, ℕ, List, Option, IfOk, IfErr, Err};
ghost use Rattle.page_tx.specs.Start.{Start};
ghost use Rattle.tsb_walk.specs.Looked.{IsDescended, DescendsAt};
ghost use Rattle.tsb_walk.specs.Refusals.{OnlyReads, LookRefusal};
ghost use Rattle.tsb_tree.specs.Opened.{RepresentsVersions};
ghost use Rattle.version_model.specs.Blocks.{BlockNode};
ghost use Rattle.version_model.specs.Versions.{Version};
ghost use Rattle.route_history.specs.Blame.{BlamesNone};

use crate::tree::TreePlace;
use page_tx::Pages;
use route_history::Versions;
use route_model::Key;
use std::alloc::Global;
use tsb_node::key_fits;
use tsb_walk::{Descended, Looked, NodeError, PagePlace, Parted};
use version_model::Stamp;

/// The pages of a transaction, and where a tree lies in them.
#[derive(Drop)]
pub struct Tree<P: Drop> {
    pub pages: P,
    place: TreePlace,
    alloc: Global,
    ghost some: { 1 ≤ place.level },
}

impl<P: Pages + Drop> Versions for Tree<P> {
    ghost use Rattle.tsb_tree.specs.Opened.{RepresentsVersions};

    ghost represents_all = { λ tree blocks all. RepresentsVersions P.Pages tree.pages blocks all tree.place.root tree.place.level };

    fn next(&mut self, from: Key, stamp: Stamp) -> Result<Looked, NodeError> {
        key_fits(from);
        let root = PagePlace::root(self.place.root, self.place.level);
        tsb_walk::next(&mut self.pages, self.alloc, &root, from, stamp)
    }

    fn part(&mut self, key: Key, from: Stamp) -> Result<Parted, NodeError> {
        key_fits(key);
        let root = PagePlace::root(self.place.root, self.place.level);
        tsb_walk::part(&mut self.pages, self.alloc, &root, key, from)
    }
}

impl<P: Pages + Drop> Tree<P> {
    /// A tree at a place in pages. Its lookups allocate from `alloc`.
    pub fn new(alloc: Global, pages: P, place: TreePlace) -> Tree<P>
        requires some { 1 ≤ place.level }
        ensures pages { result.pages ≡ pages }
        ensures place { result.place ≡ place }
    {
        Tree {
            pages,
            place,
            alloc,
        }
    }

    /// Its pages.
    pub fn into_pages(self) -> P
        ensures { result ≡ self.pages }
    {
        self.pages
    }
}
