//! Laws of the definitions, each the contract of a function that does nothing.

ghost use Rattle.std.specs.Prelude.{ℕ, List};
ghost use Rattle.version_model.specs.Versions.{Version};
ghost use Rattle.version_model.specs.Pages.{Store};
ghost use Rattle.tsb_walk.specs.declared.page_place.PagePlace.{PagePlace as PagePlaceValue};
ghost use Rattle.tsb_walk.specs.Shown.{RepresentsShown};
ghost use Rattle.tsb_walk.specs.PageLooks.{IsBadLook};

/// If the root is valid, no page to which the path of a key comes is bad.
pub fn no_page_is_bad_where_the_root_stands()
    ensures good { (shown : List (List ℕ)) (s : Store) (all : List Version) (root : PagePlaceValue) (key stamp page : ℕ) → RepresentsShown shown s all root
        → IsBadLook shown root key stamp page → ⊥ }
{}
