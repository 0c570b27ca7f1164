// The words that hold links, and the roots that they are.
ghost use Rattle.std.specs.Prelude.{◌≡◌, IsTrue};
ghost use Rattle.wfe_words.specs.Place.{is_valid};
ghost use Rattle.wfe_core.specs.Links.{link_number, root_at as root_of};
ghost use Rattle.wfe_core.specs.Ready.{RootFits};

use wfe_defs::Root;
use wfe_words::Layout;

/// The number of a root's word. A row's next link is place 0 of the row.
#[tactic(auto, using(crate::proofs::Roots::root_at_link))]
pub fn link_word_number(layout: Layout, root: Root) -> u32
    requires valid { IsTrue (is_valid layout) }
    requires there { RootFits layout root }
    ensures number { result ≡ link_number layout root }
    ensures back { root_of layout result ≡ root }
{
    match root {
        Root::Bucket(bucket) => layout.bucket(bucket),
        Root::Head => layout.head(),
        Root::Tail => layout.tail(),
        Root::Next(slot) => layout.row(slot, 0),
    }
}

/// The root that a word is, by the word's number.
#[tactic(auto, using(crate::proofs::Roots::root_by_number, crate::proofs::Ranges::bounds_of))]
pub fn root_at(layout: Layout, word: u32) -> Root
    requires valid { IsTrue (is_valid layout) }
    requires there { RootFits layout (root_of layout word) }
    requires number { link_number layout (root_of layout word) ≡ word }
    ensures { result ≡ root_of layout word }
{
    if word < layout.head() {
        return Root::Bucket(word.saturating_sub(layout.bucket(0)));
    }
    if word == layout.head() {
        return Root::Head;
    }
    if word == layout.tail() {
        return Root::Tail;
    }
    let places = 3 + 2 * layout.config().pairs;
    Root::Next(word.saturating_sub(layout.row(0, 0)) / places)
}
