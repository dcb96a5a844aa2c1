//! Laws of what is shown.

ghost use Rattle.world_view.specs.Scenes.{Scene};
ghost use Rattle.world_view.specs.Shows.{IsWholeScene, ShowsAll};

/// A law; the call does nothing. Of a whole scene each tile of an arena is shown, each mapped chunk is shown with its place,
/// and the bytes in use are those of the headers and of the tiles in use.
#[tactic(auto, using(crate::proofs::Whole::whole_shown))]
pub fn laws()
    ensures { (s : Scene) → IsWholeScene s → ShowsAll s }
{}
