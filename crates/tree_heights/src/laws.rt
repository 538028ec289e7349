//! What holds of the trees that tokens are, each a clause of a function that does nothing.

ghost use Rattle.tree_heights.specs.Laws.{HeightLaw, PartsLaw};

/// How high a source is by the grammar is how high its tree is, and the tree has few parts for its tokens.
pub fn height_laws()
    ensures height { HeightLaw }
    ensures parts { PartsLaw }
{}
