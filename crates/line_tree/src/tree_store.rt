//! The store that a program runs on.
ghost use Rattle.std.specs.Prelude.{◌≡◌};
ghost use Rattle.line_lists.specs.Lists.{AreLines};
ghost use Rattle.line_lists.specs.Texts.{content_of};
ghost use Rattle.line_tree.specs.Trees.{contents};
ghost use Rattle.text_model.specs.Content.{Content};

use crate::tree::LineTree;
use crate::tree_lines::TreeLines;
use line_lists::LineStore;
use raw_nodes::Steps;
use text_model::TextStore;

/// A text that is kept as a balanced tree of its lines, and as nothing else.
pub type TreeStore = LineStore<TreeLines>;

/// A text whose lines are in a tree, and in nothing else.
pub trait LendsTree {
    /// The text.
    ghost content: { Self → Content };

    /// The tree, lent: each of its lines has one newline, at its end, and joined they are the text.
    fn tree(&self) -> &LineTree<Steps>
        ensures lines { AreLines (contents result.now.lines) }
        ensures content { content_of (contents result.now.lines) ≡ content self.now };
}

impl LendsTree for TreeStore {
    ghost content = { λ store. ⟦<LineStore<TreeLines> as TextStore>⟧.content store };

    fn tree(&self) -> &LineTree<Steps> {
        self.list().tree()
    }
}
