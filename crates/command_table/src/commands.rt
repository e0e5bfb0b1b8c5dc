//! The commands, each with its syntax.

/// What a command is asked to do (text(n), "WIDGET COMMAND").
#[derive(Clone, Copy, Debug, PartialEq, Eq)]
pub enum Command {
    /// `text W ?option value ..?`
    Text,
    /// `destroy ?W ..?`
    Destroy,
    /// `W insert I chars ?tagList chars ..?`
    Insert,
    /// `W delete I ?I ..?`
    Delete,
    /// `W replace A B chars ?tagList chars ..?`
    Replace,
    /// `W get I ?I ..?`
    Get,
    /// `W index I`
    Index,
    /// `W compare A op B`
    Compare,
    /// `W mark gravity M ?direction?`
    MarkGravity,
    /// `W mark names`
    MarkNames,
    /// `W mark next I`
    MarkNext,
    /// `W mark previous I`
    MarkPrevious,
    /// `W mark set M I`
    MarkSet,
    /// `W mark unset ?M ..?`
    MarkUnset,
    /// `W tag add T I ?I ..?`
    TagAdd,
    /// `W tag remove T I ?I ..?`
    TagRemove,
    /// `W tag delete T ?T ..?`
    TagDelete,
    /// `W tag names ?I?`
    TagNames,
    /// `W tag ranges T`
    TagRanges,
    /// `W tag nextrange T A ?B?`
    TagNextRange,
    /// `W tag prevrange T A ?B?`
    TagPreviousRange,
    /// `W tag raise T ?U?`
    TagRaise,
    /// `W tag lower T ?U?`
    TagLower,
    /// `W edit modified ?bool?`
    EditModified,
    /// `W edit undo`
    EditUndo,
    /// `W edit redo`
    EditRedo,
    /// `W edit reset`
    EditReset,
    /// `W edit separator`
    EditSeparator,
    /// `W configure option value ?option value ..?`
    Configure,
    /// `W cget option`
    Cget,
    /// `W search ?switch ..? pattern I ?J?`
    Search,
    /// `W count ?option ..? A B`
    Count,
    /// `W dump ?switch ..? A ?B?`
    Dump,
    /// `W peer create V ?option value ..?`
    PeerCreate,
    /// `W peer names`
    PeerNames,
}
