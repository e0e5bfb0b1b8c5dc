//! The keys of tags, as changes of tags report them.

ghost use Rattle.std.specs.Prelude.{◌≡◌, chars, IfOk};
ghost use Rattle.reports.specs.Keys.{key_named};

use command_table::is_word;
use std::alloc::{AllocError, Global};
use text_model::Text;

/// The key of a tag, by its name, or of a widget's `sel`, by the widget's name.
#[derive(Drop)]
pub struct Key {
    pub selects: bool,
    pub name: Text,
}

impl Key {
    pub fn new(alloc: Global, selects: bool, name: &str) -> Result<Key, AllocError>
        ensures { IfOk result (λ key. key ≡ record { selects = selects; name = chars name.now }) }
    {
        let name = Text::new(String::from_str(alloc, name)?);
        Ok(Key { selects, name })
    }

    /// The key of a tag by the name that a widget knows it by: `sel` is the widget's own.
    pub fn named(alloc: Global, widget: &str, name: &str) -> Result<Key, AllocError>
        ensures { IfOk result (λ key. key ≡ key_named (chars widget.now) (chars name.now)) }
    {
        if is_word(name, "sel") {
            Key::new(alloc, true, widget)
        } else {
            Key::new(alloc, false, name)
        }
    }

    /// The same key once more.
    pub fn copy(&self, alloc: Global) -> Result<Key, AllocError>
        ensures { IfOk result (λ key. key ≡ self.now) }
    {
        Key::new(alloc, self.selects, self.name.as_str())
    }
}
