ghost use Rattle.std.specs.Prelude.{◌≡◌, IfOk, string_bytes};

use crate::faults::OutOfMemory;
use crate::lists::Copied;
use std::alloc::Global;
use std::marker::Model;
use std::sync::ArcStr;

/// UTF-8 text, seen as its bytes. A text and its copies share their characters, which stay until the last of them goes.
#[derive(Debug, Drop)]
pub struct Text {
    shared: ArcStr,
}

impl Model for Text {
    ghost use Rattle.std.specs.Prelude.{List, ℕ};
    ghost use Rattle.std.specs.Arc.{arc_str_bytes};

    ghost Value = { List ℕ };

    ghost view = { λ a. arc_str_bytes a.shared };
}

impl PartialEq for Text {
    ghost use Rattle.std.specs.Prelude.{◌==◌};
    ghost use Rattle.std.specs.Cmp.Lexicographic.{pointwise};
    ghost use Rattle.std.proofs.Common.{rules};
    ghost use Rattle.std.specs.Cmp.Rules.{comparing};

    ghost eq = { pointwise ◌==◌ };

    ghost laws = { Prim.search (comparing, rules) };

    fn eq(&self, other: &Text) -> bool {
        self.as_str() == other.as_str()
    }
}

impl Eq for Text {
    ghost use Rattle.std.proofs.Common.{rules};
    ghost use Rattle.std.specs.Cmp.Rules.{comparing};

    ghost laws = { Prim.search (comparing, rules) };
}

impl Text {
    /// This string as a text.
    pub fn of(inner: String) -> Result<Text, OutOfMemory>
        ensures { IfOk result (λ t. t ≡ string_bytes inner) }
    {
        Ok(Text {
            shared: ArcStr::from_string(inner)?,
        })
    }

    /// A text with these characters.
    pub fn new(alloc: Global, text: &str) -> Result<Text, OutOfMemory>
        ensures { IfOk result (λ t. t ≡ text.now) }
    {
        Ok(Text {
            shared: ArcStr::from_str(alloc, text)?,
        })
    }

    /// Its characters.
    pub fn as_str(&self) -> &str
        ensures { result.now ≡ self.now }
    {
        self.shared.as_str()
    }

    /// An equal text. It shares its characters with this one, and takes no memory for them.
    ///
    /// The allocator stands here for the callers that copy whatever is `Copied`, of which other things take memory.
    pub fn copy(&self, _alloc: Global) -> Result<Text, OutOfMemory>
        ensures { IfOk result (λ t. t ≡ self.now) }
    {
        Ok(Text {
            shared: self.shared.clone()?,
        })
    }
}

impl Copied for Text {
    fn copied(&self, alloc: Global) -> Result<Text, OutOfMemory> {
        self.copy(alloc)
    }
}

/// The name of a stream, seen as its bytes. A callback may hold and cast to names of at most `MOST_NAME` bytes.
#[derive(Debug, Drop)]
pub struct Name {
    text: Text,
}

impl Model for Name {
    ghost use Rattle.std.specs.Prelude.{List, ℕ};

    ghost Value = { List ℕ };

    ghost view = { λ a. a.text };
}

impl PartialEq for Name {
    ghost use Rattle.std.specs.Prelude.{◌==◌};
    ghost use Rattle.std.specs.Cmp.Lexicographic.{pointwise};
    ghost use Rattle.std.proofs.Common.{rules};
    ghost use Rattle.std.specs.Cmp.Rules.{comparing};

    ghost eq = { pointwise ◌==◌ };

    ghost laws = { Prim.search (comparing, rules) };

    fn eq(&self, other: &Name) -> bool {
        self.as_str() == other.as_str()
    }
}

impl Eq for Name {
    ghost use Rattle.std.proofs.Common.{rules};
    ghost use Rattle.std.specs.Cmp.Rules.{comparing};

    ghost laws = { Prim.search (comparing, rules) };
}

impl Name {
    /// This text as a name.
    pub fn of(text: Text) -> Name
        ensures { result ≡ text }
    {
        Name { text }
    }

    /// A name with these characters.
    pub fn new(alloc: Global, text: &str) -> Result<Name, OutOfMemory>
        ensures { IfOk result (λ n. n ≡ text.now) }
    {
        Ok(Name {
            text: Text::new(alloc, text)?,
        })
    }

    /// Its characters.
    pub fn as_str(&self) -> &str
        ensures { result.now ≡ self.now }
    {
        self.text.as_str()
    }

    /// An equal name. It shares its characters with this one, and takes no memory for them.
    pub fn copy(&self, alloc: Global) -> Result<Name, OutOfMemory>
        ensures { IfOk result (λ n. n ≡ self.now) }
    {
        Ok(Name {
            text: self.text.copy(alloc)?,
        })
    }
}

impl Copied for Name {
    fn copied(&self, alloc: Global) -> Result<Name, OutOfMemory> {
        self.copy(alloc)
    }
}
